use crash_disk::{Disk, FileDisk};
use std::fs::{self, File, Files};
use std::test::Fail;

const PATH: &str = "over_a_file.journal";

fn disk<'a, R: Files<File = File>>(rt: &'a R, path: &'a str) -> FileDisk<'a, R> {
    FileDisk::make(rt, path)
}

// What the calls answer: `None` is a failure, and a call that answers nothing but success has 0.
fn len<R: Files<File = File>>(disk: &mut FileDisk<'_, R>) -> Option<u64> {
    disk.len().ok()
}

// The two bytes from a place, as a number.
fn read<R: Files<File = File>>(disk: &mut FileDisk<'_, R>, place: u64) -> Option<u64> {
    let mut room = [0; 2];
    match disk.read_at(place, &mut room) {
        Ok(()) => Some(u16::from_be_bytes(room).into()),
        Err(_) => None,
    }
}

fn write<R: Files<File = File>>(
    disk: &mut FileDisk<'_, R>,
    place: u64,
    bytes: &[u8],
) -> Option<u64> {
    match disk.write_at(place, bytes) {
        Ok(()) => Some(0),
        Err(_) => None,
    }
}

fn sync<R: Files<File = File>>(disk: &mut FileDisk<'_, R>) -> Option<u64> {
    match disk.sync() {
        Ok(()) => Some(0),
        Err(_) => None,
    }
}

// A disk whose file isn't there.
fn missing<R: Files<File = File>>(disk: &mut FileDisk<'_, R>) -> [Option<u64>; 3] {
    [len(disk), sync(disk), read(disk, 0)]
}

// Its first write, which makes the file.
fn begun<R: Files<File = File>>(mut disk: FileDisk<'_, R>) -> [Option<u64>; 2] {
    [write(&mut disk, 0, b"abcd"), sync(&mut disk)]
}

// Another disk over the file, which writes over its end, past the greatest place, and nothing.
fn written<R: Files<File = File>>(mut disk: FileDisk<'_, R>) -> [Option<u64>; 4] {
    [
        len(&mut disk),
        write(&mut disk, 3, b"DE"),
        write(&mut disk, u64::MAX, b"x"),
        write(&mut disk, 1, b""),
    ]
}

// One that reads to the end and past it.
fn again<R: Files<File = File>>(mut disk: FileDisk<'_, R>) -> [Option<u64>; 3] {
    [len(&mut disk), read(&mut disk, 3), read(&mut disk, 4)]
}

// One whose folder isn't there.
fn nowhere<R: Files<File = File>>(mut disk: FileDisk<'_, R>) -> [Option<u64>; 3] {
    [len(&mut disk), sync(&mut disk), write(&mut disk, 0, b"a")]
}

#[test]
fn over_a_file(rt: HostRuntime) -> Result<(), Fail> {
    let _ = fs::remove_file(&rt, PATH);
    let mut first = disk(&rt, PATH);
    assert!(rt; missing(&mut first) == [Some(0), Some(0), None]);
    assert!(rt; !fs::exists(&rt, PATH)?);
    assert!(rt; begun(first) == [Some(0), Some(0)]);
    assert!(rt; written(disk(&rt, PATH)) == [Some(4), Some(0), None, Some(0)]);
    assert!(rt; again(disk(&rt, PATH)) == [Some(5), Some(0x4445), None]);
    assert!(rt; fs::read(&rt, PATH)?.as_slice() == b"abcDE".as_slice());
    fs::remove_file(&rt, PATH)?;
    assert!(rt; len(&mut disk(&rt, ".")).is_none());
    assert!(rt; nowhere(disk(&rt, "nowhere/a.journal")) == [Some(0), Some(0), None]);
    Ok(())
}
