use crash_disk::{Disk, FileDisk};
use std::alloc::Alloc;
use std::fs::{self, File, Files, OpenOptions, Permissions};
use std::os::unix::fs::{MetadataExt, PermissionsExt, symlink};
use std::process::Abort;
use std::test::Fail;

const FOLDER: &str = "held_file_test";

const PATH: &str = "held_file_test/a.journal";

const OTHER: &str = "held_file_test/b.journal";

// These have no clause, so that the proof of a test doesn't carry what is known of each call.
fn disk<'a, R: Files<File = File>>(rt: &'a R, path: &'a str) -> FileDisk<'a, R> {
    FileDisk::make(rt, path)
}

fn len<R: Files<File = File>>(disk: &mut FileDisk<'_, R>) -> Option<u64> {
    disk.len().ok()
}

fn writes<R: Files<File = File>>(disk: &mut FileDisk<'_, R>, place: u64, bytes: &[u8]) -> bool {
    disk.write_at(place, bytes).is_ok()
}

fn syncs<R: Files<File = File>>(disk: &mut FileDisk<'_, R>) -> bool {
    disk.sync().is_ok()
}

// Whether a new disk over what is at a path answers its first call.
fn opens<R: Files<File = File>>(rt: &R, path: &str) -> bool {
    len(&mut disk(rt, path)).is_some()
}

// Whether the file holds these bytes.
fn holds<R: Files + Alloc>(rt: &R, bytes: &[u8]) -> Result<bool, Fail> {
    Ok(fs::read(rt, PATH)?.as_slice() == bytes)
}

// Puts a file of four bytes at the path, and nothing beside it.
fn begin<R: Files + Alloc>(rt: &R) -> Result<(), Fail> {
    let _ = fs::remove_dir_all(rt, FOLDER);
    fs::create_dir(rt, FOLDER)?;
    fs::write(rt, PATH, b"abcd")?;
    give_mode(rt, 0o600)
}

fn give_mode<R: Files>(rt: &R, mode: u32) -> Result<(), Fail> {
    fs::set_permissions(rt, PATH, Permissions::from_mode(mode))?;
    Ok(())
}

// Cuts the file to so many bytes.
fn cut<R: Files<File = File>>(rt: &R, count: u64) -> Result<(), Fail> {
    let file = OpenOptions::new().write(true).open(rt, PATH)?;
    file.set_len(count)?;
    Ok(())
}

fn made<R: Files<File = File> + Abort>(rt: &R) -> Result<(), Fail> {
    fs::remove_file(rt, PATH)?;
    let mut disk = disk(rt, PATH);
    assert!(rt; writes(&mut disk, 0, b"seed"), "a write makes the file");
    let mode = fs::metadata(rt, PATH)?.mode() & 0o777;
    assert!(rt; mode == 0o600, "only its owner reads it");
    assert!(rt; !opens(rt, PATH), "the disk that made it holds it");
    Ok(())
}

fn held_twice<R: Files<File = File> + Abort>(rt: &R) {
    let mut first = disk(rt, PATH);
    let mut second = disk(rt, PATH);
    assert!(rt; syncs(&mut first), "a file that nobody holds is taken");
    assert!(rt; len(&mut second).is_none(), "a second disk is refused");
    assert!(rt; writes(&mut first, 4, b"e"), "the first disk goes on");
    drop(first);
    assert!(rt; len(&mut second) == Some(5), "a dropped disk frees it");
}

fn linked<R: Files<File = File> + Abort>(rt: &R) -> Result<(), Fail> {
    fs::rename(rt, PATH, OTHER)?;
    symlink(rt, "b.journal", PATH)?;
    assert!(rt; fs::exists(rt, PATH)?, "the link leads to the file");
    assert!(rt; !opens(rt, PATH), "a link to a file isn't followed");
    fs::remove_file(rt, OTHER)?;
    assert!(rt; !opens(rt, PATH), "a link to nothing isn't followed");
    let mut over_link = disk(rt, PATH);
    assert!(rt; !writes(&mut over_link, 0, b"x"), "a write follows no link");
    assert!(rt; !fs::exists(rt, OTHER)?, "a link's target isn't made");
    assert!(rt; !opens(rt, FOLDER), "a folder isn't opened");
    assert!(rt; !opens(rt, "/dev/null"), "a device isn't opened");
    Ok(())
}

fn named_twice<R: Files<File = File> + Abort>(rt: &R) -> Result<(), Fail> {
    let mut disk = disk(rt, PATH);
    assert!(rt; syncs(&mut disk), "a file with one name is taken");
    fs::hard_link(rt, PATH, OTHER)?;
    assert!(rt; !syncs(&mut disk), "a sync sees a second name");
    drop(disk);
    assert!(rt; !opens(rt, PATH), "a file with two names is refused");
    assert!(rt; !opens(rt, OTHER), "its second name is refused too");
    fs::remove_file(rt, OTHER)?;
    assert!(rt; opens(rt, PATH), "with one name it is taken again");
    Ok(())
}

fn replaced<R: Files<File = File> + Abort>(rt: &R) -> Result<(), Fail> {
    let mut disk = disk(rt, PATH);
    assert!(rt; syncs(&mut disk), "the file is at its path");
    fs::rename(rt, PATH, OTHER)?;
    assert!(rt; !syncs(&mut disk), "a sync sees that it was renamed");
    fs::write(rt, PATH, b"abcd")?;
    assert!(rt; !syncs(&mut disk), "a sync sees another in its place");
    fs::rename(rt, OTHER, PATH)?;
    assert!(rt; syncs(&mut disk), "a sync finds it back at its path");
    fs::remove_file(rt, PATH)?;
    assert!(rt; !syncs(&mut disk), "a sync sees that it was removed");
    Ok(())
}

fn truncated<R: Files<File = File> + Alloc + Abort>(rt: &R) -> Result<(), Fail> {
    let mut disk = disk(rt, PATH);
    assert!(rt; len(&mut disk) == Some(4), "the file has four bytes");
    cut(rt, 2)?;
    assert!(rt; !writes(&mut disk, 4, b"e"), "a write behind the end fails");
    assert!(rt; holds(rt, b"ab")?, "a failed write leaves no hole");
    assert!(rt; writes(&mut disk, 2, b"CD"), "a write at the end passes");
    assert!(rt; holds(rt, b"abCD")?, "its bytes are there");
    Ok(())
}

fn made_between<R: Files<File = File> + Alloc + Abort>(rt: &R) -> Result<(), Fail> {
    fs::remove_file(rt, PATH)?;
    let mut first = disk(rt, PATH);
    let mut second = disk(rt, PATH);
    assert!(rt; len(&mut first) == Some(0), "the first disk finds no file");
    assert!(rt; len(&mut second) == Some(0), "nor does the second one");
    assert!(rt; writes(&mut first, 0, b"abcd"), "the first one makes it");
    assert!(rt; !writes(&mut second, 0, b"x"), "the second one can't write");
    drop(first);
    assert!(rt; !writes(&mut second, 0, b"x"), "nor when the file is free");
    assert!(rt; holds(rt, b"abcd")?, "the first one's bytes stay");
    Ok(())
}

fn marked<R: Files<File = File> + Abort>(rt: &R) -> Result<(), Fail> {
    let mut disk = disk(rt, PATH);
    assert!(rt; syncs(&mut disk), "a file without the mark is taken");
    give_mode(rt, 0o400)?;
    assert!(rt; !syncs(&mut disk), "a sync sees the mark");
    drop(disk);
    assert!(rt; !opens(rt, PATH), "a marked file is refused");
    give_mode(rt, 0o600)?;
    assert!(rt; opens(rt, PATH), "without the mark it is taken again");
    Ok(())
}

fn open_to_others<R: Files<File = File> + Abort>(rt: &R) -> Result<(), Fail> {
    give_mode(rt, 0o660)?;
    assert!(rt; !opens(rt, PATH), "a file that a group writes is refused");
    give_mode(rt, 0o602)?;
    assert!(rt; !opens(rt, PATH), "a file that others write is refused");
    give_mode(rt, 0o744)?;
    let mut disk = disk(rt, PATH);
    assert!(rt;
        syncs(&mut disk),
        "a file that only its owner writes is taken"
    );
    let mode = fs::metadata(rt, PATH)?.mode() & 0o777;
    assert!(rt; mode == 0o600, "others can't read it any more");
    give_mode(rt, 0o622)?;
    assert!(rt; !syncs(&mut disk), "a sync sees that others may write it");
    Ok(())
}

fn missing_then_there<R: Files<File = File> + Abort>(rt: &R) -> Result<(), Fail> {
    fs::remove_file(rt, PATH)?;
    let mut disk = disk(rt, PATH);
    assert!(rt; syncs(&mut disk), "a missing file needs no sync");
    fs::write(rt, PATH, b"abcd")?;
    assert!(rt; len(&mut disk) == Some(0), "what came later isn't taken");
    Ok(())
}

#[test]
fn over_a_file_that_others_touch(rt: HostRuntime) -> Result<(), Fail> {
    begin(&rt)?;
    made(&rt)?;
    begin(&rt)?;
    held_twice(&rt);
    begin(&rt)?;
    linked(&rt)?;
    begin(&rt)?;
    named_twice(&rt)?;
    begin(&rt)?;
    replaced(&rt)?;
    begin(&rt)?;
    truncated(&rt)?;
    begin(&rt)?;
    made_between(&rt)?;
    begin(&rt)?;
    marked(&rt)?;
    begin(&rt)?;
    open_to_others(&rt)?;
    begin(&rt)?;
    missing_then_there(&rt)?;
    fs::remove_dir_all(&rt, FOLDER)?;
    Ok(())
}
