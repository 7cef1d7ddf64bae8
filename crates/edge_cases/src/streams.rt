use plasma_outside::{Sink, SinkRefusal, Source, StdSink, StdSource};
use std::alloc::Global;
use std::io::{self, Cursor, ErrorKind, Read, Write};
use std::test::Fail;

// What a source gives in takes of four bytes, up to its end.
fn drained<R: Read + Drop>(alloc: Global, reader: R) -> Result<Vec<u8>, Fail> {
    let mut source = StdSource::make(reader);
    let mut all = Vec::new(alloc);
    let mut room = [0; 4];
    for _ in 0..9 {
        match source.take(&mut room)? {
            0 => break,
            count => all.extend_from_slice(&room[..count])?,
        }
    }
    Ok(all)
}

// What a sink over a writer answers, given these bytes.
fn put<W: Write + Drop>(writer: W, bytes: &[u8]) -> Result<(), SinkRefusal> {
    StdSink::make(writer).put_all(bytes)
}

#[test]
fn over_std(rt: HostRuntime) -> Result<(), Fail> {
    let all = drained(rt.alloc(), Cursor::new(b"abcdefghij".as_slice()))?;
    assert!(rt; all.as_slice() == b"abcdefghij".as_slice());
    let mut written = Vec::new(rt.alloc());
    assert!(rt; put(&mut written, b"abcdefghij").is_ok());
    assert!(rt; written.as_slice() == b"abcdefghij".as_slice());
    let mut full = [0u8; 3];
    assert!(rt; put(full.as_mut_slice(), b"abcd") == Err(SinkRefusal::Failed));
    Ok(())
}

// A reader and a writer whose call with this number fails, counted from 1: reads, writes and flushes. A read gives
// one byte. A write takes two bytes of those that it is given, and the write past `most` bytes takes none.
#[derive(Drop)]
struct Faulty {
    bytes: Vec<u8>,
    most: usize,
    fails: u64,
    calls: u64,
}

fn make_faulty(alloc: Global, most: usize, fails: u64) -> Faulty {
    Faulty {
        bytes: Vec::new(alloc),
        most,
        fails,
        calls: 0,
    }
}

impl Faulty {
    fn count_call(&mut self) -> io::Result<()> {
        self.calls = self.calls.saturating_add(1);
        if self.fails == self.calls {
            return Err(ErrorKind::Interrupted.into());
        }
        Ok(())
    }
}

impl Read for Faulty {
    fn read(&mut self, room: &mut [u8]) -> io::Result<usize> {
        self.count_call()?;
        Ok(room.len().min(1))
    }
}

impl Write for Faulty {
    fn write(&mut self, bytes: &[u8]) -> io::Result<usize> {
        self.count_call()?;
        let room = self.most.saturating_sub(self.bytes.len());
        let count = bytes.len().min(room).min(2);
        self.bytes.extend_from_slice(&bytes[..count])?;
        Ok(count)
    }

    fn flush(&mut self) -> io::Result<()> {
        self.count_call()
    }
}

// Whether five bytes are put, and what is written, where so many bytes have room and this call fails.
fn put_five(alloc: Global, most: usize, fails: u64) -> (bool, Vec<u8>) {
    let mut writer = make_faulty(alloc, most, fails);
    let done = put(&mut writer, b"abcde").is_ok();
    (done, writer.bytes)
}

// A read that was interrupted isn't tried again.
fn take_thrice(alloc: Global) -> [Option<usize>; 3] {
    let mut source = StdSource::make(make_faulty(alloc, 0, 2));
    let mut room = [0; 4];
    [
        source.take(&mut room).ok(),
        source.take(&mut room).ok(),
        source.take(&mut room).ok(),
    ]
}

// Nothing is written after a write that fails or takes nothing, and a flush that fails is answered.
#[test]
fn faults_over_std(rt: HostRuntime) -> Result<(), Fail> {
    assert!(rt; take_thrice(rt.alloc()) == [Some(1), None, Some(1)]);
    for (most, fails, done, written) in [
        (9, 0, true, "abcde"),
        (9, 1, false, ""),
        (9, 2, false, "ab"),
        (9, 3, false, "abcd"),
        (9, 4, false, "abcde"),
        (3, 0, false, "abc"),
    ] {
        let (is_done, bytes) = put_five(rt.alloc(), most, fails);
        assert!(rt;
            is_done == done && bytes.as_slice() == written.as_bytes(),
            "{most} {fails}"
        );
    }
    Ok(())
}
