ghost use Rattle.std.specs.Prelude.{◌≡◌, ◌≢◌, ◌<◌, false, length, Err, is_err, None};
ghost use Rattle.std.specs.Io.{ReadsAtMost};
ghost use Rattle.std.specs.Io.KnownBytes.{ReadConsumes};
ghost use Rattle.plasma_base.specs.Causes.{faults_after};
ghost use Rattle.plasma_outside.specs.Outside.{Takes, Puts, ends_after, given_by, is_failed};
ghost use Rattle.plasma_outside.specs.Standard.{Writes};

use super::sink::{Sink, SinkRefusal};
use super::source::{Source, SourceFailed};
use std::io::{self, ErrorKind, Read, Write};
use std::marker::Model;

/// A source over any reader of std, which contracts see as its reader, its counts of faults and of
/// ends, whether its last read failed, and how many bytes that gave. As a source it tells nothing of
/// its content. A read that was interrupted counts as a fault too.
#[derive(Drop)]
pub struct StdSource<R> {
    reader: R,
    faults: u64,
    ends: u64,
    failed_last: bool,
    given_last: usize,
}

impl<R> Model for StdSource<R> {
    ghost use Rattle.plasma_outside.specs.Standard.{StdInput};

    ghost Value = { StdInput R };

    ghost view = { λ s. record {
      reader = s.reader;
      faults = s.faults;
      ends = s.ends;
      failed_last = s.failed_last;
      given_last = s.given_last;
    } };
}

impl<R: Read> StdSource<R> {
    /// A source that hasn't failed yet, nor given its end.
    pub fn make(reader: R) -> StdSource<R>
        ensures { result ≡ record { reader = reader; faults = 0; ends = 0; failed_last = false; given_last = 0 } }
    {
        StdSource {
            reader,
            faults: 0,
            ends: 0,
            failed_last: false,
            given_last: 0,
        }
    }
}

impl<R: Read> Source for StdSource<R> {
    ghost left = { λ _. None };

    ghost faults = { λ input. input.faults };

    ghost ends = { λ input. input.ends };

    ghost failed_last = { λ input. input.failed_last };

    ghost given_last = { λ input. input.given_last };

    fn take(&mut self, room: &mut [u8]) -> Result<usize, SourceFailed>
        requires { 0 < length room.old }
        ensures bound { ReadsAtMost result room.new }
        ensures bytes { Takes None None result room.new }
        ensures cause { self.new.faults ≡ faults_after self.old.faults (is_err result) }
        ensures end { self.new.ends ≡ ends_after self.old.ends result }
        ensures last { self.new.failed_last ≡ is_err result }
        ensures given { self.new.given_last ≡ given_by result }
        ensures reader { ReadConsumes (R.remaining self.old.reader) (R.remaining self.new.reader) result room.new }
    {
        match self.reader.read(room) {
            Ok(count) => {
                self.failed_last = false;
                self.given_last = count;
                if count == 0 {
                    self.ends = self.ends.saturating_add(1);
                }
                Ok(count)
            }
            Err(_) => {
                self.failed_last = true;
                self.given_last = 0;
                self.faults = self.faults.saturating_add(1);
                Err(SourceFailed)
            }
        }
    }
}

/// A sink over any writer of std, which contracts see as its writer and its count of faults. As a
/// sink it tells nothing of its content.
#[derive(Drop)]
pub struct StdSink<W> {
    writer: W,
    faults: u64,
}

impl<W> Model for StdSink<W> {
    ghost use Rattle.plasma_outside.specs.Standard.{StdOutput};

    ghost Value = { StdOutput W };

    ghost view = { λ s. record { writer = s.writer; faults = s.faults } };
}

impl<W: Write> StdSink<W> {
    /// A sink that hasn't failed yet.
    pub fn make(writer: W) -> StdSink<W>
        ensures { result ≡ record { writer = writer; faults = 0 } }
    {
        StdSink { writer, faults: 0 }
    }
}

impl<W: Write> Sink for StdSink<W> {
    ghost taken = { λ _. None };

    ghost faults = { λ output. output.faults };

    ghost takes_memory = { false };

    /// Writes all bytes and then flushes. A write that takes none of the bytes that are left has
    /// failed, and so has one that was interrupted; after it nothing is written. It never answers
    /// `NoMemory`.
    fn put_all(&mut self, bytes: &[u8]) -> Result<(), SinkRefusal>
        ensures bytes { Puts None None result bytes.now }
        ensures cause { self.new.faults ≡ faults_after self.old.faults (is_failed result) }
        ensures wrote { Writes (W.contents self.old.writer) (W.contents self.new.writer) result bytes.now }
        ensures memory { result ≢ Err SinkRefusal.NoMemory }
    {
        if write_through(&mut self.writer, bytes).is_err() {
            self.faults = self.faults.saturating_add(1);
            return Err(SinkRefusal::Failed);
        }
        Ok(())
    }
}

// Writes all bytes and then flushes, and stops at the first write that fails or takes none.
fn write_through<W: Write>(writer: &mut W, bytes: &[u8]) -> io::Result<()>
    ensures { Writes (W.contents writer.old) (W.contents writer.new) result bytes.now }
{
    let mut rest = bytes;
    while !rest.is_empty() {
        let count = writer.write(rest)?;
        if count == 0 {
            return Err(ErrorKind::WriteZero.into());
        }
        rest = &rest[count..];
    }
    writer.flush()
}
