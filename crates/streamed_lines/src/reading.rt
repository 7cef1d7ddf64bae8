ghost use Rattle.std.specs.Prelude.{◌≡◌, ◌≤◌, ◌<◌, ◌+◌, ◌++◌, length, OnOk, IfErr};
ghost use Rattle.streamed_lines.specs.Lines.{HasNoFeed, limit_of};
ghost use Rattle.streamed_lines.specs.Bounds.{room};
ghost use Rattle.streamed_lines.specs.Reading.{IsKept, StopsKept};

use super::ending::{Halt, Stop};
use super::lines::{is_too_long, limit_of};
use super::{MOST_INPUT_BYTES, MOST_LINES};

/// How many bytes are taken at a time.
pub const ROOM: usize = 65_536;

/// What is kept of an input on the way: the number of the line that is read, how many bytes of the input stand before
/// it, and what is there of it.
#[derive(Drop)]
pub struct Reading {
    pub number: u64,
    pub start: u64,
    pub line: Vec<u8>,
}

/// How much of the room is lent to a source: a byte less where the next one may pass a limit, so that fewer bytes than
/// a room has are taken past it.
pub fn size_to_lend(reading: &Reading) -> usize
    requires { IsKept reading.now.number reading.now.start reading.now.line.items }
    ensures some { 0 < result }
    ensures most { result ≤ room }
    ensures few { reading.now.start + length reading.now.line.items + result
        < limit_of reading.now.number reading.now.start + room }
{
    if reading.start + (reading.line.len() as u64) < limit_of(reading.number, reading.start) {
        ROOM
    } else {
        ROOM - 1
    }
}

/// Keeps what is there of the next line, unless it passes a limit already.
pub fn keep<C>(reading: &mut Reading, rest: &[u8]) -> Result<(), Halt<C>>
    requires plain { HasNoFeed (reading.old.line.items ++ rest.now) }
    requires lines { reading.old.number ≤ MOST_LINES + 1 }
    requires start { reading.old.start ≤ MOST_INPUT_BYTES }
    ensures line { OnOk result (reading.new.line.items ≡ reading.old.line.items ++ rest.now) }
    ensures number { reading.new.number ≡ reading.old.number }
    ensures start { reading.new.start ≡ reading.old.start }
    ensures kept { OnOk result (IsKept reading.new.number reading.new.start reading.new.line.items) }
    ensures stops { IfErr result
        (StopsKept reading.old.number reading.old.start (reading.old.line.items ++ rest.now)) }
{
    reading.line.extend_from_slice(rest)?;
    if !reading.line.is_empty() && is_too_long(reading.number, reading.start, &reading.line) {
        return Err(Halt::Stops {
            stop: Stop::TooLong,
        });
    }
    Ok(())
}
