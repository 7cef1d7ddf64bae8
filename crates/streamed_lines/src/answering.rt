ghost use Rattle.std.specs.Prelude.{◌≡◌, ◌≤◌, ◌+◌, ◌++◌, [], length, OnOk, OnErr, IfErr};
ghost use Rattle.streamed_lines.specs.Streams.{Stream, next_number};
ghost use Rattle.streamed_lines.specs.Reading.{Gathers, StopsAt, IsHalted};

use super::answerer::Answerer;
use super::ending::{Halt, Stop};
use super::lines::{is_too_long, text_of};
use super::reading::Reading;
use super::{MOST_INPUT_BYTES, MOST_LINES};

/// Answers the line that is kept with the rest of it into the text. Where one of the two is empty, it takes no memory
/// of its own.
pub fn answer_kept<A: Answerer>(
    answerer: &mut A,
    reading: &mut Reading,
    rest: &[u8],
    text: &mut Vec<u8>,
) -> Result<(), Halt<A::Cause>>
    requires start { reading.old.start ≤ MOST_INPUT_BYTES }
    requires ready { A.ready answerer.old }
    ensures told { (stream : Stream A.Run) → A.ran answerer.old stream.run → reading.old.number ≡ next_number stream
        → OnOk result (Gathers (A.rules answerer.old) A.ran reading.old.start stream
        (reading.old.line.items ++ rest.now) text.old.items text.new.items answerer.new) }
    ensures stops { (stream : Stream A.Run) → A.ran answerer.old stream.run → reading.old.number ≡ next_number stream
        → IfErr result
        (StopsAt (A.rules answerer.old) reading.old.start stream (reading.old.line.items ++ rest.now)) }
    ensures halted { (stream : Stream A.Run) → A.ran answerer.old stream.run → reading.old.number ≡ next_number stream
        → IfErr result
        (IsHalted A.ran A.halted reading.old.start reading.old.line.items rest.now answerer.new stream
        (reading.old.line.items ++ rest.now)) }
    ensures untold { OnErr result (text.new.items ≡ text.old.items) }
    ensures number { OnOk result (reading.new.number ≡ reading.old.number + 1) }
    ensures same_number { OnErr result (reading.new.number ≡ reading.old.number) }
    ensures lines { OnOk result (reading.old.number ≤ MOST_LINES) }
    ensures start { OnOk result
        (reading.new.start ≡ reading.old.start + length reading.old.line.items + length rest.now) }
    ensures within { OnOk result (reading.new.start ≤ MOST_INPUT_BYTES) }
    ensures none_left { OnOk result (reading.new.line.items ≡ []) }
    ensures rules { A.rules answerer.new ≡ A.rules answerer.old }
    ensures ready { OnOk result (A.ready answerer.new) }
{
    let alloc = *reading.line.allocator();
    let mut kept = std::mem::replace(&mut reading.line, Vec::new(alloc));
    let line = if kept.is_empty() {
        rest
    } else if rest.is_empty() {
        kept.as_slice()
    } else {
        kept.extend_from_slice(rest)?;
        kept.as_slice()
    };
    if is_too_long(reading.number, reading.start, line) {
        return Err(Halt::Stops {
            stop: Stop::TooLong,
        });
    }
    answerer.answer(text_of(line), text)?;
    reading.number += 1;
    reading.start += line.len() as u64;
    Ok(())
}
