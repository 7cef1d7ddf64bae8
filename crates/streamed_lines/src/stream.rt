ghost use Rattle.std.specs.Prelude.{◌≡◌, ◌≤◌, ◌<◌, ◌+◌, ◌++◌, ℕ, List, [], length, take, Ok, Err, true, false, is_err, IfOk, OnOk, OnErr, IfErr};
ghost use Rattle.plasma_base.specs.Causes.{counted, faults_after};
ghost use Rattle.plasma_outside.specs.declared.sink.SinkRefusal.{SinkRefusal};
ghost use Rattle.plasma_outside.specs.Outside.{ends_after, given_by, is_failed};
ghost use Rattle.streamed_lines.specs.declared.ending.Ending.{Ending};
ghost use Rattle.streamed_lines.specs.Lines.{limit_of};
ghost use Rattle.streamed_lines.specs.Streams.{Stream, next_number, end_of_input};
ghost use Rattle.streamed_lines.specs.Bounds.{room};
ghost use Rattle.streamed_lines.specs.Outside.{Gave, GaveAll, Wrote, WroteFront, ReadsToFault, ReadsToEnd};
ghost use Rattle.streamed_lines.specs.Prompt.{AnswersPromptly, answers_so_far};
ghost use Rattle.streamed_lines.specs.Reading.{IsKept, Reads, Answers, BrokeOff, EndsAs, BreaksOff, HaltsWith, is_read_fault, is_write_fault};

use super::answerer::Answerer;
use super::answering::answer_kept;
use super::ending::{Break, Ending, Halt};
use super::lines::feed_place;
use super::reading::{ROOM, Reading, keep, size_to_lend};
use plasma_outside::{Sink, SinkRefusal, Source, SourceFailed};
use std::alloc::Global;

/// Puts the gathered text, and leaves none.
pub fn put_text<K: Sink>(sink: &mut K, text: &mut Vec<u8>) -> Result<(), SinkRefusal>
    ensures ok { OnOk result (Wrote (K.taken sink.old) (K.taken sink.new) text.old.items) }
    ensures none_left { OnOk result (text.new.items ≡ []) }
    ensures err { OnErr result (WroteFront (K.taken sink.old) (K.taken sink.new) text.old.items) }
    ensures cause { K.faults sink.new ≡ faults_after (K.faults sink.old) (is_failed result) }
    ensures memory { result ≡ Err SinkRefusal.NoMemory → K.takes_memory ≡ true }
{
    if text.is_empty() {
        return Ok(());
    }
    sink.put_all(text)?;
    text.clear();
    Ok(())
}

// Takes at most so many bytes to the beginning of the room, and says how many: none only at the end of the input.
fn take_some<S: Source>(source: &mut S, room: &mut [u8], size: usize) -> Result<usize, SourceFailed>
    requires some { 0 < size }
    requires within { size ≤ length room.old }
    ensures ok { IfOk result (λ n. GaveAll (S.left source.old) (S.left source.new) (take n room.new)) }
    ensures err { OnErr result (Gave (S.left source.old) (S.left source.new) [] false) }
    ensures bound { IfOk result (λ n. n ≤ size) }
    ensures same { length room.new ≡ length room.old }
    ensures reads { ReadsToFault (S.faults source.old) (S.faults source.new) (S.failed_last source.new)
        (is_err result) }
    ensures last { S.failed_last source.new ≡ is_err result }
    ensures end { S.ends source.new ≡ ends_after (S.ends source.old) result }
    ensures given { S.given_last source.new ≡ given_by result }
{
    source.take(&mut room[..size])
}

// Answers the lines that end in what was taken, and keeps the rest.
fn answer_taken<A: Answerer>(
    answerer: &mut A,
    reading: &mut Reading,
    taken: &[u8],
    text: &mut Vec<u8>,
) -> Result<(), Halt<A::Cause>>
    requires kept { IsKept reading.old.number reading.old.start reading.old.line.items }
    requires ready { A.ready answerer.old }
    requires some { 0 < length taken.now }
    requires bound { length taken.now ≤ room }
    requires few { reading.old.start + length reading.old.line.items + length taken.now
        < limit_of reading.old.number reading.old.start + room }
    ensures reads { (first : A.Run) (bytes put : List ℕ)
        → Reads (A.rules answerer.old) first A.ran bytes put text.old.items
        reading.old.line.items reading.old.number reading.old.start answerer.old
        → OnOk result (Reads (A.rules answerer.old) first A.ran (bytes ++ taken.now) put text.new.items
        reading.new.line.items reading.new.number reading.new.start answerer.new) }
    ensures halts { (first : A.Run) (bytes put : List ℕ)
        → Reads (A.rules answerer.old) first A.ran bytes put text.old.items
        reading.old.line.items reading.old.number reading.old.start answerer.old
        → IfErr result (HaltsWith (A.rules answerer.old) first A.ran A.halted (length taken.now) false
        (bytes ++ taken.now) put text.new.items reading.new.number answerer.new) }
    ensures kept { OnOk result (IsKept reading.new.number reading.new.start reading.new.line.items) }
    ensures size { OnOk result (reading.new.start + length reading.new.line.items
        ≡ reading.old.start + length reading.old.line.items + length taken.now) }
    ensures rules { A.rules answerer.new ≡ A.rules answerer.old }
    ensures ready { OnOk result (A.ready answerer.new) }
{
    let mut rest = taken;
    while let Some(place) = feed_place(rest) {
        let (line, after) = rest.split_at(place + 1);
        answer_kept(answerer, reading, line, text)?;
        rest = after;
    }
    keep(reading, rest)
}

// What ends a stream whose input has no more lines.
fn end_of_lines<A: Answerer>(answerer: &A, number: u64) -> Ending<A::Cause>
    ensures ends { (stream : Stream A.Run) → A.ran answerer.now stream.run → number ≡ next_number stream
        → result ≡ end_of_input (A.rules answerer.now) true stream }
    ensures no_fault { is_read_fault (Ok result) ≡ false }
{
    if answerer.may_end() {
        Ending::Complete
    } else {
        Ending::BadLine { line: number }
    }
}

// Answers what is there of a last line without its line feed.
fn answer_last<A: Answerer>(
    answerer: &mut A,
    reading: &mut Reading,
    text: &mut Vec<u8>,
) -> Result<Ending<A::Cause>, Break>
    requires kept { IsKept reading.old.number reading.old.start reading.old.line.items }
    requires ready { A.ready answerer.old }
    ensures ends { (first : A.Run) (bytes put : List ℕ)
        → Reads (A.rules answerer.old) first A.ran bytes put text.old.items
        reading.old.line.items reading.old.number reading.old.start answerer.old
        → IfOk result (λ ending.
        EndsAs (A.rules answerer.old) first A.ran A.halted true bytes put text.new.items ending answerer.new) }
    ensures breaks { (first : A.Run) (bytes put : List ℕ)
        → Reads (A.rules answerer.old) first A.ran bytes put text.old.items
        reading.old.line.items reading.old.number reading.old.start answerer.old
        → IfErr result (λ why.
        BreaksOff (A.rules answerer.old) first A.ran A.halted false 0 true bytes put text.new.items why answerer.new) }
    ensures rules { A.rules answerer.new ≡ A.rules answerer.old }
    ensures ready { result ≡ Ok Ending.Complete → A.ready answerer.new }
    ensures no_write { is_write_fault result ≡ false }
    ensures no_fault { is_read_fault result ≡ false }
{
    if reading.line.is_empty() {
        return Ok(end_of_lines(answerer, reading.number));
    }
    match answer_kept(answerer, reading, &[], text) {
        Ok(()) => Ok(end_of_lines(answerer, reading.number)),
        Err(halt) => halt.outcome(reading.number),
    }
}

/// Answers the lines of an input, each before more is taken, and says what ended it, or broke it off. The answerer is
/// where it is left by lines that came to `first`. What is left of the text is not yet put.
pub fn answer_lines<A: Answerer, S: Source, K: Sink>(
    alloc: Global,
    answerer: &mut A,
    source: &mut S,
    sink: &mut K,
    text: &mut Vec<u8>,
) -> Result<Ending<A::Cause>, Break>
    ghost first: { A.Run }
    requires none { text.old.items ≡ [] }
    requires ready { A.ready answerer.old }
    requires first { A.ran answerer.old first }
    ensures answered { IfOk result (λ ending. Answers (A.rules answerer.old) first A.ran A.halted (S.left source.old)
        (S.left source.new) (K.taken sink.old) (K.taken sink.new) text.new.items ending answerer.new) }
    ensures broken { IfErr result (λ why. BrokeOff (A.rules answerer.old) first A.ran A.halted K.takes_memory
        (S.given_last source.new) (S.left source.old) (S.left source.new) (K.taken sink.old) (K.taken sink.new)
        text.new.items why answerer.new) }
    ensures prompt { AnswersPromptly (answers_so_far (A.rules answerer.old) first) (S.left source.old) (S.left source.new)
        (S.failed_last source.new) (K.taken sink.old) (K.taken sink.new) }
    ensures reads { ReadsToFault (S.faults source.old) (S.faults source.new) (S.failed_last source.new)
        (is_read_fault result) }
    ensures last { S.failed_last source.new ≡ is_read_fault result }
    ensures end { ReadsToEnd (S.ends source.old) (S.ends source.new) }
    ensures whole { result ≡ Ok Ending.Complete → S.ends source.new ≡ counted (S.ends source.old) }
    ensures unended { is_read_fault result ≡ true → S.ends source.new ≡ S.ends source.old }
    ensures put { IfOk result (λ ending. ending ≡ Ending.ReadFault → text.new.items ≡ []) }
    ensures cause { K.faults sink.new ≡ faults_after (K.faults sink.old) (is_write_fault result) }
    ensures rules { A.rules answerer.new ≡ A.rules answerer.old }
    ensures ready { result ≡ Ok Ending.Complete → A.ready answerer.new }
{
    let mut reading = Reading {
        number: 1,
        start: 0,
        line: Vec::new(alloc),
    };
    let mut room = [0u8; ROOM];
    loop {
        let size = size_to_lend(&reading);
        match take_some(source, &mut room, size) {
            Ok(0) => return answer_last(answerer, &mut reading, text),
            Ok(count) => match answer_taken(answerer, &mut reading, &room[..count], text) {
                Ok(()) => put_text(sink, text)?,
                Err(halt) => return halt.outcome(reading.number),
            },
            Err(_) => return Ok(Ending::ReadFault),
        }
    }
}
