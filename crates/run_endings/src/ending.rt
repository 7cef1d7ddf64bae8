ghost use Rattle.std.specs.Prelude.{◌≡◌, ◌≢◌, ◌⊎◌, ◌++◌, [], true, false, Err, OnOk, OnErr};
ghost use Rattle.plasma_base.specs.Causes.{faults_after};
ghost use Rattle.plasma_outside.specs.declared.sink.SinkRefusal.{SinkRefusal};
ghost use Rattle.plasma_outside.specs.Outside.{is_failed};
ghost use Rattle.streamed_lines.specs.Outside.{Wrote, WroteFront};
ghost use Rattle.run_endings.specs.Statuses.{is_write_fault};
ghost use Rattle.run_endings.specs.Endings.{status_of, last_text, is_composed};

use super::status::Status;
use super::text::{push_bad_line, push_refused, push_too_long};
use plasma_base::{Bytes, NoMemory};
use plasma_outside::{Sink, SinkRefusal};
use streamed_lines::{Ending, put_text};

/// The status of a run whose lines ended so.
pub fn status_of(ending: &Ending<Bytes>) -> Status
    ensures status { result ≡ status_of ending.now }
    ensures no_write_fault { is_write_fault result ≡ false }
{
    match ending {
        Ending::Complete => Status::Done,
        Ending::BadLine { .. } => Status::BadLine,
        Ending::ReadFault => Status::ReadFault,
        Ending::TooLong { .. } => Status::TooLong,
        Ending::Ended { .. } => Status::Refused,
    }
}

// Puts words at the end.
fn push_words(out: &mut Vec<u8>, words: &[u8]) -> Result<(), NoMemory>
    ensures { OnOk result (out.new.items ≡ out.old.items ++ words.now) }
{
    out.extend_from_slice(words)?;
    Ok(())
}

/// Puts the last line of a run whose lines ended so at the end: none where all were answered, and then it takes no
/// memory.
#[tactic(auto, unfolding(crate::specs::Endings::last_text))]
pub fn push_last(out: &mut Vec<u8>, ending: &Ending<Bytes>) -> Result<(), NoMemory>
    ensures bytes { OnOk result (out.new.items ≡ out.old.items ++ last_text ending.now) }
    ensures memory { OnErr result (last_text ending.now ≢ []) }
{
    match ending {
        Ending::Complete => Ok(()),
        Ending::BadLine { line } => push_bad_line(out, *line),
        Ending::ReadFault => push_words(out, b"read fault\n"),
        Ending::TooLong { line } => push_too_long(out, *line),
        Ending::Ended { cause, .. } => push_refused(out, cause.as_slice()),
    }
}

// Puts the text that is gathered, and a line behind it.
fn put_behind<K: Sink>(sink: &mut K, text: &mut Vec<u8>, line: &[u8]) -> Result<(), SinkRefusal>
    ensures ok { OnOk result (Wrote (K.taken sink.old) (K.taken sink.new) (text.old.items ++ line.now)) }
    ensures err { OnErr result (WroteFront (K.taken sink.old) (K.taken sink.new) (text.old.items ++ line.now)) }
    ensures cause { K.faults sink.new ≡ faults_after (K.faults sink.old) (is_failed result) }
    ensures memory { result ≡ Err SinkRefusal.NoMemory → K.takes_memory ≡ true }
{
    match put_text(sink, text) {
        Ok(()) => sink.put_all(line),
        Err(refusal) => Err(refusal),
    }
}

// Puts the text that is gathered, and behind it the last line of a run whose lines ended so, as one text.
fn put_composed<K: Sink>(
    sink: &mut K,
    text: &mut Vec<u8>,
    ending: &Ending<Bytes>,
) -> Result<(), SinkRefusal>
    ensures ok { OnOk result (Wrote (K.taken sink.old) (K.taken sink.new) (text.old.items ++ last_text ending.now)) }
    ensures err { OnErr result
        (WroteFront (K.taken sink.old) (K.taken sink.new) (text.old.items ++ last_text ending.now)) }
    ensures cause { K.faults sink.new ≡ faults_after (K.faults sink.old) (is_failed result) }
    ensures memory { result ≡ Err SinkRefusal.NoMemory → (K.takes_memory ≡ true) ⊎ (last_text ending.now ≢ []) }
{
    match push_last(text, ending) {
        Ok(()) => put_text(sink, text),
        Err(NoMemory) => Err(SinkRefusal::NoMemory),
    }
}

/// Puts the text that is gathered, and behind it the last line of a run whose lines ended so. That the source failed is
/// put without memory of the run's own, and so is the text where all lines were answered: neither is told as want of
/// memory unless the sink wants some.
#[tactic(auto, unfolding(crate::specs::Endings::last_text))]
pub fn put_last<K: Sink>(
    sink: &mut K,
    text: &mut Vec<u8>,
    ending: &Ending<Bytes>,
) -> Result<(), SinkRefusal>
    ensures ok { OnOk result (Wrote (K.taken sink.old) (K.taken sink.new) (text.old.items ++ last_text ending.now)) }
    ensures err { OnErr result
        (WroteFront (K.taken sink.old) (K.taken sink.new) (text.old.items ++ last_text ending.now)) }
    ensures cause { K.faults sink.new ≡ faults_after (K.faults sink.old) (is_failed result) }
    ensures memory { result ≡ Err SinkRefusal.NoMemory
        → (K.takes_memory ≡ true) ⊎ (is_composed ending.now ≡ true) }
{
    match ending {
        Ending::ReadFault => put_behind(sink, text, b"read fault\n"),
        _ => put_composed(sink, text, ending),
    }
}
