ghost use Rattle.std.specs.Prelude.{◌≡◌, ◌++◌, true, false, List, ℕ, IfOk, OnOk};
ghost use Rattle.plasma_base.specs.Causes.{faults_after};
ghost use Rattle.gate_journal.specs.declared.refusal.JournalRefusal.{JournalRefusal};
ghost use Rattle.streamed_lines.specs.Outside.{ReadsToFault, ReadsToEnd};
ghost use Rattle.streamed_lines.specs.declared.ending.Ending.{Ending};
ghost use Rattle.run_endings.specs.Statuses.{is_write_fault, ReadsBy};
ghost use Rattle.run_endings.specs.Outputs.{EndsAs};
ghost use Rattle.run_endings.specs.Endings.{status_of, last_text};
ghost use Rattle.safe_runs.specs.Sessions.{LookState};
ghost use Rattle.safe_runs.specs.Inside.{is_complete};
ghost use Rattle.safe_runs.specs.Runs.{Node, Looks, ended_output, refused_output, whole_output};

use super::node::Holder;
use super::saying::Look;
use super::session::LookSession;
use gate_journal::JournalRefusal;
use plasma_base::{Bytes, NoMemory};
use plasma_outside::{Sink, Source};
use run_endings::{Status, push_not_journal, put_last, put_line, status_of};
use std::alloc::Global;
use streamed_lines::{Answerer, Break, Ending, answer_lines, put_text};

/// Reads a log of a node's chain and the lines behind it, and says of each of its coins how it stands.
pub fn run_look<N: Holder, S: Source, K: Sink>(
    alloc: Global,
    node: &N,
    source: &mut S,
    sink: &mut K,
) -> Status
    requires { N.sound node.now }
    ensures looks { (at : Node) → N.is node.now at → Looks at
        (record {
          left = S.left source.old;
          later = S.left source.new;
          taken = K.taken sink.old;
          after = K.taken sink.new;
        })
        (ReadsToFault (S.faults source.old) (S.faults source.new) (S.failed_last source.new) true) result }
    ensures source_faults { (at : Node) → N.is node.now at → ReadsBy result
        (ReadsToFault (S.faults source.old) (S.faults source.new) (S.failed_last source.new)) }
    ensures source_end { ReadsToEnd (S.ends source.old) (S.ends source.new) }
    ensures source_memory { K.takes_memory ≡ false → result ≡ Status.NoMemory
        → ReadsToFault (S.faults source.old) (S.faults source.new) (S.failed_last source.new) false }
    ensures sink_faults { K.faults sink.new ≡ faults_after (K.faults sink.old) (is_write_fault result) }
{
    let mut session = LookSession::new(alloc, node.tag());
    let mut text = Vec::new(alloc);
    match answer_lines(alloc, &mut session, source, sink, &mut text) {
        Ok(ending) => put_ended(alloc, node, session, &ending, sink, &mut text),
        Err(Break::WriteFault) => Status::WriteFault,
        Err(_) => Status::NoMemory,
    }
}

// Puts what is said where lines ended so, behind a text.
fn put_ended<N: Holder, K: Sink>(
    alloc: Global,
    node: &N,
    session: LookSession,
    ending: &Ending<Bytes>,
    sink: &mut K,
    text: &mut Vec<u8>,
) -> Status
    requires { N.sound node.now }
    ensures ends { (at : Node) (run : LookState) → N.is node.now at
        → (ending.now ≡ Ending.Complete → ⟦<LookSession as Answerer>⟧.ran session run)
        → EndsAs (record {
          status = (ended_output at run ending.now).status;
          answers = text.old.items ++ (ended_output at run ending.now).answers;
          last = (ended_output at run ending.now).last;
        }) result (K.taken sink.old) (K.taken sink.new) (Unit {0}) }
    ensures memory { ending.now ≡ Ending.ReadFault → result ≡ Status.NoMemory → K.takes_memory ≡ true }
    ensures sink_faults { K.faults sink.new ≡ faults_after (K.faults sink.old) (is_write_fault result) }
{
    if !is_complete(ending) {
        return put_stopped(sink, text, ending);
    }
    match say_all(alloc, node, session, text) {
        Ok(status) => put_whole(sink, text, status),
        Err(NoMemory) => Status::NoMemory,
    }
}

// Puts the gathered text, and behind it the last line of a run whose lines weren't read to their end. A fault of the
// source isn't told as want of memory unless the sink wants some.
fn put_stopped<K: Sink>(sink: &mut K, text: &mut Vec<u8>, ending: &Ending<Bytes>) -> Status
    ensures ends { EndsAs
        (record { status = status_of ending.now; answers = text.old.items; last = last_text ending.now })
        result (K.taken sink.old) (K.taken sink.new) (Unit {0}) }
    ensures memory { ending.now ≡ Ending.ReadFault → result ≡ Status.NoMemory → K.takes_memory ≡ true }
    ensures sink_faults { K.faults sink.new ≡ faults_after (K.faults sink.old) (is_write_fault result) }
{
    match put_last(sink, text, ending) {
        Ok(()) => status_of(ending),
        Err(refusal) => Status::of_refusal(refusal),
    }
}

// Puts the gathered text, with which a run ends that has this status.
fn put_whole<K: Sink>(sink: &mut K, text: &mut Vec<u8>, status: Status) -> Status
    requires no_write_fault { is_write_fault status ≡ false }
    ensures ends { (answers last : List ℕ) → text.old.items ≡ answers ++ last → EndsAs
        (record { status = status; answers = answers; last = last }) result (K.taken sink.old) (K.taken sink.new)
        (Unit {0}) }
    ensures sink_faults { K.faults sink.new ≡ faults_after (K.faults sink.old) (is_write_fault result) }
{
    match put_text(sink, text) {
        Ok(()) => status,
        Err(refusal) => Status::of_refusal(refusal),
    }
}

// Whether the lines were read to the end of the input.
fn is_complete(ending: &Ending<Bytes>) -> bool
    ensures { result ≡ is_complete ending.now }
{
    match ending {
        Ending::Complete => true,
        Ending::BadLine { .. } => false,
        Ending::ReadFault => false,
        Ending::TooLong { .. } => false,
        Ending::Ended { .. } => false,
    }
}

// Says of each coin of a node how it stands, behind a log that was read to its end.
fn say_all<N: Holder>(
    alloc: Global,
    node: &N,
    session: LookSession,
    text: &mut Vec<u8>,
) -> Result<Status, NoMemory>
    requires { N.sound node.now }
    ensures said { (at : Node) (run : LookState) → N.is node.now at
        → ⟦<LookSession as Answerer>⟧.ran session run
        → OnOk result (text.new.items ≡ text.old.items ++ (whole_output at run).answers) }
    ensures status { (at : Node) (run : LookState) → N.is node.now at
        → ⟦<LookSession as Answerer>⟧.ran session run
        → IfOk result (λ status. (whole_output at run).status ≡ status) }
    ensures no_write_fault { IfOk result (λ status. is_write_fault status ≡ false) }
{
    let (log, told) = session.take();
    let cases = node.cases(alloc, &log, &told.hidden)?;
    let look = Look {
        log: &log,
        account: node.account(),
        clock: told.time(&log),
    };
    if look.say(alloc, &cases, text)? {
        return Ok(Status::Done);
    }
    Ok(Status::Refused)
}

// Puts that a disk keeps no records of the role, with the place of the first gate that is wrong.
fn put_not_journal<K: Sink>(alloc: Global, sink: &mut K, place: u64) -> Status
    ensures ends { EndsAs (refused_output (JournalRefusal.NotJournal place)) result
        (K.taken sink.old) (K.taken sink.new) ⊥ }
    ensures sink_faults { K.faults sink.new ≡ faults_after (K.faults sink.old) (is_write_fault result) }
{
    let mut text = Vec::new(alloc);
    match push_not_journal(&mut text, place) {
        Ok(()) => put_line(sink, &text, Status::NotJournal),
        Err(_) => Status::NoMemory,
    }
}

/// Ends a run whose disks weren't read or spell no node, and says why; for want of memory it says nothing.
pub fn put_refusal<K: Sink>(alloc: Global, sink: &mut K, why: JournalRefusal) -> Status
    ensures ends { EndsAs (refused_output why) result (K.taken sink.old) (K.taken sink.new) ⊥ }
    ensures memory { why ≡ JournalRefusal.DeviceFault → result ≡ Status.NoMemory → K.takes_memory ≡ true }
    ensures sink_faults { K.faults sink.new ≡ faults_after (K.faults sink.old) (is_write_fault result) }
{
    match why {
        JournalRefusal::NotJournal { place } => put_not_journal(alloc, sink, place),
        JournalRefusal::DeviceFault => put_line(sink, b"device fault\n", Status::DeviceFault),
        _ => Status::NoMemory,
    }
}
