ghost use Rattle.std.specs.Prelude.{◌≡◌, ◌≢◌, true, OnOk};
ghost use Rattle.plasma_base.specs.Causes.{faults_after};
ghost use Rattle.gate_journal.specs.declared.refusal.JournalRefusal.{JournalRefusal};
ghost use Rattle.run_endings.specs.Statuses.{is_write_fault};
ghost use Rattle.run_endings.specs.Outputs.{EndsAs};
ghost use Rattle.node_runs.specs.Endings.{refused_output};

use gate_journal::JournalRefusal;
use plasma_outside::Sink;
use run_endings::{Status, push_not_journal, put_line};
use std::alloc::Global;

// Puts that a disk keeps no records of the role, with the place of the first gate that is wrong.
fn put_not_journal<K: Sink>(alloc: Global, sink: &mut K, place: u64) -> Status
    ensures ends { EndsAs (refused_output (JournalRefusal.NotJournal place)) result
        (K.taken sink.old) (K.taken sink.new) ⊥ }
    ensures no_read_fault { result ≢ Status.ReadFault }
    ensures sink_faults { K.faults sink.new ≡ faults_after (K.faults sink.old) (is_write_fault result) }
{
    let mut text = Vec::new(alloc);
    match push_not_journal(&mut text, place) {
        Ok(()) => put_line(sink, &text, Status::NotJournal),
        Err(_) => Status::NoMemory,
    }
}

/// Ends a run whose opening was refused for this, and says why; for want of memory it says nothing. An opening is never
/// refused for another cause than these three.
pub fn put_opening_refusal<K: Sink>(alloc: Global, sink: &mut K, why: JournalRefusal) -> Status
    ensures ends { EndsAs (refused_output why) result (K.taken sink.old) (K.taken sink.new) ⊥ }
    ensures memory { why ≡ JournalRefusal.DeviceFault → result ≡ Status.NoMemory → K.takes_memory ≡ true }
    ensures no_read_fault { result ≢ Status.ReadFault }
    ensures sink_faults { K.faults sink.new ≡ faults_after (K.faults sink.old) (is_write_fault result) }
{
    match why {
        JournalRefusal::NotJournal { place } => put_not_journal(alloc, sink, place),
        JournalRefusal::DeviceFault => put_line(sink, b"device fault\n", Status::DeviceFault),
        _ => Status::NoMemory,
    }
}
