ghost use Rattle.std.specs.Prelude.{◌≡◌, ◌⊎◌, true};
ghost use Rattle.plasma_base.specs.Causes.{faults_after};
ghost use Rattle.run_endings.specs.Statuses.{is_write_fault};
ghost use Rattle.run_endings.specs.Outputs.{EndsAs};
ghost use Rattle.run_endings.specs.Endings.{status_of, last_text, is_composed, fault_output};

use plasma_base::Bytes;
use plasma_outside::Sink;
use run_endings::{Status, put_last, put_line, status_of};
use streamed_lines::{Ending, put_text};

/// Ends a session that ended so: puts the text that is gathered, and the last line behind it (`put_last`).
pub fn put_ending<K: Sink>(sink: &mut K, text: &mut Vec<u8>, ending: &Ending<Bytes>) -> Status
    ensures ends { EndsAs
        (record { status = status_of ending.now; answers = text.old.items; last = last_text ending.now })
        result (K.taken sink.old) (K.taken sink.new) (Unit {0}) }
    ensures memory { result ≡ Status.NoMemory → (K.takes_memory ≡ true) ⊎ (is_composed ending.now ≡ true) }
    ensures sink_faults { K.faults sink.new ≡ faults_after (K.faults sink.old) (is_write_fault result) }
{
    match put_last(sink, text, ending) {
        Ok(()) => status_of(ending),
        Err(refusal) => Status::of_refusal(refusal),
    }
}

/// Ends a run that met a device fault: puts the text that is gathered, and behind it the last line. It takes no memory
/// of its own, so a disk's fault isn't told as want of memory unless the sink wants some.
pub fn put_fault<K: Sink>(sink: &mut K, text: &mut Vec<u8>) -> Status
    ensures ends { EndsAs (fault_output text.old.items) result (K.taken sink.old) (K.taken sink.new) (Unit {0}) }
    ensures memory { result ≡ Status.NoMemory → K.takes_memory ≡ true }
    ensures sink_faults { K.faults sink.new ≡ faults_after (K.faults sink.old) (is_write_fault result) }
{
    match put_text(sink, text) {
        Ok(()) => put_line(sink, b"device fault\n", Status::DeviceFault),
        Err(refusal) => Status::of_refusal(refusal),
    }
}
