ghost use Rattle.std.specs.Prelude.{◌≡◌, true, false, Option, List, ℕ};
ghost use Rattle.plasma_base.specs.Causes.{faults_after};
ghost use Rattle.streamed_lines.specs.Outside.{ReadsToFault, ReadsToEnd};
ghost use Rattle.run_endings.specs.Statuses.{is_write_fault, ReadsBy};
ghost use Rattle.run_endings.specs.Faults.{Counts};
ghost use Rattle.node_runs.specs.Runs.{RunsWatcher};
ghost use Rattle.node_runs.specs.Prompt.{WatcherPromptly};

use super::opening::put_opening_refusal;
use super::session::run_session;
use crash_disk::Disk;
use gate_journal::Returned;
use node_roles::WatcherRun;
use plasma_base::Hash32;
use plasma_outside::{Sink, Source};
use run_endings::Status;
use std::alloc::Global;
use watcher_node::WatcherNode;

/// Runs the watcher of a disk: opens it, answers the lines of the source into the sink, and hands the disk back beside
/// the run's status.
///
/// The lines are a log of the root contract, a line `--`, and behind it commands. Each command is answered by its rules
/// over that log and the watcher's records, before more is taken. A refused command ends the run, as does a log of
/// another chain than the watcher's; so do a line that may not stand there, one past a limit, a missing `--`, and each
/// fault.
#[tactic(auto, unfolding(crate::specs::Runs::RunsWatcher))]
pub fn run_watcher<D: Disk, H: Hash32 + Copy, S: Source, K: Sink>(
    alloc: Global,
    h: H,
    source: &mut S,
    sink: &mut K,
    notes: D,
) -> (D, Status)
    ensures runs { RunsWatcher D.told D.plan D.faults (H.digest_of h) notes result.0
        (record {
          left = S.left source.old;
          later = S.left source.new;
          taken = K.taken sink.old;
          after = K.taken sink.new;
        })
        (ReadsToFault (S.faults source.old) (S.faults source.new) (S.failed_last source.new) true) result.1 }
    ensures memory { K.takes_memory ≡ false → result.1 ≡ Status.NoMemory
        → Counts D.faults notes result.0 false }
    ensures source_memory { K.takes_memory ≡ false → result.1 ≡ Status.NoMemory
        → ReadsToFault (S.faults source.old) (S.faults source.new) (S.failed_last source.new) false }
    ensures prompt { WatcherPromptly
        (record {
          left = S.left source.old;
          later = S.left source.new;
          taken = K.taken sink.old;
          after = K.taken sink.new;
        })
        (S.failed_last source.new) D.told D.plan D.faults (H.digest_of h) notes }
    ensures source_faults { ReadsBy result.1
        (ReadsToFault (S.faults source.old) (S.faults source.new) (S.failed_last source.new)) }
    ensures source_end { ReadsToEnd (S.ends source.old) (S.ends source.new) }
    ensures sink_faults { K.faults sink.new ≡ faults_after (K.faults sink.old) (is_write_fault result.1) }
{
    match WatcherNode::open_with(alloc, notes, h) {
        Ok(node) => {
            let (run, status) = run_session(alloc, WatcherRun { node }, source, sink);
            (run.node.take_disk(), status)
        }
        Err(returned) => {
            let Returned { disk, why } = returned;
            let status = put_opening_refusal(alloc, sink, why);
            (disk, status)
        }
    }
}
