ghost use Rattle.std.specs.Prelude.{◌≡◌, true, false, Option, List, ℕ};
ghost use Rattle.plasma_base.specs.Causes.{faults_after};
ghost use Rattle.streamed_lines.specs.Outside.{ReadsToFault, ReadsToEnd};
ghost use Rattle.run_endings.specs.Statuses.{is_write_fault, ReadsBy};
ghost use Rattle.run_endings.specs.Faults.{CountsEither};
ghost use Rattle.node_runs.specs.Runs.{RunsWallet};
ghost use Rattle.node_runs.specs.Prompt.{WalletPromptly};

use super::opening::put_opening_refusal;
use super::session::run_session;
use crash_disk::Disk;
use node_roles::WalletRun;
use plasma_base::Hash32;
use plasma_outside::{Sink, Source};
use run_endings::Status;
use std::alloc::Global;
use wallet_node::{ReturnedBoth, WalletNode};

/// Runs the wallet of two disks: opens them, the notes before the leaves, answers the lines of the source into the
/// sink, and hands the notes and the leaves back beside the run's status.
///
/// The lines are a log of the root contract, a line `--`, and behind it commands. Each command is answered by its rules
/// over that log and the wallet's records, before more is taken. A refused command ends the run, as does a log of
/// another chain than the wallet's; so do a line that may not stand there, one past a limit, a missing `--`, and each
/// fault.
#[tactic(auto, unfolding(crate::specs::Runs::RunsWallet))]
pub fn run_wallet<D: Disk, H: Hash32 + Copy, S: Source, K: Sink>(
    alloc: Global,
    h: H,
    source: &mut S,
    sink: &mut K,
    notes: D,
    leaves: D,
) -> (D, D, Status)
    ensures runs { RunsWallet D.told D.plan D.faults (H.digest_of h) notes leaves result.0 result.1
        (record {
          left = S.left source.old;
          later = S.left source.new;
          taken = K.taken sink.old;
          after = K.taken sink.new;
        })
        (ReadsToFault (S.faults source.old) (S.faults source.new) (S.failed_last source.new) true) result.2 }
    ensures memory { K.takes_memory ≡ false → result.2 ≡ Status.NoMemory
        → CountsEither D.faults notes leaves result.0 result.1 false }
    ensures source_memory { K.takes_memory ≡ false → result.2 ≡ Status.NoMemory
        → ReadsToFault (S.faults source.old) (S.faults source.new) (S.failed_last source.new) false }
    ensures prompt { WalletPromptly
        (record {
          left = S.left source.old;
          later = S.left source.new;
          taken = K.taken sink.old;
          after = K.taken sink.new;
        })
        (S.failed_last source.new) D.told D.plan D.faults (H.digest_of h) notes leaves }
    ensures source_faults { ReadsBy result.2
        (ReadsToFault (S.faults source.old) (S.faults source.new) (S.failed_last source.new)) }
    ensures source_end { ReadsToEnd (S.ends source.old) (S.ends source.new) }
    ensures sink_faults { K.faults sink.new ≡ faults_after (K.faults sink.old) (is_write_fault result.2) }
{
    match WalletNode::open_with(alloc, notes, leaves, h) {
        Ok(node) => {
            let (run, status) = run_session(alloc, WalletRun { node }, source, sink);
            let (notes, leaves) = run.node.take_disks();
            (notes, leaves, status)
        }
        Err(returned) => {
            let ReturnedBoth { notes, leaves, why } = returned;
            let status = put_opening_refusal(alloc, sink, why);
            (notes, leaves, status)
        }
    }
}
