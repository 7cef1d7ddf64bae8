ghost use Rattle.std.specs.Prelude.{◌≡◌, ◌≢◌, false};
ghost use Rattle.plasma_base.specs.Causes.{faults_after};
ghost use Rattle.run_endings.specs.Statuses.{is_write_fault, FaultsBy};
ghost use Rattle.node_runs.specs.Inits.{InitsPair, RefusesPair};
ghost use Rattle.run_endings.specs.Faults.{CountsEither};
ghost use Rattle.hss_runs.specs.Identity.{identity_text};

use super::identity::identity_record;
use crash_disk::Disk;
use node_journal::begin_pair;
use node_runs::put_init_answer;
use plasma_outside::Sink;
use run_endings::Status;
use std::alloc::Global;

/// Begins a two-level signer with this seed on two disks, says so, and hands the notes and the leaves back beside the
/// run's status: `made`, `already made` with the length of an image that is taken, `device fault`, or nothing for want
/// of memory. Where it is made each image that a crash may leave of the notes spells the identity alone, and of the
/// leaves no record. Device calls: those of `node_journal`'s `begin_pair`. A run that was stopped may be repeated.
pub fn init_signer<D: Disk, K: Sink>(
    alloc: Global,
    sink: &mut K,
    notes: D,
    leaves: D,
    seed: [u8; 32],
) -> (D, D, Status)
    ensures inits { InitsPair D.told D.plan D.faults (K.taken sink.old) (K.taken sink.new) result.2
        (identity_text seed) notes leaves result.0 result.1 }
    ensures memory { K.takes_memory ≡ false → result.2 ≡ Status.NoMemory
        → CountsEither D.faults notes leaves result.0 result.1 false }
    ensures unmade { K.takes_memory ≡ false → result.2 ≡ Status.NoMemory → RefusesPair D.told D.plan D.faults
        (identity_text seed) notes leaves result.0 result.1 }
    ensures disk_faults { FaultsBy result.2 (CountsEither D.faults notes leaves result.0 result.1) }
    ensures no_read_fault { result.2 ≢ Status.ReadFault }
    ensures sink_faults { K.faults sink.new ≡ faults_after (K.faults sink.old) (is_write_fault result.2) }
{
    let (notes, leaves, answer) = begin_pair(alloc, notes, leaves, &identity_record(&seed));
    let status = put_init_answer(alloc, sink, answer);
    (notes, leaves, status)
}
