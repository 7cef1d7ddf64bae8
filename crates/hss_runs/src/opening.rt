ghost use Rattle.std.specs.Prelude.{◌≡◌, true, IfOk, IfErr};
ghost use Rattle.node_journal.specs.Role.{are_of};
ghost use Rattle.node_journal.specs.Notes.{Opened};
ghost use Rattle.hss_keys.specs.Form.{level_records_in};
ghost use Rattle.hss_runs.specs.Identity.{seed_of, signer_kinds};
ghost use Rattle.hss_runs.specs.Runs.{OpensSigner, RefusesLeaves, RefusesSigner};

use super::identity::{secret_of, seed_in};
use super::role::SignerRole;
use crash_disk::Disk;
use gate_journal::{JournalRefusal, Returned};
use hss_keys::{HssSecret, Levels};
use node_journal::Notes;
use plasma_base::{Bytes, NoMemory};
use std::alloc::Global;

/// A signer whose disks were opened: its notes, its keys, and the leaves of both levels.
#[derive(Drop)]
pub struct Signer<D: Disk> {
    pub notes: Notes<D, SignerRole>,
    pub secret: HssSecret,
    pub levels: Levels<D>,
}

/// The two disks of a signer that wasn't opened, and why.
#[derive(Drop)]
pub struct ReturnedBoth<D> {
    pub notes: D,
    pub leaves: D,
    pub why: JournalRefusal,
}

// The keys of a signer with these records.
fn secret_in(alloc: Global, records: &[Bytes]) -> Result<HssSecret, NoMemory>
    requires { are_of signer_kinds records.now ≡ true }
    ensures { IfOk result (λ secret. secret ≡ seed_of records.now) }
{
    let Some(identity) = records.first() else {
        unreachable!();
    };
    let Some(seed) = seed_in(identity.as_slice()) else {
        unreachable!();
    };
    secret_of(alloc, seed)
}

// Opens the leaves behind notes that were opened.
fn open_behind<D: Disk>(
    alloc: Global,
    notes: Notes<D, SignerRole>,
    leaves: D,
) -> Result<Signer<D>, ReturnedBoth<D>>
    ensures notes { IfOk result (λ signer. signer.notes ≡ notes) }
    ensures secret { IfOk result (λ signer. signer.secret ≡ seed_of notes.notes.records) }
    ensures levels { IfOk result (λ signer. signer.levels.seed ≡ seed_of notes.notes.records) }
    ensures opened { IfOk result (λ signer. Opened D.told D.plan D.faults
        (level_records_in (seed_of notes.notes.records)) leaves signer.levels.notes) }
    ensures refused { IfErr result (λ returned. RefusesLeaves D.told D.plan D.faults
        notes.notes leaves returned.why returned.notes returned.leaves) }
{
    notes.is_whole();
    let secret = match secret_in(alloc, notes.records()) {
        Ok(secret) => secret,
        Err(NoMemory) => {
            return Err(ReturnedBoth {
                notes: notes.take_disk(),
                leaves,
                why: JournalRefusal::NoMemory,
            });
        }
    };
    match Levels::open(alloc, leaves, &secret) {
        Ok(levels) => Ok(Signer {
            notes,
            secret,
            levels,
        }),
        Err(returned) => {
            let Returned { disk, why } = returned;
            Err(ReturnedBoth {
                notes: notes.take_disk(),
                leaves: disk,
                why,
            })
        }
    }
}

/// Opens the signer of two disks: its notes, and then the leaves of the key whose seed the notes have. From then on
/// each image that a crash may leave keeps their records. Device calls: those of `Journal::open` on each disk.
///
/// `NotJournal` comes where the notes' image spells no records of a signer, with the place of the gate of the first one
/// that isn't; without any record it is place 4. Else where the leaves' image isn't that of the key, as `Levels::open`
/// says. A refusal hands the disks back; where the notes are refused no call is made on the leaves' disk.
pub fn open_signer<D: Disk>(
    alloc: Global,
    notes: D,
    leaves: D,
) -> Result<Signer<D>, ReturnedBoth<D>>
    ensures opened { IfOk result (λ signer.
        OpensSigner D.told D.plan D.faults notes leaves signer.notes.notes signer.levels.notes) }
    ensures secret { IfOk result (λ signer. signer.secret ≡ seed_of signer.notes.notes.records) }
    ensures levels { IfOk result (λ signer. signer.levels.seed ≡ seed_of signer.notes.notes.records) }
    ensures refused { IfErr result (λ returned. RefusesSigner D.told D.plan D.faults
        notes leaves returned.why returned.notes returned.leaves) }
{
    match Notes::open(alloc, notes, SignerRole) {
        Ok(notes) => open_behind(alloc, notes, leaves),
        Err(returned) => {
            let Returned { disk, why } = returned;
            Err(ReturnedBoth {
                notes: disk,
                leaves,
                why,
            })
        }
    }
}
