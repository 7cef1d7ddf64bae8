ghost use Rattle.std.specs.Prelude.{◌≡◌, ◌≤◌, ◌++◌, ◌∷◌, [], true, if◌then◌else◌, Ok, Some, IfOk, IfErr, OnOk};
ghost use Rattle.hss_keys.specs.Entries.{entries_of, entry_in};
ghost use Rattle.hss_keys.specs.Form.{entry_may_follow, level_records, may_follow};
ghost use Rattle.hss_keys.specs.Levels.{leaves_left};
ghost use Rattle.hss_keys.specs.Sound.{IsFormRefusal};

use super::entry::{Body, Entry, entry_in};
use super::records::LevelRecords;
use super::secret::HssSecret;
use gate_journal::JournalRefusal;
use plasma_base::{Bytes, NoMemory};
use std::alloc::Global;

// Adds the record of an entry that may follow, and makes room for the messages of the bottom key that it opens.
fn add(kept: &mut LevelRecords, entry: &Entry, body: Body) -> Result<(), NoMemory>
    requires reads { entry_in body ≡ Some entry.now }
    requires follows { entry_may_follow kept.old.seed (entries_of kept.old.records) entry.now ≡ true }
    requires room { leaves_left kept.old.seed (entries_of kept.old.records) ≤ kept.old.spare }
    ensures seed { kept.new.seed ≡ kept.old.seed }
    ensures records { OnOk result (kept.new.records ≡ kept.old.records ++ body ∷ []) }
    ensures room { OnOk result (leaves_left kept.new.seed (entries_of kept.new.records) ≤ kept.new.spare) }
{
    match entry {
        Entry::Opens { .. } => {
            kept.reserve_level()?;
            kept.push(entry, body);
            Ok(())
        }
        Entry::Binds { .. } => {
            kept.push(entry, body);
            Ok(())
        }
    }
}

// Takes a record in, where it may follow.
fn take_in(
    alloc: Global,
    secret: &HssSecret,
    kept: &mut LevelRecords,
    body: &[u8],
) -> Result<bool, NoMemory>
    requires secret { secret.now ≡ kept.old.seed }
    requires room { leaves_left kept.old.seed (entries_of kept.old.records) ≤ kept.old.spare }
    ensures taken { IfOk result (λ taken. taken ≡ may_follow kept.old.seed kept.old.records body.now) }
    ensures seed { kept.new.seed ≡ kept.old.seed }
    ensures records { IfOk result (λ taken. kept.new.records
        ≡ (if taken then kept.old.records ++ body.now ∷ [] else kept.old.records)) }
    ensures room { IfOk result (λ taken. leaves_left kept.new.seed (entries_of kept.new.records) ≤ kept.new.spare) }
{
    let Some(entry) = entry_in(body) else {
        return Ok(false);
    };
    if !kept.entry_may_follow(alloc, secret, &entry)? {
        return Ok(false);
    }
    add(kept, &entry, Body::of(body))?;
    Ok(true)
}

// The records of a journal as those of a two-level signer, with room for each message that the last bottom key can
// still bind; or the place of the gate of the first that may not follow those before it. Each bottom key is made once.
pub fn read_records(
    alloc: Global,
    secret: &HssSecret,
    bodies: &[Bytes],
) -> Result<LevelRecords, JournalRefusal>
    ensures seed { IfOk result (λ read. read.seed ≡ secret.now) }
    ensures records { IfOk result (λ read. level_records secret.now bodies.now ≡ Ok read.records) }
    ensures room { IfOk result (λ read. leaves_left read.seed (entries_of read.records) ≤ read.spare) }
    ensures refused { IfErr result (IsFormRefusal secret.now bodies.now) }
{
    let mut kept = LevelRecords::new(alloc, secret)?;
    let mut place = 4u64;
    for body in bodies {
        let taken = take_in(alloc, secret, &mut kept, body.as_slice())?;
        if !taken {
            return Err(JournalRefusal::NotJournal { place });
        }
        let Some(next) = place.checked_add(5 + body.len() as u64) else {
            return Err(JournalRefusal::NoMemory);
        };
        place = next;
    }
    Ok(kept)
}
