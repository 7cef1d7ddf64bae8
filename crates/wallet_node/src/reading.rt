ghost use Rattle.std.specs.Prelude.{◌≡◌, ◌+◌, true, false, length, IfSome, IfOk, IfErr, Ok};
ghost use Rattle.std.specs.Option.{option_map};
ghost use Rattle.node_journal.specs.Role.{are_of};
ghost use Rattle.leaf_journal.specs.Records.{MessagesPass};
ghost use Rattle.node_rules.specs.WalletRecords.{who_is, owner_of, note_in, notes_of, wallet_kinds, is_body, leaves_in, are_bound_notes};
ghost use Rattle.node_rules.specs.WalletOpening.{is_bound_record};
ghost use Rattle.wallet_node.specs.Inside.{change_of, changed_by, is_bound_change, memory_in};
ghost use Rattle.wallet_node.specs.Opening.{IsUnbound};

use super::change::Change;
use super::memory::Memory;
use super::records::read_note;
use super::role::body_of;
use crash_disk::Disk;
use gate_journal::JournalRefusal;
use leaf_journal::Leaves;
use plasma_base::{Bytes, Hash32, NoMemory};
use plasma_tx::Owner;
use std::alloc::Global;
use wallet_core::LeafRecord;

// What the leaves bind, by their numbers.
pub fn read_bodies<D: Disk>(alloc: Global, leaves: &Leaves<D>) -> Result<Vec<LeafRecord>, NoMemory>
    requires { MessagesPass is_body leaves.now.notes.records }
    ensures { IfOk result (λ bodies. bodies.items ≡ leaves_in leaves.now.notes.records) }
{
    let used = leaves.used();
    let mut bodies = Vec::with_capacity(alloc, used as usize)?;
    for q in 0..used {
        let Some(message) = leaves.record(q) else {
            unreachable!();
        };
        let Some(body) = body_of(message) else {
            unreachable!();
        };
        bodies.push(LeafRecord { body })?;
    }
    Ok(bodies)
}

// Whether a change takes back no leaf, or one that binds a body with a last block, of this coin and this tip.
fn is_bound(bodies: &[LeafRecord], change: &Change) -> bool
    ensures { result ≡ is_bound_change bodies.now change.now }
{
    let Change::Reclaims { coin, tip, q } = change else {
        return true;
    };
    match bodies.get(*q as usize) {
        Some(leaf) => {
            leaf.body.coin == *coin && leaf.body.parent == *tip && leaf.body.last.is_some()
        }
        None => false,
    }
}

// Takes over what a note changes; false where it takes back a leaf that may not be, and then nothing changes.
fn take_note<H: Hash32>(
    alloc: Global,
    h: &H,
    tag: &[u8; 32],
    bodies: &[LeafRecord],
    note: &[u8],
    memory: &mut Memory,
) -> Result<bool, NoMemory>
    ensures bound { IfOk result (λ bound. bound ≡ is_bound_record (H.digest_of h.now) tag.now bodies.now note.now) }
    ensures taken { result ≡ Ok true → memory.new
        ≡ changed_by (option_map (change_of tag.now) (note_in (H.digest_of h.now) tag.now note.now)) memory.old }
{
    let Some(change) = read_note(alloc, h, tag, note)? else {
        return Ok(true);
    };
    if !is_bound(bodies, &change) {
        return Ok(false);
    }
    memory.take_over(change)?;
    Ok(true)
}

// What a wallet keeps of its notes, where each that takes a leaf back is of one that may be.
pub fn read_memory<H: Hash32>(
    alloc: Global,
    h: &H,
    me: Owner,
    tag: &[u8; 32],
    bodies: &[LeafRecord],
    records: &[Bytes],
) -> Result<Memory, JournalRefusal>
    requires role { are_of (wallet_kinds (H.digest_of h.now)) records.now ≡ true }
    requires me { me ≡ owner_of (who_is records.now) }
    requires tag { tag.now ≡ (who_is records.now).tag }
    ensures memory { IfOk result (λ memory. memory ≡ memory_in (H.digest_of h.now) records.now) }
    ensures bound { IfOk result (λ memory.
        are_bound_notes bodies.now (notes_of (H.digest_of h.now) records.now) ≡ true) }
    ensures refused { IfErr result (IsUnbound (H.digest_of h.now) bodies.now records.now) }
{
    let Some((identity, notes)) = records.split_first() else {
        unreachable!();
    };
    let mut memory = Memory::new(alloc, me);
    let mut gate = gate_behind(4, identity);
    for note in notes {
        let Some(place) = gate else {
            return Err(JournalRefusal::NoMemory);
        };
        if !take_note(alloc, h, tag, bodies, note.as_slice(), &mut memory)? {
            return Err(JournalRefusal::NotJournal { place });
        }
        gate = gate_behind(place, note);
    }
    Ok(memory)
}

// The gate behind a record at a gate; `None` where its place is past the last number.
fn gate_behind(gate: u64, note: &Bytes) -> Option<u64>
    ensures { IfSome result (λ place. place ≡ gate + 5 + length note.now) }
{
    gate.checked_add(5)?.checked_add(note.len() as u64)
}
