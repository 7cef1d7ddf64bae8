ghost use Rattle.std.specs.Prelude.{◌≡◌, true, length, IfSome, IfOk};
ghost use Rattle.std.specs.List.{prefix_len};
ghost use Rattle.gate_journal.specs.Image.{spelled};
ghost use Rattle.node_journal.specs.Role.{Kinds, front_of};
ghost use Rattle.node_journal.specs.Inside.{IsRoleRefusal};

use gate_journal::JournalRefusal;
use plasma_base::{Bytes, NoMemory};
use std::alloc::Global;

/// The kinds of record that the nodes of a role keep: the first record is the node's identity, and each
/// other one is a note, which may depend on the identity. Both may depend on the role's value, which a node
/// is opened with.
pub trait Role: Drop {
    /// The two tests, as contracts see them.
    ghost kinds: { Self → Kinds };

    /// Whether the body is an identity of the role.
    fn is_identity(&self, body: &[u8]) -> bool
        ensures { result ≡ (kinds self.now).is_identity body.now };

    /// Whether the body is a note of the role behind this identity. The test may take memory.
    fn is_note(&self, alloc: Global, identity: &[u8], body: &[u8]) -> Result<bool, NoMemory>
        requires { (kinds self.now).is_identity identity.now ≡ true }
        ensures { IfOk result (λ is. is ≡ (kinds self.now).is_note identity.now body.now) };
}

// How many notes stand in front that fit the identity.
fn notes_count<R: Role>(
    alloc: Global,
    role: &R,
    identity: &[u8],
    notes: &[Bytes],
) -> Result<usize, NoMemory>
    requires { (R.kinds role.now).is_identity identity.now ≡ true }
    ensures { IfOk result (λ count. count ≡ prefix_len ((R.kinds role.now).is_note identity.now) notes.now) }
{
    for (count, note) in notes.iter().enumerate() {
        if !role.is_note(alloc, identity, note.as_slice())? {
            return Ok(count);
        }
    }
    Ok(notes.len())
}

// The records before the first one that isn't of the role.
#[tactic(auto, using(crate::proofs::Roles::front_within))]
fn front_of<'a, R: Role>(
    alloc: Global,
    role: &R,
    records: &'a [Bytes],
) -> Result<&'a [Bytes], NoMemory>
    ensures { IfOk result (λ front. front.now ≡ front_of (R.kinds role.now) records.now) }
{
    let Some((identity, notes)) = records.split_first() else {
        return Ok(records);
    };
    if !role.is_identity(identity.as_slice()) {
        return Ok(&records[..0]);
    }
    let count = notes_count(alloc, role, identity.as_slice(), notes)?;
    Ok(&records[..count + 1])
}

// The place of the gate behind some records; `None` where it is past the last number.
fn gate_behind(records: &[Bytes]) -> Option<u64>
    ensures { IfSome result (λ place. place ≡ length (spelled records.now)) }
{
    let mut place = 4u64;
    'records: for record in records {
        place = place.checked_add(5)?.checked_add(record.len() as u64)?;
    }
    Some(place)
}

// Why the records aren't those of a role that have this front, where they aren't.
fn front_refusal<R: Role>(role: &R, front: &[Bytes], records: &[Bytes]) -> Option<JournalRefusal>
    requires { front.now ≡ front_of (R.kinds role.now) records.now }
    ensures { IsRoleRefusal (R.kinds role.now) records.now result }
{
    let _ = role;
    if !front.is_empty() && front.len() == records.len() {
        return None;
    }
    match gate_behind(front) {
        Some(place) => Some(JournalRefusal::NotJournal { place }),
        None => Some(JournalRefusal::NoMemory),
    }
}

// Why the records aren't those of a role, where they aren't.
pub fn role_refusal<R: Role>(alloc: Global, role: &R, records: &[Bytes]) -> Option<JournalRefusal>
    ensures { IsRoleRefusal (R.kinds role.now) records.now result }
{
    match front_of(alloc, role, records) {
        Ok(front) => front_refusal(role, front, records),
        Err(_) => Some(JournalRefusal::NoMemory),
    }
}
