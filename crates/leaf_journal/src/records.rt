ghost use Rattle.std.specs.Prelude.{◌≡◌, true, not, ◌||◌, ◌≤◌, ◌+◌, ◌<◌, ◌==◌, ◌++◌, ◌∷◌, [], length, Ok, IfOk};
ghost use Rattle.std.specs.Option.{option_copied, IfSome, OnSome};
ghost use Rattle.std.specs.List.{slice_get};
ghost use Rattle.leaf_journal.specs.Records.{MayBind, binding_record, has_number, is_marked, is_marker, leaf_records, marker, may_follow, may_follow_of, messages_of};

use super::kind::MessageKind;
use super::short::ShortBytes;
use plasma_base::NoMemory;
use std::alloc::Global;
use std::marker::Model;

/// The marker record: behind it stand records of the second form.
pub const MARKER: [u8; 4] = *b"PGL2";

/// The bytes of a message before the marker.
pub const FIRST_LENGTH: usize = 116;

/// The records of a key with so many leaves, in memory that there is for all of them and the marker.
#[derive(Drop)]
pub struct LeafRecords {
    leaves: u32,
    records: Vec<ShortBytes>,
    // The records before the marker, which are all where there is none.
    first: usize,
}

impl Model for LeafRecords {
    ghost use Rattle.leaf_journal.specs.Sound.{LeafRecordsState};

    ghost Value = { LeafRecordsState };

    ghost use Rattle.std.specs.Vec.{vec_capacity};
    ghost use Rattle.leaf_journal.specs.Sound.{AreSound};

    ghost view = { λ kept. record { leaves = kept.leaves; records = kept.records.items } };

    ghost invariant = { λ kept. AreSound kept.leaves kept.records.items kept.first (vec_capacity kept.records) };
}

// Whether a record is the marker.
fn is_marker(body: &[u8]) -> bool
    ensures { result ≡ is_marker body.now }
{
    body == MARKER.as_slice()
}

// Whether a record is of the second form, for this leaf.
fn has_number(q: u32, body: &[u8]) -> bool
    ensures { result ≡ has_number q body.now }
{
    if body.len() < 5 || body.len() > 132 {
        return false;
    }
    &body[..4] == q.to_be_bytes().as_slice()
}

impl LeafRecords {
    /// No records, of a key with at most 1,024 leaves.
    pub fn new(alloc: Global, leaves: u32) -> Result<LeafRecords, NoMemory>
        requires { leaves ≤ 1024 }
        ensures { IfOk result (λ kept. kept ≡ record { leaves = leaves; records = [] }) }
    {
        let records = Vec::with_capacity(alloc, leaves as usize + 1)?;
        Ok(LeafRecords {
            leaves,
            records,
            first: 0,
        })
    }

    /// What holds of the records of every key's leaves.
    pub fn is_whole(&self)
        ensures are { leaf_records self.now.leaves self.now.records ≡ Ok self.now.records }
        ensures few { self.now.leaves ≤ 1024 }
    {
        let _ = &self.first;
    }

    /// How many further records there may be: those of the leaves that aren't bound, and the marker where
    /// it isn't there.
    pub fn others(&self) -> u64
        ensures { result + length self.now.records ≡ self.now.leaves + 1 }
    {
        u64::from(self.leaves) + 1 - self.records.len() as u64
    }

    /// Whether the marker is among the records.
    pub fn is_marked(&self) -> bool
        ensures { result ≡ is_marked self.now.records }
    {
        self.first < self.records.len()
    }

    /// The number of messages.
    pub fn used(&self) -> u32
        ensures value { result ≡ length (messages_of self.now.records) }
        ensures within { result ≤ self.now.leaves }
    {
        let marks = usize::from(self.is_marked());
        (self.records.len() - marks) as u32
    }

    /// Whether every leaf is bound.
    pub fn is_spent(&self) -> bool
        ensures { result ≡ (length (messages_of self.now.records) == self.now.leaves) }
    {
        self.used() == self.leaves
    }

    /// The message of a leaf.
    pub fn message(&self, q: u32) -> Option<&[u8]>
        ensures value { option_copied result ≡ slice_get (messages_of self.now.records) q }
        ensures short { IfSome result (λ message. length message.now ≤ 132) }
        ensures leaf { OnSome result (q < self.now.leaves) }
    {
        let place = q as usize;
        if place < self.first {
            return self.record_at(place);
        }
        match self.record_at(place + 1) {
            Some(record) => Some(&record[usize::min(4, record.len())..]),
            None => None,
        }
    }

    // A record by its place.
    fn record_at(&self, place: usize) -> Option<&[u8]>
        ensures value { option_copied result ≡ slice_get self.now.records place }
        ensures short { IfSome result (λ body. length body.now ≤ 132) }
    {
        let record = self.records.get(place)?;
        Some(record.as_slice())
    }

    /// Whether a record may follow, where messages are of a kind.
    pub fn may_follow<K: MessageKind>(&self, body: &[u8]) -> bool
        ensures value { result ≡ may_follow_of K.is_message self.now.leaves self.now.records body.now }
        ensures form { result ≡ true → may_follow self.now.leaves self.now.records body.now ≡ true }
        ensures short { result ≡ true → length body.now ≤ 132 }
    {
        let q = self.used();
        if self.is_marked() {
            has_number(q, body) && q < self.leaves && K::is_message(&body[4..])
        } else {
            is_marker(body)
                || (body.len() == FIRST_LENGTH && q < self.leaves && K::is_message(body))
        }
    }

    // Whether a record is behind no marker, and isn't the marker.
    fn is_first(&self, body: &[u8]) -> bool
        ensures { result ≡ not (is_marked self.now.records || is_marker body.now) }
    {
        !self.is_marked() && !is_marker(body)
    }

    /// Adds a record that may follow. It takes no memory.
    pub fn push(&mut self, body: ShortBytes)
        requires { may_follow self.old.leaves self.old.records body ≡ true }
        ensures { self.new ≡ record { leaves = self.old.leaves; records = self.old.records ++ body ∷ [] } }
    {
        let is_first = self.is_first(body.as_slice());
        self.first += usize::from(is_first);
        self.records.push(body).unwrap();
    }

    /// The record that binds a message to the next leaf, of which there is one.
    pub fn binding_record(&self, message: &[u8]) -> ShortBytes
        requires form { MayBind self.now.records message.now }
        requires leaf { length (messages_of self.now.records) < self.now.leaves }
        ensures value { result ≡ binding_record self.now.records message.now }
        ensures follows { may_follow self.now.leaves self.now.records result ≡ true }
        ensures message { messages_of (self.now.records ++ result ∷ [])
            ≡ messages_of self.now.records ++ message.now ∷ [] }
    {
        if self.is_marked() {
            ShortBytes::with_number(self.used(), message)
        } else {
            ShortBytes::of(message)
        }
    }
}
