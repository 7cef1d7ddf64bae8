ghost use Rattle.std.specs.Prelude.{◌≡◌, true, false, ◌<◌, ◌≤◌, ◌+◌, ◌++◌, ◌∷◌, [], length, Ok, Some, IfOk, OnOk};
ghost use Rattle.std.specs.Option.{option_and_then, OnSome};
ghost use Rattle.lms_sign.specs.Types.{is_supported, leaf_count};
ghost use Rattle.hss_keys.specs.Keys.{bottom_key};
ghost use Rattle.hss_keys.specs.Entries.{entries_of, entry_in, message_at, message_under, opened_count, used_in};
ghost use Rattle.hss_keys.specs.Form.{entry_may_follow, level_records, may_follow};
ghost use Rattle.hss_keys.specs.Levels.{has_leaf};

use super::entry::{Body, Entry, entry_in};
use super::message::Message;
use super::secret::HssSecret;
use super::seed::HssSeed;
use super::sizes::leaf_count;
use plasma_base::NoMemory;
use std::alloc::Global;
use std::marker::Model;

/// The records of a two-level signer, in memory that there is for some more.
#[derive(Drop)]
pub struct LevelRecords {
    seed: HssSeed,
    records: Vec<Body>,
    // The bottom keys, by top leaf.
    keys: Vec<[u8; 56]>,
    // How many leaves of the last one are bound.
    used: u32,
}

impl Model for LevelRecords {
    ghost use Rattle.std.specs.Prelude.{◌-◌, length};
    ghost use Rattle.hss_keys.specs.Sound.{LevelRecordsState};

    ghost Value = { LevelRecordsState };

    ghost use Rattle.std.specs.Vec.{vec_capacity};
    ghost use Rattle.hss_keys.specs.Sound.{AreSound};

    ghost view = { λ kept. record {
      seed = kept.seed;
      records = kept.records.items;
      spare = vec_capacity kept.records - length kept.records.items;
    } };

    ghost invariant = { λ kept.
        AreSound kept.seed kept.records.items kept.keys.items kept.used (vec_capacity kept.keys) };
}

// The message that a record binds a leaf of this bottom key to.
fn message_under(top_leaf: u32, body: &[u8]) -> Option<Message>
    ensures { result ≡ option_and_then (message_under top_leaf) (entry_in body.now) }
{
    match entry_in(body) {
        Some(
            Entry::Binds {
                top_leaf: other,
                message,
                ..
            },
        ) => {
            if other == top_leaf {
                Some(message)
            } else {
                None
            }
        }
        _ => None,
    }
}

impl LevelRecords {
    /// No records, in memory for the keys of all top leaves.
    pub fn new(alloc: Global, secret: &HssSecret) -> Result<LevelRecords, NoMemory>
        ensures seed { IfOk result (λ kept. kept.seed ≡ secret.now) }
        ensures records { IfOk result (λ kept. kept.records ≡ []) }
    {
        let keys = Vec::with_capacity(alloc, secret.top_leaves() as usize)?;
        Ok(LevelRecords {
            seed: *secret.seed(),
            records: Vec::new(alloc),
            keys,
            used: 0,
        })
    }

    /// What holds of the records of every two-level signer.
    pub fn is_whole(&self)
        ensures are { level_records self.now.seed self.now.records ≡ Ok self.now.records }
        ensures top { is_supported self.now.seed.top ≡ true }
        ensures bottom { is_supported self.now.seed.bottom ≡ true }
        ensures id { length self.now.seed.id ≡ 16 }
    {
        let _ = &self.used;
    }

    /// The number of bottom keys.
    pub fn opened(&self) -> u32
        ensures value { result ≡ opened_count (entries_of self.now.records) }
        ensures within { result ≤ leaf_count self.now.seed.top }
    {
        self.keys.len() as u32
    }

    /// The number of bound leaves of the last bottom key.
    pub fn used(&self) -> u32
        ensures value { result ≡ used_in (entries_of self.now.records) }
        ensures within { result ≤ leaf_count self.now.seed.bottom }
    {
        self.used
    }

    /// The number of leaves of the top key.
    pub fn top_leaves(&self) -> u32
        ensures value { result ≡ leaf_count self.now.seed.top }
        ensures bound { result ≤ 1024 }
    {
        leaf_count(&self.seed.top)
    }

    /// The number of leaves of each bottom key.
    pub fn bottom_leaves(&self) -> u32
        ensures value { result ≡ leaf_count self.now.seed.bottom }
        ensures bound { result ≤ 1024 }
    {
        leaf_count(&self.seed.bottom)
    }

    /// Whether the last bottom key has a leaf that isn't bound.
    pub fn has_leaf(&self) -> bool
        ensures { result ≡ has_leaf self.now.seed (entries_of self.now.records) }
    {
        self.opened() > 0 && self.used() < self.bottom_leaves()
    }

    /// The bottom key of a top leaf that has one.
    pub fn key(&self, top_leaf: u32) -> [u8; 56]
        requires { top_leaf < opened_count (entries_of self.now.records) }
        ensures { result ≡ bottom_key self.now.seed top_leaf }
    {
        self.keys[top_leaf as usize]
    }

    /// The message of a leaf of the bottom key of a top leaf. Both leaves are then there.
    pub fn message(&self, top_leaf: u32, leaf: u32) -> Option<Message>
        ensures value { result ≡ message_at (entries_of self.now.records) top_leaf leaf }
        ensures top { OnSome result (top_leaf < opened_count (entries_of self.now.records)) }
        ensures below { OnSome result (leaf < leaf_count self.now.seed.bottom) }
    {
        let mut before = leaf;
        for body in &self.records {
            let message = match message_under(top_leaf, body.as_slice()) {
                Some(message) => message,
                None => continue,
            };
            if before == 0 {
                return Some(message);
            }
            before -= 1;
        }
        None
    }

    /// Makes room for one more bottom key and a message of each of its leaves, or changes nothing.
    pub fn reserve_level(&mut self) -> Result<(), NoMemory>
        ensures seed { self.new.seed ≡ self.old.seed }
        ensures records { self.new.records ≡ self.old.records }
        ensures kept { self.old.spare ≤ self.new.spare }
        ensures room { OnOk result (1 + leaf_count self.old.seed.bottom ≤ self.new.spare) }
    {
        let more = 1 + self.bottom_leaves() as usize;
        self.records.reserve(more)?;
        Ok(())
    }

    /// Whether an entry may follow. It makes the bottom key that it is to open, where its leaf is the next one.
    pub fn entry_may_follow(
        &self,
        alloc: Global,
        secret: &HssSecret,
        entry: &Entry,
    ) -> Result<bool, NoMemory>
        requires { secret.now ≡ self.now.seed }
        ensures { IfOk result
            (λ may. may ≡ entry_may_follow self.now.seed (entries_of self.now.records) entry.now) }
    {
        match entry {
            Entry::Opens { top_leaf, key } => {
                if *top_leaf != self.opened() || *top_leaf >= self.top_leaves() {
                    return Ok(false);
                }
                let derived = secret.bottom(*top_leaf)?.public();
                Ok(key.as_slice() == derived.as_slice())
            }
            Entry::Binds { top_leaf, leaf, .. } => Ok(
                u64::from(*top_leaf) + 1 == u64::from(self.opened())
                    && *leaf == self.used()
                    && *leaf < self.bottom_leaves(),
            ),
        }
    }

    /// Adds the record of an entry that may follow, for which there is room. It takes no memory.
    pub fn push(&mut self, entry: &Entry, body: Body)
        requires reads { entry_in body ≡ Some entry.now }
        requires follows { entry_may_follow self.old.seed (entries_of self.old.records) entry.now ≡ true }
        requires room { 0 < self.old.spare }
        ensures seed { self.new.seed ≡ self.old.seed }
        ensures records { self.new.records ≡ self.old.records ++ body ∷ [] }
        ensures room { self.old.spare ≤ self.new.spare + 1 }
    {
        match entry {
            Entry::Opens { top_leaf, key } => self.push_key(*top_leaf, key, body),
            Entry::Binds {
                top_leaf,
                leaf,
                message,
            } => self.push_message(*top_leaf, *leaf, message, body),
        }
    }

    // Adds the record that opens a bottom key.
    fn push_key(&mut self, top_leaf: u32, key: &[u8; 56], body: Body)
        requires reads { entry_in body ≡ Some (Entry.Opens top_leaf key.now) }
        requires follows { entry_may_follow self.old.seed (entries_of self.old.records)
            (Entry.Opens top_leaf key.now) ≡ true }
        requires room { 0 < self.old.spare }
        ensures seed { self.new.seed ≡ self.old.seed }
        ensures records { self.new.records ≡ self.old.records ++ body ∷ [] }
        ensures room { self.old.spare ≤ self.new.spare + 1 }
    {
        let _ = top_leaf;
        self.keys.push(*key).unwrap();
        self.used = 0;
        self.records.push(body).unwrap();
    }

    // Adds the record that binds a message.
    fn push_message(&mut self, top_leaf: u32, leaf: u32, message: &Message, body: Body)
        requires reads { entry_in body ≡ Some (Entry.Binds top_leaf leaf message.now) }
        requires follows { entry_may_follow self.old.seed (entries_of self.old.records)
            (Entry.Binds top_leaf leaf message.now) ≡ true }
        requires room { 0 < self.old.spare }
        ensures seed { self.new.seed ≡ self.old.seed }
        ensures records { self.new.records ≡ self.old.records ++ body ∷ [] }
        ensures room { self.old.spare ≤ self.new.spare + 1 }
    {
        let _ = top_leaf;
        let _ = leaf;
        let _ = message;
        self.used += 1;
        self.records.push(body).unwrap();
    }
}
