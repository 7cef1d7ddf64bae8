ghost use Rattle.std.specs.Prelude.{◌≡◌, ◌≢◌, ◌<◌, ◌≤◌, ◌+◌, ◌++◌, ◌∷◌, [], true, false, length, Some, None, Ok, Err, IfOk, IfErr, OnOk, OnErr};
ghost use Rattle.std.specs.Option.{IfSome};
ghost use Rattle.crash_disk.specs.Calls.{WhereTold, IsStill};
ghost use Rattle.node_journal.specs.Effect.{first_cause};
ghost use Rattle.gate_journal.specs.Journal.{IsSettled, with_spare};
ghost use Rattle.gate_journal.specs.Life.{Stay};
ghost use Rattle.node_journal.specs.Notes.{Did, Opened, RefusesRole, stopped_by};
ghost use Rattle.lms_sign.specs.Types.{leaf_count};
ghost use Rattle.hss_keys.specs.Entries.{entries_of, entry_text, key_at, opened_count, used_in, IsEntry};
ghost use Rattle.hss_keys.specs.Form.{are_level_records, entry_may_follow, level_records, level_records_in};
ghost use Rattle.hss_keys.specs.Levels.{advance_causes, advance_effect, again_answer, bind_effect, bound_of, has_leaf, leaves_left, level_stop, KeepsBound};
ghost use Rattle.hss_keys.specs.Sound.{HasRoom, IsFormRefusal, IsKept};

use super::bound::HssBound;
use super::entry::Entry;
use super::message::Message;
use super::reading::read_records;
use super::records::LevelRecords;
use super::refusal::LevelRefusal;
use super::secret::HssSecret;
use crash_disk::Disk;
use gate_journal::{Journal, JournalRefusal, Returned};
use node_journal::Stop;
use plasma_base::Bytes;
use std::alloc::Global;
use std::marker::Model;

// The most bytes of a record.
const MOST_BYTES: usize = 137;

/// The leaves of both levels of a two-level key, and what they are bound to, in a journal on a disk: the record 01 says
/// which bottom key a top leaf signs, and 02 which message a leaf of the last bottom key signs. A device fault closes
/// it until its disk is taken back and opened again.
#[derive(Drop)]
pub struct Levels<D: Disk> {
    alloc: Global,
    journal: Journal<D>,
    key: [u8; 60],
    records: LevelRecords,
}

impl<D: Disk> Model for Levels<D> {
    ghost use Rattle.hss_keys.specs.Levels.{LevelsState};

    ghost Value = { LevelsState D };

    ghost use Rattle.hss_keys.specs.Sound.{IsSound};

    ghost view = { λ l. record {
      notes = record { disk = l.journal.disk; closed = l.journal.closed; records = l.records.records };
      seed = l.records.seed;
    } };

    ghost invariant = { λ l. IsSound (D.told l.journal.disk) l.journal l.key l.records };
}

// The records of a journal as those of a two-level signer, and room in it for each message that the last bottom key can
// still bind.
fn prepare<D: Disk>(
    alloc: Global,
    journal: &mut Journal<D>,
    secret: &HssSecret,
    bodies: &[Bytes],
) -> Result<LevelRecords, JournalRefusal>
    ensures seed { IfOk result (λ kept. kept.seed ≡ secret.now) }
    ensures records { IfOk result (λ kept. level_records secret.now bodies.now ≡ Ok kept.records) }
    ensures spare { IfOk result (λ kept. leaves_left kept.seed (entries_of kept.records) ≤ kept.spare) }
    ensures room { IfOk result (λ kept.
        journal.new ≡ with_spare (leaf_count kept.seed.bottom) 137 journal.new.disk journal.old) }
    ensures still { IsStill D.told D.plan D.faults journal.old.disk journal.new.disk }
    ensures refused { IfErr result (IsFormRefusal secret.now bodies.now) }
{
    let kept = match read_records(alloc, secret, bodies) {
        Ok(kept) => kept,
        Err(why) => return Err(why),
    };
    journal.reserve(u64::from(kept.bottom_leaves()), MOST_BYTES)?;
    Ok(kept)
}

// Appends the record of an entry that may follow, for which there is room, to an open journal, and takes it into
// memory.
fn append<D: Disk>(
    journal: &mut Journal<D>,
    records: &mut LevelRecords,
    entry: &Entry,
) -> Result<(), Stop>
    requires open { journal.old.closed ≡ false }
    requires kept { IsKept (D.told journal.old.disk) journal.old records.old }
    requires room { HasRoom journal.old records.old 1 }
    requires entry { IsEntry entry.now }
    requires follows { entry_may_follow records.old.seed (entries_of records.old.records) entry.now ≡ true }
    ensures did { Did D.told D.plan D.faults (Some (entry_text entry.now))
        (record { disk = journal.old.disk; closed = journal.old.closed; records = records.old.records })
        (stopped_by result)
        (record { disk = journal.new.disk; closed = journal.new.closed; records = records.new.records }) }
    ensures kept { IsKept (D.told journal.new.disk) journal.new records.new }
    ensures seed { records.new.seed ≡ records.old.seed }
    ensures records { OnOk result (records.new.records ≡ records.old.records ++ entry_text entry.now ∷ []) }
    ensures spare { OnOk result (records.old.spare ≤ records.new.spare + 1) }
    ensures bodies { OnOk result (journal.old.spare_bodies ≤ journal.new.spare_bodies + 1) }
    ensures bytes { OnOk result (journal.old.spare_bytes ≤ journal.new.spare_bytes) }
    ensures closed { OnErr result (journal.new.closed ≡ true) }
    ensures fault { IfErr result (λ stop. stop ≡ Stop.DeviceFault) }
{
    let body = entry.body();
    if journal.append(body.as_slice()).is_err() {
        return Err(Stop::DeviceFault);
    }
    records.push(entry, body);
    Ok(())
}

impl<D: Disk> Levels<D> {
    /// Opens the journal of a two-level key, and takes the memory for every message that the last bottom key can still
    /// bind. From then on each image that a crash may leave keeps the records, and so it stays (`bounds_stay`). Each
    /// bottom key that was opened is made once and compared. Device calls: those of `Journal::open`.
    ///
    /// `NotJournal` comes where the image spells no records, as `Journal::open` says, and else where a record breaks
    /// the form, with the place of the gate of the first one: it spells no entry; it opens a bottom key whose top leaf
    /// isn't the next one or isn't there, or another key than the derived one; it binds a leaf of another bottom key
    /// than the last, or one that isn't the next or isn't there. A refusal hands the disk back.
    pub fn open(alloc: Global, disk: D, secret: &HssSecret) -> Result<Levels<D>, Returned<D>>
        ensures opened { IfOk result (λ opened.
            Opened D.told D.plan D.faults (level_records_in secret.now) disk opened.notes) }
        ensures seed { IfOk result (λ opened. opened.seed ≡ secret.now) }
        ensures refused { IfErr result (λ returned.
            RefusesRole D.told D.plan D.faults (level_records_in secret.now) disk returned.why returned.disk) }
    {
        let (mut journal, bodies) = match Journal::open(alloc, disk) {
            Ok(opened) => opened,
            Err(returned) => return Err(returned),
        };
        match prepare(alloc, &mut journal, secret, &bodies) {
            Ok(records) => Ok(Levels {
                alloc,
                journal,
                key: secret.public(),
                records,
            }),
            Err(why) => Err(Returned {
                disk: journal.take_disk(),
                why,
            }),
        }
    }

    /// What holds of every two-level signer: its records have the form, an open journal is settled with them, and each
    /// image that a crash may leave continues them, also where a fault closed the journal.
    pub fn is_whole(&self)
        ensures are { level_records self.now.seed self.now.notes.records ≡ Ok self.now.notes.records }
        ensures settled { self.now.notes.closed ≡ false →
            WhereTold (D.told self.now.notes.disk) (λ now. IsSettled now self.now.notes.records) }
        ensures stay { WhereTold (D.told self.now.notes.disk) (Stay (are_level_records self.now.seed) self.now.notes.records) }
    {
        let _ = &self.key;
    }

    /// Whether a device fault closed the signer.
    pub fn is_closed(&self) -> bool
        ensures { result ≡ self.now.notes.closed }
    {
        self.journal.is_closed()
    }

    /// The number of bottom keys that were opened, whose top leaves are the first ones.
    pub fn opened(&self) -> u32
        ensures value { result ≡ opened_count (entries_of self.now.notes.records) }
        ensures within { result ≤ leaf_count self.now.seed.top }
    {
        self.records.opened()
    }

    /// The number of bound leaves of the last bottom key, which are the first ones.
    pub fn used(&self) -> u32
        ensures value { result ≡ used_in (entries_of self.now.notes.records) }
        ensures within { result ≤ leaf_count self.now.seed.bottom }
    {
        self.records.used()
    }

    /// Whether the last bottom key has a leaf that isn't bound.
    pub fn has_leaf(&self) -> bool
        ensures { result ≡ has_leaf self.now.seed (entries_of self.now.notes.records) }
    {
        self.records.has_leaf()
    }

    /// Binds the next top leaf to its bottom key, and answers the number of the top leaf. It takes the memory for every
    /// message that the bottom key can bind. The secret has to be that of `open`. At `Ok` each image that a crash may
    /// leave keeps the key at this leaf, and so it stays (`bounds_stay`); `stopped_level_appends` says what a crash
    /// leaves of an advance that was stopped. Device calls: those of `Journal::append`, and none where another refusal
    /// than `DeviceFault` is answered.
    ///
    /// In this order: `Closed` after a device fault; `LevelOpen` where the last bottom key has a leaf left; `KeySpent`
    /// where every top leaf is bound; `NoMemory`; `DeviceFault`, which closes the signer.
    pub fn advance(&mut self, secret: &HssSecret) -> Result<u32, LevelRefusal>
        requires secret { secret.now ≡ self.old.seed }
        ensures answer { level_stop result ≡ None
            → result ≡ (advance_effect self.old.seed self.old.notes.records).answer }
        ensures did { Did D.told D.plan D.faults (advance_effect self.old.seed self.old.notes.records).note
            self.old.notes (level_stop result) self.new.notes }
        ensures seed { self.new.seed ≡ self.old.seed }
        ensures memory { result ≡ Err LevelRefusal.NoMemory
            → first_cause (advance_causes self.old.seed (entries_of self.old.notes.records)) ≡ None }
    {
        if self.is_closed() {
            return Err(LevelRefusal::Closed);
        }
        if self.has_leaf() {
            return Err(LevelRefusal::LevelOpen { used: self.used() });
        }
        let top_leaf = self.opened();
        if top_leaf == secret.top_leaves() {
            return Err(LevelRefusal::KeySpent { used: top_leaf });
        }
        let key = secret.bottom(top_leaf)?.public();
        let entry = Entry::Opens { top_leaf, key };
        match self.open_level(&entry) {
            Ok(()) => Ok(top_leaf),
            Err(Stop::Closed) => Err(LevelRefusal::Closed),
            Err(Stop::NoMemory) => Err(LevelRefusal::NoMemory),
            Err(Stop::DeviceFault) => Err(LevelRefusal::DeviceFault),
        }
    }

    // Takes the memory for one more bottom key and its messages, and appends its entry.
    fn open_level(&mut self, entry: &Entry) -> Result<(), Stop>
        requires open { self.old.notes.closed ≡ false }
        requires entry { IsEntry entry.now }
        requires follows { entry_may_follow self.old.seed (entries_of self.old.notes.records) entry.now ≡ true }
        ensures did { Did D.told D.plan D.faults (Some (entry_text entry.now))
            self.old.notes (stopped_by result) self.new.notes }
        ensures seed { self.new.seed ≡ self.old.seed }
    {
        let leaves = self.records.bottom_leaves();
        self.records.reserve_level()?;
        self.journal.reserve(1 + u64::from(leaves), MOST_BYTES)?;
        append(&mut self.journal, &mut self.records, entry)
    }

    /// Binds the next leaf of the last bottom key to a message of 1 to 128 bytes. At `Ok` each image that a crash may
    /// leave keeps the message at this leaf, and so it stays (`bounds_stay`); `stopped_level_appends` says what a crash
    /// leaves of a bind that was stopped. Device calls: those of `Journal::append`, and none where another refusal than
    /// `DeviceFault` is answered. It takes no memory.
    ///
    /// In this order: `Closed` after a device fault; `LevelSpent` where no bottom key was opened, or the last one has
    /// no leaf left; `DeviceFault`, which closes the signer.
    pub fn bind(&mut self, message: &[u8]) -> Result<HssBound, LevelRefusal>
        requires some { 1 ≤ length message.now }
        requires most { length message.now ≤ 128 }
        ensures answer { level_stop result ≡ None
            → result ≡ (bind_effect self.old.seed self.old.notes.records message.now).answer }
        ensures did { Did D.told D.plan D.faults (bind_effect self.old.seed self.old.notes.records message.now).note
            self.old.notes (level_stop result) self.new.notes }
        ensures seed { self.new.seed ≡ self.old.seed }
        ensures no_memory { result ≢ Err LevelRefusal.NoMemory }
        ensures kept { IfOk result (KeepsBound self.new.notes.records) }
    {
        if self.is_closed() {
            return Err(LevelRefusal::Closed);
        }
        let levels = self.opened();
        if !self.has_leaf() {
            return Err(LevelRefusal::LevelSpent { levels });
        }
        let (top_leaf, leaf) = (levels - 1, self.used());
        match self.bind_leaf(top_leaf, leaf, message) {
            Ok(()) => Ok(self.bound(top_leaf, leaf, Message::of(message))),
            Err(_) => Err(LevelRefusal::DeviceFault),
        }
    }

    // Appends the entry that binds the next leaf, for which there is room.
    fn bind_leaf(&mut self, top_leaf: u32, leaf: u32, message: &[u8]) -> Result<(), Stop>
        requires open { self.old.notes.closed ≡ false }
        requires some { 1 ≤ length message.now }
        requires most { length message.now ≤ 128 }
        requires follows { entry_may_follow self.old.seed (entries_of self.old.notes.records)
            (Entry.Binds top_leaf leaf message.now) ≡ true }
        ensures did { Did D.told D.plan D.faults (Some (entry_text (Entry.Binds top_leaf leaf message.now)))
            self.old.notes (stopped_by result) self.new.notes }
        ensures seed { self.new.seed ≡ self.old.seed }
        ensures fault { IfErr result (λ stop. stop ≡ Stop.DeviceFault) }
    {
        let entry = Entry::Binds {
            top_leaf,
            leaf,
            message: Message::of(message),
        };
        append(&mut self.journal, &mut self.records, &entry)
    }

    // A leaf of an opened bottom key, bound to a message.
    fn bound(&self, top_leaf: u32, leaf: u32, message: Message) -> HssBound
        requires top { top_leaf < opened_count (entries_of self.now.notes.records) }
        requires below { leaf < leaf_count self.now.seed.bottom }
        ensures value { result ≡ bound_of self.now.seed top_leaf leaf message }
        ensures key { key_at (entries_of self.now.notes.records) top_leaf ≡ Some result.bottom }
    {
        self.records.is_whole();
        HssBound {
            key: self.key,
            top_leaf,
            bottom: self.records.key(top_leaf),
            leaf,
            message,
        }
    }

    /// The bound message of leaf q of the bottom key of top leaf j, ready to be signed again; `None` where no such
    /// record is kept. It takes no memory.
    pub fn again(&self, j: u32, q: u32) -> Option<HssBound>
        ensures value { result ≡ again_answer self.now.seed self.now.notes.records j q }
        ensures kept { IfSome result (KeepsBound self.now.notes.records) }
    {
        let message = self.records.message(j, q)?;
        Some(self.bound(j, q, message))
    }

    /// The disk, handed back.
    pub fn take_disk(self) -> D
        ensures { result ≡ self.notes.disk }
    {
        let Levels { journal, .. } = self;
        journal.take_disk()
    }
}
