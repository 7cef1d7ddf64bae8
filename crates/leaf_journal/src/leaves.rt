ghost use Rattle.std.specs.Prelude.{◌≡◌, ◌≤◌, ◌++◌, ◌∷◌, ◌+◌, ℕ, [], true, false, length, if◌then◌else◌, is_ok, option_map, Ok, IfOk, IfErr, OnOk, OnErr, None};
ghost use Rattle.std.specs.Option.{OnSome, option_copied};
ghost use Rattle.std.specs.List.{slice_get};
ghost use Rattle.crash_disk.specs.Calls.{WhereTold, IsStill};
ghost use Rattle.gate_journal.specs.Journal.{IsSettled, with_spare};
ghost use Rattle.gate_journal.specs.Life.{Stay};
ghost use Rattle.lms_sign.specs.Tree.{public_key_of};
ghost use Rattle.node_journal.specs.Notes.{Added, AddFailed, Did, Opened, RefusesRole};
ghost use Rattle.leaf_journal.specs.Records.{are_leaf_records, is_marked, leaf_records, leaf_records_in, leaf_records_in_of, leaf_records_of, may_follow, MayBind, MessagesPass, messages_of};
ghost use Rattle.leaf_journal.specs.Leaves.{leaves_of, leaf_effect, marker_effect, bind_stop, migrate_stop};
ghost use Rattle.leaf_journal.specs.Sound.{IsFormRefusal};

use super::bound::Bound;
use super::kind::{EveryMessage, MessageKind};
use super::reading::read_records;
use super::records::{LeafRecords, MARKER};
use super::refusal::{BindRefusal, MigrateRefusal};
use super::short::ShortBytes;
use crash_disk::{Disk, DiskFailed};
use gate_journal::{Journal, JournalRefusal, Returned};
use lms_sign::SecretKey;
use plasma_base::Bytes;
use std::alloc::Global;
use std::marker::Model;

/// The leaves of a key, and the messages that they are bound to, in a journal on a disk. Before its marker
/// record `PGL2` each record is a message of 116 bytes, behind it each is the leaf's number in four bytes
/// and a message of 1 to 128 bytes. A device fault closes it until its disk is taken back and opened again.
#[derive(Drop)]
pub struct Leaves<D: Disk> {
    journal: Journal<D>,
    key: [u8; 56],
    records: LeafRecords,
}

impl<D: Disk> Model for Leaves<D> {
    ghost use Rattle.leaf_journal.specs.Leaves.{LeavesState};

    ghost Value = { LeavesState D };

    ghost use Rattle.leaf_journal.specs.Sound.{IsSound};

    ghost view = { λ l. record {
      notes = record { disk = l.journal.disk; closed = l.journal.closed; records = l.records.records };
      key = l.key;
    } };

    ghost invariant = { λ l. IsSound (D.told l.journal.disk) l.journal l.key l.records };
}

// The records of a journal as those of leaves whose messages are of a kind, and room in it for those of the
// other leaves and the marker.
fn prepare<K: MessageKind, D: Disk>(
    journal: &mut Journal<D>,
    none: LeafRecords,
    bodies: &[Bytes],
) -> Result<LeafRecords, JournalRefusal>
    requires { none.records ≡ [] }
    ensures records { IfOk result (λ kept. leaf_records_of K.is_message none.leaves bodies.now ≡ Ok kept.records) }
    ensures leaves { IfOk result (λ kept. kept.leaves ≡ none.leaves) }
    ensures room { IfOk result (λ kept. (others : ℕ) × (others + length kept.records ≡ kept.leaves + 1)
        × (journal.new ≡ with_spare others 132 journal.new.disk journal.old)) }
    ensures still { IsStill D.told D.plan D.faults journal.old.disk journal.new.disk }
    ensures refused { IfErr result (IsFormRefusal K.is_message none.leaves bodies.now) }
{
    let kept = match read_records::<K>(none, bodies) {
        Ok(kept) => kept,
        Err(place) => return Err(JournalRefusal::NotJournal { place }),
    };
    journal.reserve(kept.others(), 132)?;
    Ok(kept)
}

impl<D: Disk> Leaves<D> {
    /// Opens the journal of a key's leaves, and takes the memory for all of them and the marker. At `Ok`
    /// each image that a crash may leave keeps the messages at their leaves, and so it stays
    /// (`bound_messages_stay`). Device calls: those of `Journal::open`.
    ///
    /// `NotJournal` comes where the image spells no records, as `Journal::open` says, and else where a
    /// record breaks the form, with the place of the gate of the first one: before the marker one that
    /// neither has 116 bytes nor is the marker; behind it one that hasn't 5 to 132 bytes, or whose number
    /// isn't its place among the messages; and a message past the number of leaves. A refusal hands the
    /// disk back.
    pub fn open(alloc: Global, disk: D, key: &SecretKey) -> Result<Leaves<D>, Returned<D>>
        ensures opened { IfOk result (λ opened. Opened D.told D.plan D.faults
            (leaf_records_in (leaves_of (public_key_of key.now))) disk opened.notes) }
        ensures key { IfOk result (λ opened. opened.key ≡ public_key_of key.now) }
        ensures refused { IfErr result (λ returned. RefusesRole D.told D.plan D.faults
            (leaf_records_in (leaves_of (public_key_of key.now))) disk returned.why returned.disk) }
    {
        Leaves::open_of::<EveryMessage>(alloc, disk, key)
    }

    /// Opens the journal of a key's leaves, whose messages have to be of a kind, as `open` does. At `Ok`
    /// each message is of the kind.
    ///
    /// `NotJournal` comes where the image spells no records, as `Journal::open` says, and else where a
    /// record breaks the form, as `open` says, or binds a message that isn't of the kind, with the place of
    /// the gate of the first one that does either. A refusal hands the disk back.
    pub fn open_of<K: MessageKind>(
        alloc: Global,
        disk: D,
        key: &SecretKey,
    ) -> Result<Leaves<D>, Returned<D>>
        ensures opened { IfOk result (λ opened. Opened D.told D.plan D.faults
            (leaf_records_in_of K.is_message (leaves_of (public_key_of key.now))) disk opened.notes) }
        ensures key { IfOk result (λ opened. opened.key ≡ public_key_of key.now) }
        ensures kind { IfOk result (λ opened. MessagesPass K.is_message opened.notes.records) }
        ensures refused { IfErr result (λ returned. RefusesRole D.told D.plan D.faults
            (leaf_records_in_of K.is_message (leaves_of (public_key_of key.now))) disk returned.why returned.disk) }
    {
        let Ok(none) = LeafRecords::new(alloc, key.leaves()) else {
            let why = JournalRefusal::NoMemory;
            return Err(Returned { disk, why });
        };
        let (mut journal, bodies) = match Journal::open(alloc, disk) {
            Ok(opened) => opened,
            Err(returned) => return Err(returned),
        };
        match prepare::<K, D>(&mut journal, none, &bodies) {
            Ok(records) => Ok(Leaves {
                journal,
                key: key.public(),
                records,
            }),
            Err(why) => Err(Returned {
                disk: journal.take_disk(),
                why,
            }),
        }
    }

    /// What holds of all leaves: their records have the form, an open journal is settled with them, and each
    /// image that a crash may leave continues them, also where a fault closed the journal.
    pub fn is_whole(&self)
        ensures are { leaf_records (leaves_of self.now.key) self.now.notes.records ≡ Ok self.now.notes.records }
        ensures settled { self.now.notes.closed ≡ false →
            WhereTold (D.told self.now.notes.disk) (λ now. IsSettled now self.now.notes.records) }
        ensures stay { WhereTold (D.told self.now.notes.disk)
            (Stay (are_leaf_records (leaves_of self.now.key)) self.now.notes.records) }
    {
        let _ = &self.key;
    }

    /// Whether a device fault closed the journal.
    pub fn is_closed(&self) -> bool
        ensures { result ≡ self.now.notes.closed }
    {
        self.journal.is_closed()
    }

    /// Whether the marker is there.
    pub fn marked(&self) -> bool
        ensures { result ≡ is_marked self.now.notes.records }
    {
        self.records.is_marked()
    }

    /// Binds the next leaf to a message of 116 bytes or, where the marker is there, of 1 to 128. At `Ok`
    /// each image that a crash may leave keeps the message at this leaf, and so it stays
    /// (`bound_messages_stay`); `stopped_binds` says what a crash leaves of a bind that was stopped. Device
    /// calls: those of `Journal::append`, and none where `KeySpent` or `Closed` is answered. It takes no
    /// memory.
    ///
    /// In this order: `Closed` after a device fault; `KeySpent` where every leaf is bound;
    /// `DeviceFault`, which closes the journal.
    pub fn bind(&mut self, message: &[u8]) -> Result<Bound, BindRefusal>
        requires { MayBind self.old.notes.records message.now }
        ensures answer { bind_stop result ≡ None
            → result ≡ (leaf_effect self.old.key self.old.notes.records message.now).answer }
        ensures did { Did D.told D.plan D.faults
            (leaf_effect self.old.key self.old.notes.records message.now).note self.old.notes (bind_stop result)
            self.new.notes }
        ensures messages { messages_of self.new.notes.records
            ≡ (if is_ok result then messages_of self.old.notes.records ++ message.now ∷ []
            else messages_of self.old.notes.records) }
        ensures key { self.new.key ≡ self.old.key }
    {
        if self.is_closed() {
            return Err(BindRefusal::Closed);
        }
        let used = self.used();
        if self.records.is_spent() {
            return Err(BindRefusal::KeySpent { used });
        }
        let body = self.records.binding_record(message);
        match self.add(body) {
            Ok(()) => Ok(Bound {
                key: self.key,
                leaf: used,
                message: ShortBytes::of(message),
            }),
            Err(DiskFailed) => Err(BindRefusal::DeviceFault),
        }
    }

    /// Adds the marker, behind which records have the second form. No leaf and no message changes. Device
    /// calls: those of `Journal::append`, and none where `Closed` or `AlreadyNew` is answered. It takes no
    /// memory.
    ///
    /// In this order: `Closed` after a device fault; `AlreadyNew` where the marker is there;
    /// `DeviceFault`, which closes the journal.
    pub fn migrate(&mut self) -> Result<(), MigrateRefusal>
        ensures answer { migrate_stop result ≡ None → result ≡ (marker_effect self.old.notes.records).answer }
        ensures did { Did D.told D.plan D.faults (marker_effect self.old.notes.records).note self.old.notes
            (migrate_stop result) self.new.notes }
        ensures messages { messages_of self.new.notes.records ≡ messages_of self.old.notes.records }
        ensures marked { OnOk result (is_marked self.new.notes.records ≡ true) }
        ensures key { self.new.key ≡ self.old.key }
    {
        if self.is_closed() {
            return Err(MigrateRefusal::Closed);
        }
        if self.marked() {
            return Err(MigrateRefusal::AlreadyNew);
        }
        match self.add(ShortBytes::of(&MARKER)) {
            Ok(()) => Ok(()),
            Err(DiskFailed) => Err(MigrateRefusal::DeviceFault),
        }
    }

    // Appends a record that may follow, of an open journal, and takes it into memory.
    fn add(&mut self, body: ShortBytes) -> Result<(), DiskFailed>
        requires open { self.old.notes.closed ≡ false }
        requires follows { may_follow (leaves_of self.old.key) self.old.notes.records body ≡ true }
        ensures added { OnOk result (Added D.told D.plan D.faults body self.old.notes self.new.notes) }
        ensures failed { OnErr result (AddFailed D.told D.plan D.faults body self.old.notes self.new.notes) }
        ensures key { self.new.key ≡ self.old.key }
    {
        if self.journal.append(body.as_slice()).is_err() {
            return Err(DiskFailed);
        }
        self.records.push(body);
        Ok(())
    }

    /// The bound message of a leaf, ready to be signed again; `None` where that leaf isn't bound. It takes
    /// no memory.
    pub fn again(&self, q: u32) -> Option<Bound>
        ensures value { result ≡ option_map
            (λ message. record { key = self.now.key; leaf = q; message = message })
            (slice_get (messages_of self.now.notes.records) q) }
    {
        let message = self.records.message(q)?;
        Some(Bound {
            key: self.key,
            leaf: q,
            message: ShortBytes::of(message),
        })
    }

    /// The message that a leaf is bound to, lent; `None` where that leaf isn't bound.
    pub fn record(&self, q: u32) -> Option<&[u8]>
        ensures { option_copied result ≡ slice_get (messages_of self.now.notes.records) q }
    {
        self.records.message(q)
    }

    /// The number of bound leaves, which are the first ones.
    pub fn used(&self) -> u32
        ensures value { result ≡ length (messages_of self.now.notes.records) }
        ensures within { result ≤ leaves_of self.now.key }
    {
        self.records.used()
    }

    /// The disk, handed back.
    pub fn take_disk(self) -> D
        ensures { result ≡ self.notes.disk }
    {
        let Leaves { journal, .. } = self;
        journal.take_disk()
    }
}
