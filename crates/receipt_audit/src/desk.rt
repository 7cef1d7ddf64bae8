ghost use Rattle.std.specs.Prelude.{◌≡◌, false, length, Ok, IfOk, IfErr, None};
ghost use Rattle.crash_disk.specs.Calls.{WhereTold};
ghost use Rattle.lms_sign.specs.Tree.{public_key_of};
ghost use Rattle.gate_journal.specs.Journal.{IsSettled};
ghost use Rattle.node_journal.specs.Notes.{Did, Opened, RefusesRole};
ghost use Rattle.leaf_journal.specs.Records.{is_marked, leaf_records_in_of, messages_of, MessagesPass};
ghost use Rattle.leaf_journal.specs.Leaves.{leaves_of, marker_effect, migrate_stop};
ghost use Rattle.receipt_audit.specs.Promises.{is_promise};

use super::promise::PromiseKind;
use crash_disk::Disk;
use gate_journal::Returned;
use leaf_journal::{Leaves, MigrateRefusal};
use lms_sign::SecretKey;
use std::alloc::Global;
use std::marker::Model;

/// The leaves of an operator's key over a disk, each of which is bound to at most one promise. A device fault
/// closes it until its disk is taken back and opened again.
#[derive(Drop)]
pub struct Desk<D: Disk> {
    pub(crate) alloc: Global,
    pub(crate) leaves: Leaves<D>,
}

impl<D: Disk> Model for Desk<D> {
    ghost use Rattle.leaf_journal.specs.Leaves.{LeavesState};
    ghost use Rattle.leaf_journal.specs.Records.{MessagesPass};
    ghost use Rattle.receipt_audit.specs.Promises.{is_promise};

    ghost Value = { LeavesState D };

    ghost view = { λ desk. desk.leaves };

    ghost invariant = { λ desk. MessagesPass is_promise desk.leaves.notes.records };
}

impl<D: Disk> Desk<D> {
    /// Opens the desk of a disk, which is the journal of the key's leaves. Device calls: those of
    /// `Journal::open`.
    ///
    /// `NotJournal` comes where the image isn't that of leaves of the key that bind promises, as
    /// `Leaves::open_of` says. A refusal hands the disk back.
    pub fn open(alloc: Global, disk: D, key: &SecretKey) -> Result<Desk<D>, Returned<D>>
        ensures opened { IfOk result (λ opened. Opened D.told D.plan D.faults
            (leaf_records_in_of is_promise (leaves_of (public_key_of key.now))) disk opened.notes) }
        ensures key { IfOk result (λ opened. opened.key ≡ public_key_of key.now) }
        ensures refused { IfErr result (λ returned. RefusesRole D.told D.plan D.faults
            (leaf_records_in_of is_promise (leaves_of (public_key_of key.now))) disk returned.why returned.disk) }
    {
        match Leaves::open_of::<PromiseKind>(alloc, disk, key) {
            Ok(leaves) => Ok(Desk { alloc, leaves }),
            Err(returned) => Err(returned),
        }
    }

    /// What holds of every desk: each of its messages is a promise, and while no fault closed it each image
    /// that a crash may leave keeps its records. It does nothing.
    pub fn is_whole(&self)
        ensures promises { MessagesPass is_promise self.now.notes.records }
        ensures settled { self.now.notes.closed ≡ false
            → WhereTold (D.told self.now.notes.disk) (λ now. IsSettled now self.now.notes.records) }
    {
        self.leaves.is_whole();
    }

    /// Whether a device fault closed it.
    pub fn is_closed(&self) -> bool
        ensures { result ≡ self.now.notes.closed }
    {
        self.leaves.is_closed()
    }

    /// Whether its journal has the marker, without which it issues nothing.
    pub fn marked(&self) -> bool
        ensures { result ≡ is_marked self.now.notes.records }
    {
        self.leaves.marked()
    }

    /// The number of bound leaves, which are the first ones.
    pub fn used(&self) -> u32
        ensures { result ≡ length (messages_of self.now.notes.records) }
    {
        self.leaves.used()
    }

    /// Adds the marker, behind which records are those of promises. No leaf and no promise changes. Device
    /// calls: those of `Journal::append`, and none where `Closed` or `AlreadyNew` is answered. It takes no
    /// memory.
    ///
    /// In this order: `Closed` after a device fault; `AlreadyNew` where the marker is there; `DeviceFault`,
    /// which closes the desk.
    pub fn migrate(&mut self) -> Result<(), MigrateRefusal>
        ensures answer { migrate_stop result ≡ None → result ≡ (marker_effect self.old.notes.records).answer }
        ensures did { Did D.told D.plan D.faults (marker_effect self.old.notes.records).note self.old.notes (migrate_stop result)
            self.new.notes }
        ensures key { self.new.key ≡ self.old.key }
    {
        self.leaves.migrate()
    }

    /// The disk, handed back.
    pub fn take_disk(self) -> D
        ensures { result ≡ self.notes.disk }
    {
        let Desk { leaves, .. } = self;
        leaves.take_disk()
    }
}
