ghost use Rattle.std.specs.Prelude.{◌≡◌, ◌≤◌, true, false, length, Some, IfOk, IfErr};
ghost use Rattle.crash_disk.specs.Calls.{WhereTold};
ghost use Rattle.gate_journal.specs.Image.{most};
ghost use Rattle.gate_journal.specs.Journal.{IsSettled};
ghost use Rattle.node_journal.specs.Role.{are_of, may_follow, role_in};
ghost use Rattle.node_journal.specs.Notes.{Did, stopped_by, Opened, RefusesRole};
ghost use Rattle.node_journal.specs.Inside.{stop_of};

use super::role::{Role, role_refusal};
use super::stop::Stop;
use crash_disk::Disk;
use gate_journal::{Journal, JournalRefusal, Returned};
use plasma_base::Bytes;
use std::alloc::Global;
use std::marker::Model;

// What a journal's refusal stops a call by. A body that is too long isn't appended.
fn stop_of(why: JournalRefusal) -> Stop
    ensures { result ≡ stop_of why }
{
    match why {
        JournalRefusal::DeviceFault => Stop::DeviceFault,
        JournalRefusal::Closed => Stop::Closed,
        _ => Stop::NoMemory,
    }
}

/// The records of a node, in memory and in a journal on a disk. They are those of the role that the node was
/// opened with: an identity and notes. A device fault closes them until the disk is taken back and opened
/// again.
#[derive(Drop)]
pub struct Notes<D: Disk, R: Role> {
    journal: Journal<D>,
    records: Vec<Bytes>,
    role: R,
}

impl<D: Disk, R: Role> Model for Notes<D, R> {
    ghost use Rattle.node_journal.specs.Notes.{NotesAndRole};

    ghost Value = { NotesAndRole D R };

    ghost use Rattle.node_journal.specs.Inside.{IsSound};

    ghost view = { λ n. record {
      notes = record { disk = n.journal.disk; closed = n.journal.closed; records = n.records.items };
      role = n.role;
    } };

    ghost invariant = { λ n.
        IsSound (R.kinds n.role) (D.told n.journal.disk) n.journal.closed n.journal.gate n.records.items };
}

impl<D: Disk, R: Role> Notes<D, R> {
    /// Opens the journal of a disk and reads its records, which are to be those of this role. From then on
    /// each image that a crash may leave keeps them. Device calls: those of `Journal::open`.
    ///
    /// `NotJournal` comes where the image spells no records, as `Journal::open` says, and else where a
    /// record isn't of the role, with the place of the gate of the first such record; without any record
    /// it is place 4, where the identity is missing. A refusal hands the disk back.
    pub fn open(alloc: Global, disk: D, role: R) -> Result<Notes<D, R>, Returned<D>>
        ensures opened { IfOk result (λ opened.
            Opened D.told D.plan D.faults (role_in (R.kinds role)) disk opened.notes) }
        ensures role { IfOk result (λ opened. opened.role ≡ role) }
        ensures refused { IfErr result (λ returned.
            RefusesRole D.told D.plan D.faults (role_in (R.kinds role)) disk returned.why returned.disk) }
    {
        let (journal, records) = match Journal::open(alloc, disk) {
            Ok(opened) => opened,
            Err(returned) => return Err(returned),
        };
        match role_refusal(alloc, &role, &records) {
            None => Ok(Notes {
                journal,
                records,
                role,
            }),
            Some(why) => Err(Returned {
                disk: journal.take_disk(),
                why,
            }),
        }
    }

    /// Whether a device fault closed the notes.
    pub fn is_closed(&self) -> bool
        ensures { result ≡ self.now.notes.closed }
    {
        self.journal.is_closed()
    }

    /// The records, lent.
    pub fn records(&self) -> &[Bytes]
        ensures { result.now ≡ self.now.notes.records }
    {
        &self.records
    }

    /// What holds of all notes: the records are of the role, and while no fault closed the notes each
    /// image that a crash may leave keeps the records. It does nothing.
    pub fn is_whole(&self)
        ensures role { are_of (R.kinds self.now.role) self.now.notes.records ≡ true }
        ensures settled { self.now.notes.closed ≡ false
            → WhereTold (D.told self.now.notes.disk) (λ now. IsSettled now self.now.notes.records) }
    {
        let _ = &self.records;
    }

    /// Adds a note of the role. At `Ok` it is in every image that a crash may leave from then on; a crash
    /// at a moment of this call leaves the records with the new one or without. Device calls: those of
    /// `Journal::append`.
    ///
    /// In this order: `Closed` after a device fault; `NoMemory`; `DeviceFault`, which closes the notes.
    pub fn add(&mut self, body: Bytes) -> Result<(), Stop>
        requires fits { length body ≤ most }
        requires kind { may_follow (R.kinds self.old.role) self.old.notes.records body ≡ true }
        ensures did { Did D.told D.plan D.faults (Some body) self.old.notes (stopped_by result) self.new.notes }
        ensures role { self.new.role ≡ self.old.role }
    {
        if self.journal.is_closed() {
            return Err(Stop::Closed);
        }
        self.records.reserve(1)?;
        match self.journal.append(body.as_slice()) {
            Ok(()) => {
                self.records.push(body).unwrap();
                Ok(())
            }
            Err(why) => Err(stop_of(why)),
        }
    }

    /// The disk, handed back.
    pub fn take_disk(self) -> D
        ensures { result ≡ self.notes.disk }
    {
        let Notes { journal, .. } = self;
        journal.take_disk()
    }
}
