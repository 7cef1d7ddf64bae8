ghost use Rattle.std.specs.Prelude.{◌≡◌, ◌<◌, ◌≤◌, ◌+◌, ◌*◌, max, ℕ, true, false, List, [], ◌∷◌, ◌++◌, length, IfOk, IfErr, OnOk, OnErr};
ghost use Rattle.std.specs.Vec.{vec_capacity};
ghost use Rattle.plasma_base.specs.Causes.{faults_after};
ghost use Rattle.crash_disk.specs.Disk.{content, LeavesOnly};
ghost use Rattle.crash_disk.specs.Calls.{WhereTold, IsStill, passed, Made};
ghost use Rattle.gate_journal.specs.Image.{most, journal_in};
ghost use Rattle.gate_journal.specs.Steps.{frame_of, open_steps};
ghost use Rattle.gate_journal.specs.Make.{IsFresh, Makes};
ghost use Rattle.gate_journal.specs.Journal.{JournalState, Keeps, KeepsWithOrWithout, IsSettled, is_fault, is_device_fault, fresh_journal, RefusesOpen, has_spare, with_spare, Appends};
ghost use Rattle.gate_journal.specs.Inside.{with_room_for};

use super::image::{CLOSED_GATE, Found, MOST_BYTES};
use super::make::make_journal;
use super::opening::load;
use super::refusal::{JournalRefusal, Returned};
use super::steps::write_record;
use crash_disk::{Disk, DiskFailed};
use plasma_base::{Bytes, NoMemory};
use std::alloc::Global;
use std::marker::Model;

/// A journal on a disk. A device fault closes it until its disk is taken back and opened again.
#[derive(Drop)]
pub struct Journal<D: Disk> {
    disk: D,
    // The place of the closed gate behind the records.
    gate: u64,
    closed: bool,
    spare_bodies: u64,
    spare_bytes: usize,
    // What is written behind the gate.
    buffer: Vec<u8>,
}

impl<D: Disk> Model for Journal<D> {
    ghost use Rattle.gate_journal.specs.Journal.{JournalState};

    ghost Value = { JournalState D };

    ghost use Rattle.std.specs.Vec.{vec_capacity};
    ghost use Rattle.gate_journal.specs.Sound.{IsSound};

    ghost view = { λ j. record {
      disk = j.disk;
      closed = j.closed;
      gate = j.gate;
      spare_bodies = j.spare_bodies;
      spare_bytes = j.spare_bytes;
    } };

    ghost invariant = { λ j.
        IsSound (D.told j.disk) (D.left j.disk) j.gate j.closed j.spare_bodies j.spare_bytes (vec_capacity j.buffer) };
}

impl<D: Disk> Journal<D> {
    /// Makes an empty journal on a disk that holds none, and syncs: from then on each image that a crash
    /// may leave is `PGJ1` and a closed gate. Device calls: the length, a read where the disk holds five
    /// bytes, a write and a sync, ended by the first that fails.
    ///
    /// `AlreadyMade` comes where the image spells a journal or has more than five bytes, after the calls
    /// that look. The law `stopped_makings` says what a crash leaves of a making that was stopped.
    pub fn make(disk: &mut D) -> Result<(), JournalRefusal>
        ensures makes { Makes D.told D.plan disk.old result disk.new }
        ensures fresh { OnOk result (WhereTold (D.told disk.new) IsFresh) }
        ensures cause { D.faults disk.new ≡ faults_after (D.faults disk.old) (is_fault result) }
    {
        make_journal(disk)
    }

    /// Opens the journal of a disk, and gives its records in order. From then on each image that a crash
    /// may leave keeps them. Device calls: a sync, the length and one read of the whole image, ended by
    /// the first that fails or by want of memory; nothing is written.
    ///
    /// `NotJournal` comes where the image spells no records, with the place of the first gate that is
    /// missing, or whose record runs past the end or is too long; 0 where the image doesn't begin with
    /// the mark. A refusal hands the disk back.
    pub fn open(alloc: Global, disk: D) -> Result<(Journal<D>, Vec<Bytes>), Returned<D>>
        ensures records { IfOk result (λ opened.
            WhereTold (D.told disk) (λ before. Keeps opened.1.items (content before))) }
        ensures settled { IfOk result (λ opened.
            WhereTold (D.told opened.0.disk) (λ now. IsSettled now opened.1.items)) }
        ensures journal { IfOk result (λ opened. opened.0 ≡ fresh_journal opened.0.disk opened.1.items) }
        ensures made { IfOk result (λ opened. Made D.told D.plan open_steps 3 passed disk opened.0.disk) }
        ensures cause { IfOk result (λ opened. D.faults opened.0.disk ≡ D.faults disk) }
        ensures refused { IfErr result (λ returned.
            RefusesOpen journal_in D.told D.plan disk returned.why returned.disk) }
        ensures refused_cause { IfErr result (λ returned.
            D.faults returned.disk ≡ faults_after (D.faults disk) (is_device_fault returned.why)) }
    {
        let mut disk = disk;
        match load(alloc, &mut disk) {
            Ok(found) => {
                let Found { records, gate } = found;
                let journal = Journal {
                    disk,
                    gate,
                    closed: false,
                    spare_bodies: 0,
                    spare_bytes: 0,
                    buffer: Vec::new(alloc),
                };
                Ok((journal, records))
            }
            Err(why) => Err(Returned { disk, why }),
        }
    }

    /// Whether a device fault closed the journal.
    pub fn is_closed(&self) -> bool
        ensures { result ≡ self.now.closed }
    {
        self.closed
    }

    /// The disk, handed back.
    pub fn take_disk(self) -> D
        ensures { result ≡ self.disk }
    {
        let Journal { disk, .. } = self;
        disk
    }

    /// Makes room, in memory and on the disk, for at least so many further bodies of at most so many
    /// bytes, or answers `NoMemory` and changes nothing. The room that there was stays. It makes no device
    /// call.
    pub fn reserve(&mut self, bodies: u64, bytes: usize) -> Result<(), NoMemory>
        ensures room { OnOk result (self.new ≡ with_spare bodies bytes self.new.disk self.old) }
        ensures still { IsStill D.told D.plan D.faults self.old.disk self.new.disk }
        ensures err { OnErr result (self.new ≡ self.old) }
    {
        let bodies = bodies.max(self.spare_bodies);
        let bytes = bytes.max(self.spare_bytes);
        let room = room_of(bodies, bytes)?;
        self.buffer.reserve(room.frame)?;
        self.disk.make_room(room.calls, room.bytes)?;
        self.spare_bodies = bodies;
        self.spare_bytes = bytes;
        Ok(())
    }

    /// Adds a record. At `Ok` it is in every image that a crash may leave from then on; a crash at a
    /// moment of this call leaves the records with the new one or without. Device calls: a write, a sync,
    /// a write and a sync, ended by the first that fails; a refusal other than `DeviceFault` makes none.
    ///
    /// In this order: `Closed` after a device fault; `RecordTooLong` where the body has more than 2^24
    /// bytes; `NoMemory`, not where there is room for the body; `DeviceFault`, which closes the journal.
    pub fn append(&mut self, body: &[u8]) -> Result<(), JournalRefusal>
        ensures appends { Appends D.told D.plan body.now self.old result self.new }
        ensures cause { D.faults self.new.disk ≡ faults_after (D.faults self.old.disk) (is_fault result) }
        ensures kept { OnOk result (WhereTold (D.told self.old.disk) (λ before.
            (records : List (List ℕ)) → Keeps records (content before)
            → WhereTold (D.told self.new.disk) (λ now. IsSettled now (records ++ body.now ∷ [])))) }
        ensures any_moment { self.old.closed ≡ false → WhereTold (D.told self.old.disk) (λ before.
            (records : List (List ℕ)) → Keeps records (content before)
            → WhereTold (D.told self.new.disk) (λ now. LeavesOnly before now (KeepsWithOrWithout records body.now))) }
    {
        if self.closed {
            return Err(JournalRefusal::Closed);
        }
        if body.len() > MOST_BYTES {
            return Err(JournalRefusal::RecordTooLong {
                length: body.len() as u64,
            });
        }
        self.reserve_one(body.len())?;
        frame(&mut self.buffer, body);
        match write_record(&mut self.disk, self.gate, &self.buffer) {
            Ok(()) => {
                self.gate += 5 + body.len() as u64;
                self.spare_bodies -= 1;
                Ok(())
            }
            Err(DiskFailed) => {
                self.closed = true;
                Err(JournalRefusal::DeviceFault)
            }
        }
    }

    // Whether there is room for a body of so many bytes.
    fn has_spare(&self, bytes: usize) -> bool
        ensures { result ≡ has_spare self.now bytes }
    {
        self.spare_bodies > 0 && bytes <= self.spare_bytes
    }

    // Makes room for a body of so many bytes, where there is none.
    fn reserve_one(&mut self, bytes: usize) -> Result<(), NoMemory>
        ensures room { OnOk result (self.new ≡ with_room_for bytes self.new.disk self.old) }
        ensures full { OnErr result (has_spare self.old bytes ≡ false) }
        ensures still { IsStill D.told D.plan D.faults self.old.disk self.new.disk }
        ensures err { OnErr result (self.new ≡ self.old) }
    {
        if self.has_spare(bytes) {
            return Ok(());
        }
        let Some(bodies) = self.spare_bodies.checked_add(1) else {
            return Err(NoMemory);
        };
        self.reserve(bodies, bytes)
    }
}

// The room that some bodies need.
#[derive(Clone, Copy)]
struct RoomOf {
    frame: usize,
    calls: u64,
    bytes: u64,
}

// The room for so many bodies of at most so many bytes.
fn room_of(bodies: u64, bytes: usize) -> Result<RoomOf, NoMemory>
    ensures { IfOk result (λ room.
        (room.frame ≡ bytes + 5) × (room.calls ≡ bodies * 4) × (room.bytes ≡ bodies * (bytes + 6))) }
{
    let Some(most) = bytes.checked_add(6) else {
        return Err(NoMemory);
    };
    match (bodies.checked_mul(4), bodies.checked_mul(most as u64)) {
        (Some(calls), Some(bytes)) => Ok(RoomOf {
            frame: most - 1,
            calls,
            bytes,
        }),
        _ => Err(NoMemory),
    }
}

// Fills the buffer with what is written behind the gate. There is room for it.
fn frame(buffer: &mut Vec<u8>, body: &[u8])
    requires fits { length body.now + 5 ≤ vec_capacity buffer.old }
    requires short { length body.now ≤ most }
    ensures items { buffer.new.items ≡ frame_of body.now }
    ensures room { vec_capacity buffer.old ≤ vec_capacity buffer.new }
{
    let count = body.len() as u32;
    buffer.clear();
    buffer.extend_from_slice(&count.to_be_bytes()).unwrap();
    buffer.extend_from_slice(body).unwrap();
    buffer.push(CLOSED_GATE).unwrap();
}
