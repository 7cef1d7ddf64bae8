ghost use Rattle.std.specs.Prelude.{◌≡◌, ◌+◌, ◌^◌, ◌<◌, ◌≤◌, [], length, take, drop, is_err, false, Some, None, IfOk, OnOk, OnErr};
ghost use Rattle.plasma_base.specs.Causes.{faults_after};
ghost use Rattle.crash_disk.specs.Disk.{fresh_history, content, synced_content, asks_length, reads, writes, syncs, HasRoom};
ghost use Rattle.crash_disk.specs.Outcomes.{image_after, HasPattern};
ghost use Rattle.crash_disk.specs.Memory.{plan_of, fails_next, after_call, with_fuse, with_room, after_crash};

use super::copy::overwrite;
use super::disk::{Disk, DiskFailed};
use super::log::CallLog;
use super::mix::mix;
use super::outcome::Outcome;
use super::past::AskedStep;
use super::undo::{keep, undo};
use plasma_base::NoMemory;
use std::alloc::Global;
use std::marker::Model;

/// A disk in memory. It tells its device calls since it was made or last crashed, fails at the calls on
/// a list and once its fuse is spent, as it foretells, and can crash. It holds its bytes once, with what the
/// writes since the last sync replaced.
#[derive(Drop)]
pub struct MemDisk {
    alloc: Global,
    bytes: Vec<u8>,
    // The writes since the last sync that succeeded, by place and length, the oldest first.
    unsynced: Vec<(u64, usize)>,
    // The bytes that they replaced, and where those of each write start.
    replaced: Vec<u8>,
    starts: Vec<usize>,
    log: CallLog,
}

impl Model for MemDisk {
    ghost use Rattle.crash_disk.specs.Memory.{MemState};

    ghost Value = { MemState };

    ghost use Rattle.crash_disk.specs.Inside.{state_of, IsWhole};

    ghost view = { state_of };

    ghost invariant = { IsWhole };
}

impl MemDisk {
    /// A disk that holds these bytes, all of them synced, with no room, no fuse and no fault. Its device
    /// calls are counted from 1: the k-th fails where k is in `fails`.
    pub fn make(alloc: Global, bytes: Vec<u8>, fails: Vec<u64>) -> MemDisk
        ensures { result ≡ record {
          history = fresh_history bytes.items;
          fails = fails.items;
          made = 0;
          fuse = None;
          faults = 0;
          room = record { calls = 0; bytes = 0 };
        } }
    {
        let log = CallLog::make(&bytes, fails);
        MemDisk {
            alloc,
            bytes,
            unsynced: Vec::new(alloc),
            replaced: Vec::new(alloc),
            starts: Vec::new(alloc),
            log,
        }
    }

    /// The bytes that the disk holds, lent.
    pub fn bytes(&self) -> &[u8]
        ensures { result.now ≡ content self.now.history }
    {
        &self.bytes
    }

    /// Lets so many further device calls pass and fails every later one. A call on the list fails as
    /// before, and takes its place among those that may pass.
    pub fn fuse(&mut self, calls: u64)
        ensures { self.new ≡ with_fuse calls self.old }
    {
        self.log.fuse(calls);
    }

    /// Crashes: the disk is then one that began with the image of this outcome, with no call to tell, no
    /// fuse and no room. The bytes of a mix aren't empty. `NoMemory` changes nothing.
    pub fn crash(&mut self, outcome: &Outcome) -> Result<(), NoMemory>
        requires { HasPattern outcome.now }
        ensures ok { OnOk result (self.new ≡ after_crash (image_after outcome.now self.old.history) self.old) }
        ensures err { OnErr result (self.new ≡ self.old) }
    {
        let image = self.image(outcome)?;
        self.begin_with(image);
        Ok(())
    }

    // The image that an outcome leaves, in memory of its own.
    fn image(&self, outcome: &Outcome) -> Result<Vec<u8>, NoMemory>
        requires { HasPattern outcome.now }
        ensures { IfOk result (λ image. image.items ≡ image_after outcome.now self.now.history) }
    {
        match outcome {
            Outcome::Old => self.synced(),
            Outcome::New => Ok(self.bytes().to_vec(self.alloc)?),
            Outcome::Mix { extra, bytes } => {
                let synced = self.synced()?;
                let growth = (self.bytes().len() - synced.len()).min(*extra as usize);
                mix(
                    self.alloc,
                    &synced,
                    &self.unsynced,
                    bytes.as_slice(),
                    growth,
                )
            }
        }
    }

    // The bytes as of the last sync that succeeded, in memory of their own: the writes since are undone.
    fn synced(&self) -> Result<Vec<u8>, NoMemory>
        ensures value { IfOk result (λ synced. synced.items ≡ synced_content self.now.history) }
        ensures short { IfOk result (λ synced. length synced.items ≤ length (content self.now.history)) }
    {
        let mut synced = self.bytes.to_vec(self.alloc)?;
        undo(&mut synced, &self.unsynced, &self.starts, &self.replaced);
        Ok(synced)
    }

    // The disk begins anew with this image.
    fn begin_with(&mut self, image: Vec<u8>)
        ensures { self.new ≡ after_crash image.items self.old }
    {
        self.log.begin_with(&image);
        self.bytes = image;
        self.unsynced.clear();
        self.starts.clear();
        self.replaced.clear();
    }
}

// What a device call without a value answers.
fn answer(failed: bool) -> Result<(), DiskFailed>
    ensures { is_err result ≡ failed }
{
    if failed { Err(DiskFailed) } else { Ok(()) }
}

impl Disk for MemDisk {
    ghost told = { λ disk. Some disk.history };

    ghost plan = { λ disk. Some (plan_of disk) };

    ghost faults = { λ disk. disk.faults };

    ghost left = { λ disk. disk.room };

    fn len(&mut self) -> Result<u64, DiskFailed>
        requires { HasRoom self.old.room 0 }
        ensures answer { IfOk result (λ len. len ≡ length (content self.old.history)) }
        ensures fails { is_err result ≡ fails_next self.old }
        ensures cause { self.new.faults ≡ faults_after self.old.faults (is_err result) }
        ensures after { self.new ≡ after_call self.old asks_length }
    {
        let failed = self.log.note(&AskedStep::Length);
        let len = self.bytes.len() as u64;
        if failed { Err(DiskFailed) } else { Ok(len) }
    }

    fn read_at(&mut self, place: u64, room: &mut [u8]) -> Result<(), DiskFailed>
        requires room { HasRoom self.old.room 0 }
        requires within { place + length room.old ≤ length (content self.old.history) }
        ensures answer { OnOk result (room.new ≡ take (length room.old) (drop place (content self.old.history))) }
        ensures fails { is_err result ≡ fails_next self.old }
        ensures cause { self.new.faults ≡ faults_after self.old.faults (is_err result) }
        ensures after { self.new ≡ after_call self.old (reads place (length room.old)) }
    {
        let count = room.len();
        let failed = self.log.note(&AskedStep::Read { place, count });
        let start = place as usize;
        if failed {
            return Err(DiskFailed);
        }
        room.copy_from_slice(&self.bytes[start..start + room.len()]);
        Ok(())
    }

    fn write_at(&mut self, place: u64, bytes: &[u8]) -> Result<(), DiskFailed>
        requires room { HasRoom self.old.room (length bytes.now) }
        requires within { place ≤ length (content self.old.history) }
        ensures fits { place + length bytes.now < 2 ^ 64 }
        ensures fails { is_err result ≡ fails_next self.old }
        ensures cause { self.new.faults ≡ faults_after self.old.faults (is_err result) }
        ensures after { self.new ≡ after_call self.old (writes place bytes.now) }
    {
        let failed = self.log.note(&AskedStep::Write { place, bytes });
        self.unsynced.push((place, bytes.len())).unwrap();
        self.starts.push(self.replaced.len()).unwrap();
        keep(&mut self.replaced, &self.bytes, place as usize, bytes.len());
        overwrite(&mut self.bytes, place as usize, bytes);
        answer(failed)
    }

    fn sync(&mut self) -> Result<(), DiskFailed>
        requires { HasRoom self.old.room 0 }
        ensures fails { is_err result ≡ fails_next self.old }
        ensures cause { self.new.faults ≡ faults_after self.old.faults (is_err result) }
        ensures after { self.new ≡ after_call self.old syncs }
    {
        let failed = self.log.note(&AskedStep::Sync);
        if failed {
            return Err(DiskFailed);
        }
        self.unsynced.clear();
        self.starts.clear();
        self.replaced.clear();
        // Of many disks most wait for no call, and room for the four calls of a record takes 128 bytes.
        if self.log.room_calls() == 0 {
            self.unsynced = Vec::new(self.alloc);
            self.starts = Vec::new(self.alloc);
        }
        Ok(())
    }

    fn make_room(&mut self, calls: u64, bytes: u64) -> Result<(), NoMemory>
        ensures ok { OnOk result (self.new ≡ with_room calls bytes self.old) }
        ensures err { OnErr result (self.new ≡ self.old) }
        ensures there { calls ≤ self.old.room.calls → bytes ≤ self.old.room.bytes → is_err result ≡ false }
    {
        if calls <= self.log.room_calls() && bytes <= self.log.room_bytes() {
            return Ok(());
        }
        let more_calls = calls.max(self.log.room_calls()) as usize;
        let more_bytes = bytes.max(self.log.room_bytes()) as usize;
        self.unsynced.reserve(more_calls)?;
        self.starts.reserve(more_calls)?;
        self.bytes.reserve(more_bytes)?;
        self.replaced.reserve(more_bytes)?;
        self.log.make_room(calls, bytes);
        Ok(())
    }
}
