ghost use Rattle.std.specs.Prelude.{◌≡◌, ◌+◌, ◌^◌, ◌<◌, ◌≤◌, true, false, ◌||◌, ◌&&◌, nat_le, nat_lt, [], length, take, drop, vec_len, is_err, Some, IfOk, OnOk};
ghost use Rattle.std.specs.Vec.{vec_capacity};
ghost use Rattle.crash_disk.specs.FileCalls.{all_passed, holds, was_there, finds, makes, fits, measures, reaches, gets, puts, syncs_bytes, opens_folder, syncs_name, looks};
ghost use Rattle.told_files.specs.States.{AreHeld, stands, tells_there, is_kept, fails, after, with_mark};

use super::log::Log;
use crash_disk::{FileCalls, FileStep, overwrite};
use std::alloc::Global;
use std::io::{self, ErrorKind};

/// A file in memory. It tells with which bytes it began, and of its calls so many may pass, where that is limited. None
/// passes behind one that failed.
#[derive(Drop)]
pub struct MemoryFile {
    bytes: Vec<u8>,
    is_there: bool,
    is_named: bool,
    log: Log,
    ghost held: { AreHeld log.notes.past bytes.items },
    ghost stands: { is_there ≡ stands log.notes.past.was_there log.notes.past.calls },
    ghost tells: { tells_there log.notes.past.was_there log.notes.past.calls ≡ true },
    ghost kept: { is_named ≡ is_kept log.notes.past.calls },
}

// What a call without a value answers.
fn answer(failed: bool) -> io::Result<()>
    ensures { is_err result ≡ failed }
{
    if failed {
        Err(ErrorKind::Other.into())
    } else {
        Ok(())
    }
}

// Whether so many bytes from a place on end within the greatest place.
fn is_within(place: u64, count: usize) -> bool
    ensures { result ≡ nat_lt (place + count) (2 ^ 64) }
{
    place.checked_add(count as u64).is_some()
}

// Whether bytes have so many from a place on.
fn has_at(bytes: &[u8], place: u64, count: usize) -> bool
    ensures { result ≡ nat_le (place + count) (length bytes.now) }
{
    let len = bytes.len() as u64;
    place <= len && count as u64 <= len - place
}

// Whether bytes can be written from a place on. There is then memory for them.
fn has_room(held: &mut Vec<u8>, place: u64, count: usize) -> bool
    ensures place { result ≡ true → nat_le place (vec_len held.old) ≡ true }
    ensures room { result ≡ true → vec_len held.new + count ≤ vec_capacity held.new }
    ensures items { held.new.items ≡ held.old.items }
{
    place <= held.len() as u64 && held.reserve(count).is_ok()
}

impl MemoryFile {
    ghost use Rattle.told_files.specs.Shown.{shown};

    /// A file that is there and holds these bytes, of which nothing was asked yet.
    pub fn holding(bytes: Vec<u8>, fuse: Option<u64>) -> MemoryFile
        ensures { shown result ≡ record {
          began = bytes.items;
          calls = [];
          there = true;
          named = false;
          bytes = bytes.items;
          fuse = fuse;
        } }
    {
        let log = Log::new(&bytes, true, fuse);
        MemoryFile {
            bytes,
            is_there: true,
            is_named: false,
            log,
        }
    }

    /// A file that is missing, of which nothing was asked yet.
    pub fn missing(alloc: Global, fuse: Option<u64>) -> MemoryFile
        ensures { shown result ≡ record {
          began = [];
          calls = [];
          there = false;
          named = false;
          bytes = [];
          fuse = fuse;
        } }
    {
        MemoryFile {
            bytes: Vec::new(alloc),
            is_there: false,
            is_named: false,
            log: Log::new(&[], false, fuse),
        }
    }

    /// The bytes that the file holds, lent. As long as no call failed they are those that its calls left.
    pub fn bytes(&self) -> &[u8]
        ensures value { result.now ≡ (shown self.now).bytes }
        ensures held { all_passed (shown self.now).calls ≡ true
            → result.now ≡ holds (shown self.now).began (shown self.now).calls }
    {
        &self.bytes
    }
}

impl FileCalls for MemoryFile {
    ghost use Rattle.told_files.specs.Shown.{shown};

    ghost done = { λ file. file.log.notes.past.calls };

    ghost began = { λ file. Some file.log.notes.past.began };

    fn find(&mut self) -> io::Result<bool>
        ensures answer { IfOk result (λ there. there ≡ (shown self.old).there) }
        ensures fails { is_err result ≡ fails (finds (was_there result)) (shown self.old) }
        ensures after { shown self.new ≡ after (finds (was_there result)) (is_err result) (shown self.old) }
    {
        let there = self.is_there && !self.log.is_spent();
        let failed = self.log.note(&FileStep::Find { there }, true);
        if failed {
            return Err(ErrorKind::Other.into());
        }
        Ok(there)
    }

    fn make(&mut self) -> io::Result<()>
        ensures fails { is_err result ≡ fails makes (shown self.old) }
        ensures after { shown self.new ≡ after makes (is_err result) (shown self.old) }
    {
        let failed = self.log.note(&FileStep::Make, true);
        self.is_there = !failed || self.is_there;
        answer(failed)
    }

    fn fits(&mut self, place: u64, count: usize) -> io::Result<()>
        ensures fails { is_err result ≡ fails (fits place count) (shown self.old) }
        ensures after { shown self.new ≡ after (fits place count) (is_err result) (shown self.old) }
    {
        let can = is_within(place, count);
        let failed = self.log.note(&FileStep::Fit { place, count }, can);
        answer(failed)
    }

    fn len(&mut self) -> io::Result<u64>
        ensures answer { IfOk result (λ len. len ≡ length (shown self.old).bytes) }
        ensures fails { is_err result ≡ fails measures (shown self.old) }
        ensures after { shown self.new ≡ after measures (is_err result) (shown self.old) }
    {
        let len = self.bytes.len() as u64;
        let failed = self.log.note(&FileStep::Measure, true);
        if failed {
            return Err(ErrorKind::Other.into());
        }
        Ok(len)
    }

    fn reach(&mut self, place: u64) -> io::Result<()>
        ensures fails { is_err result ≡ fails (reaches place) (shown self.old) }
        ensures after { shown self.new ≡ after (reaches place) (is_err result) (shown self.old) }
    {
        let can = self.is_there && place <= self.bytes.len() as u64;
        let failed = self.log.note(&FileStep::Reach { place }, can);
        answer(failed)
    }

    fn read_at(&mut self, place: u64, room: &mut [u8]) -> io::Result<()>
        ensures answer { OnOk result (room.new ≡ take (length room.old) (drop place (shown self.old).bytes)) }
        ensures fails { is_err result ≡ fails (gets place (length room.old)) (shown self.old) }
        ensures after { shown self.new ≡ after (gets place (length room.old)) (is_err result) (shown self.old) }
    {
        let count = room.len();
        let can = has_at(&self.bytes, place, count);
        let failed = self.log.note(&FileStep::Get { place, count }, can);
        if failed {
            return Err(ErrorKind::Other.into());
        }
        let start = place as usize;
        room.copy_from_slice(&self.bytes[start..start + count]);
        Ok(())
    }

    /// Where there is no memory for the bytes, it fails.
    fn write_at(&mut self, place: u64, bytes: &[u8]) -> io::Result<()>
        ensures fails { OnOk result (fails (puts place bytes.now) (shown self.old) ≡ false) }
        ensures after { shown self.new ≡ after (puts place bytes.now) (is_err result) (shown self.old) }
    {
        let can = self.is_there && has_room(&mut self.bytes, place, bytes.len());
        let failed = self.log.note(&FileStep::Put { place, bytes }, can);
        if !failed {
            overwrite(&mut self.bytes, place as usize, bytes);
        }
        answer(failed)
    }

    fn sync_bytes(&mut self) -> io::Result<()>
        ensures fails { is_err result ≡ fails syncs_bytes (shown self.old) }
        ensures after { shown self.new ≡ after syncs_bytes (is_err result) (shown self.old) }
    {
        let failed = self.log.note(&FileStep::SyncBytes, self.is_there);
        answer(failed)
    }

    fn open_folder(&mut self) -> io::Result<()>
        ensures fails { is_err result ≡ fails opens_folder (shown self.old) }
        ensures after { shown self.new ≡ after opens_folder (is_err result) (shown self.old) }
    {
        let failed = self.log.note(&FileStep::OpenFolder, true);
        answer(failed)
    }

    fn sync_name(&mut self) -> io::Result<()>
        ensures fails { is_err result ≡ fails syncs_name (shown self.old) }
        ensures after { shown self.new ≡ after syncs_name (is_err result) (shown self.old) }
    {
        let failed = self.log.note(&FileStep::SyncName, self.is_there);
        self.is_named = !failed || self.is_named;
        answer(failed)
    }

    fn mark(&mut self)
        ensures { shown self.new ≡ with_mark (shown self.old) }
    {
        self.log.note_mark();
    }

    fn look(&mut self) -> io::Result<()>
        ensures fails { is_err result ≡ fails looks (shown self.old) }
        ensures after { shown self.new ≡ after looks (is_err result) (shown self.old) }
    {
        let failed = self.log.note(&FileStep::Look, self.is_there);
        answer(failed)
    }
}
