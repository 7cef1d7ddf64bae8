ghost use Rattle.std.specs.Prelude.{◌≡◌, ◌+◌, ◌^◌, ◌<◌, ◌≤◌, ◌||◌, true, false, not, [], length, take, drop, is_err, Ok, IfOk, OnOk};
ghost use Rattle.plasma_base.specs.Causes.{faults_after};
ghost use Rattle.crash_disk.specs.Disk.{fresh_history, content, with_call, asks_length, reads, writes, syncs};
ghost use Rattle.crash_disk.specs.FileCalls.{Makes, Asked, AllPassed, WhereHeld, AreFor, asked, marked, has_name, was_there, sync_asks, syncs_bytes, syncs_name, told_of};
ghost use Rattle.crash_disk.specs.Calls.{WhereTold};
ghost use Rattle.crash_disk.specs.Files.{every_room, no_plan};

use super::disk::{Disk, DiskFailed};
use super::file_calls::{FileCalls, was_there};
use super::past::{AskedStep, Past};
use plasma_base::NoMemory;
use std::io;
use std::marker::Model;

/// A disk over a file, by the calls that it makes of it. Where the file tells with which bytes it began, the disk tells
/// its history. Contracts see it as the file, the device calls since it was made, and its count of faults.
#[derive(Drop)]
pub struct DiskOver<F: FileCalls> {
    file: F,
    // The device calls so far. Only proofs read them.
    past: Past,
    // Whether the file's name is known to last through a crash.
    is_named: bool,
    faults: u64,
}

impl<F: FileCalls> Model for DiskOver<F> {
    ghost use Rattle.crash_disk.specs.FileCalls.{Keeps};
    ghost use Rattle.crash_disk.specs.Files.{DiskOverState};

    ghost Value = { DiskOverState F };

    ghost view = { λ disk. record { file = disk.file; past = disk.past.history; faults = disk.faults } };

    ghost invariant = { λ disk. Keeps disk.past.history disk.is_named (F.FileCalls.done disk.file) };
}

// The length.
fn measured<F: FileCalls>(file: &mut F) -> io::Result<u64>
    ensures made { Makes asks_length (is_err result) (F.done file.old) (F.done file.new) }
    ensures answer { IfOk result (λ len. WhereHeld (F.began file.old) (F.done file.old) (λ bytes. len ≡ length bytes)) }
    ensures whole { OnOk result (AllPassed (F.began file.old) (F.done file.old)) }
    ensures stays { F.began file.new ≡ F.began file.old }
    ensures name { has_name (F.done file.new) ≡ has_name (F.done file.old) }
{
    file.find()?;
    file.len()
}

// Fills `room` with the bytes from `place` on.
fn got<F: FileCalls>(file: &mut F, place: u64, room: &mut [u8]) -> io::Result<()>
    ensures made { Makes (reads place (length room.old)) (is_err result) (F.done file.old) (F.done file.new) }
    ensures answer { OnOk result (WhereHeld (F.began file.old) (F.done file.old)
        (λ bytes. room.new ≡ take (length room.old) (drop place bytes))) }
    ensures whole { OnOk result (AllPassed (F.began file.old) (F.done file.old)) }
    ensures stays { F.began file.new ≡ F.began file.old }
    ensures name { has_name (F.done file.new) ≡ has_name (F.done file.old) }
{
    file.find()?;
    file.read_at(place, room)
}

// Writes, from a place that the file reaches.
fn put<F: FileCalls>(file: &mut F, place: u64, bytes: &[u8]) -> io::Result<()>
    ensures fits { OnOk result (place + length bytes.now < 2 ^ 64) }
    ensures made { Makes (writes place bytes.now) (is_err result) (F.done file.old) (F.done file.new) }
    ensures stays { F.began file.new ≡ F.began file.old }
    ensures name { has_name (F.done file.new) ≡ has_name (F.done file.old) }
{
    file.fits(place, bytes.len())?;
    file.make()?;
    file.reach(place)?;
    file.write_at(place, bytes)
}

// Syncs the bytes, and marks the file where that fails.
fn bytes_synced<F: FileCalls>(file: &mut F) -> io::Result<()>
    ensures calls { F.done file.new ≡ marked (asked syncs_bytes (is_err result) (F.done file.old)) }
    ensures stays { F.began file.new ≡ F.began file.old }
{
    let answer = file.sync_bytes();
    if answer.is_err() {
        file.mark();
    }
    answer
}

// Syncs the name, and marks the file where that fails.
fn name_synced<F: FileCalls>(file: &mut F) -> io::Result<()>
    ensures calls { F.done file.new ≡ marked (asked syncs_name (is_err result) (F.done file.old)) }
    ensures stays { F.began file.new ≡ F.began file.old }
{
    let answer = file.sync_name();
    if answer.is_err() {
        file.mark();
    }
    answer
}

// Syncs a file whose name lasts.
fn synced_again<F: FileCalls>(file: &mut F) -> io::Result<()>
    ensures made { Asked (sync_asks true) (is_err result) (F.done file.old) (F.done file.new) }
    ensures name { has_name (F.done file.new) ≡ (not (is_err result) || has_name (F.done file.old)) }
    ensures stays { F.began file.new ≡ F.began file.old }
{
    bytes_synced(file)?;
    file.look()
}

// Syncs a file whose name may be lost yet.
fn synced_first<F: FileCalls>(file: &mut F) -> io::Result<()>
    ensures made { Asked (sync_asks false) (is_err result) (F.done file.old) (F.done file.new) }
    ensures name { has_name (F.done file.new) ≡ (not (is_err result) || has_name (F.done file.old)) }
    ensures stays { F.began file.new ≡ F.began file.old }
{
    file.open_folder()?;
    bytes_synced(file)?;
    name_synced(file)?;
    file.look()
}

// Syncs the file where it is there.
fn synced<F: FileCalls>(file: &mut F, is_named: bool) -> io::Result<bool>
    requires { is_named ≡ has_name (F.done file.old) }
    ensures made { Makes syncs (is_err result) (F.done file.old) (F.done file.new) }
    ensures name { has_name (F.done file.new) ≡ (was_there result || is_named) }
    ensures stays { F.began file.new ≡ F.began file.old }
{
    if !file.find()? {
        return Ok(false);
    }
    if is_named {
        synced_again(file)?;
    } else {
        synced_first(file)?;
    }
    Ok(true)
}

// The count of faults after a device call.
fn counted(faults: u64, failed: bool) -> u64
    ensures { result ≡ faults_after faults failed }
{
    faults.saturating_add(u64::from(failed))
}

// What a device call with a value answers.
fn answered(done: io::Result<u64>) -> Result<u64, DiskFailed>
    ensures failed { is_err result ≡ is_err done }
    ensures value { IfOk result (λ len. done ≡ Ok len) }
{
    match done {
        Ok(len) => Ok(len),
        Err(_) => Err(DiskFailed),
    }
}

// What a device call without a value answers.
fn answer(failed: bool) -> Result<(), DiskFailed>
    ensures { is_err result ≡ failed }
{
    if failed { Err(DiskFailed) } else { Ok(()) }
}

impl<F: FileCalls> DiskOver<F> {
    /// A disk over a file of which nothing was asked yet, which hasn't failed yet.
    pub fn over(file: F) -> DiskOver<F>
        requires { F.FileCalls.done file ≡ [] }
        ensures { result ≡ record { file = file; past = fresh_history []; faults = 0 } }
    {
        DiskOver {
            file,
            past: Past::new(&[]),
            is_named: false,
            faults: 0,
        }
    }

    /// The file, lent. Its calls are those of the device calls, and no other.
    pub fn file(&self) -> &F
        ensures value { result.now ≡ self.now.file }
        ensures made { ∥ AreFor self.now.past.calls (F.FileCalls.done self.now.file) ∥₁ }
    {
        &self.file
    }
}

impl<F: FileCalls> Disk for DiskOver<F> {
    ghost told = { λ disk. told_of (F.FileCalls.began disk.file) disk.past };

    ghost plan = { no_plan };

    ghost faults = { λ disk. disk.faults };

    ghost left = { λ _. every_room };

    fn len(&mut self) -> Result<u64, DiskFailed>
        ensures answer { IfOk result (λ len. WhereTold (told_of (F.FileCalls.began self.old.file) self.old.past)
            (λ history. len ≡ length (content history))) }
        ensures noted { self.new.past ≡ with_call asks_length (is_err result) self.old.past }
        ensures stays { F.FileCalls.began self.new.file ≡ F.FileCalls.began self.old.file }
        ensures cause { self.new.faults ≡ faults_after self.old.faults (is_err result) }
        ensures made { Makes asks_length (is_err result) (F.FileCalls.done self.old.file)
            (F.FileCalls.done self.new.file) }
    {
        let answer = measured(&mut self.file);
        self.past = self.past.and(&AskedStep::Length, answer.is_err());
        self.faults = counted(self.faults, answer.is_err());
        answered(answer)
    }

    fn read_at(&mut self, place: u64, room: &mut [u8]) -> Result<(), DiskFailed>
        ensures answer { OnOk result (WhereTold (told_of (F.FileCalls.began self.old.file) self.old.past)
            (λ history. room.new ≡ take (length room.old) (drop place (content history)))) }
        ensures noted { self.new.past ≡ with_call (reads place (length room.old)) (is_err result) self.old.past }
        ensures stays { F.FileCalls.began self.new.file ≡ F.FileCalls.began self.old.file }
        ensures cause { self.new.faults ≡ faults_after self.old.faults (is_err result) }
        ensures made { Makes (reads place (length room.old)) (is_err result)
            (F.FileCalls.done self.old.file) (F.FileCalls.done self.new.file) }
    {
        let count = room.len();
        let failed = got(&mut self.file, place, room).is_err();
        self.past = self.past.and(&AskedStep::Read { place, count }, failed);
        self.faults = counted(self.faults, failed);
        answer(failed)
    }

    fn write_at(&mut self, place: u64, bytes: &[u8]) -> Result<(), DiskFailed>
        ensures fits { OnOk result (place + length bytes.now < 2 ^ 64) }
        ensures noted { self.new.past ≡ with_call (writes place bytes.now) (is_err result) self.old.past }
        ensures stays { F.FileCalls.began self.new.file ≡ F.FileCalls.began self.old.file }
        ensures cause { self.new.faults ≡ faults_after self.old.faults (is_err result) }
        ensures made { Makes (writes place bytes.now) (is_err result) (F.FileCalls.done self.old.file)
            (F.FileCalls.done self.new.file) }
    {
        let failed = put(&mut self.file, place, bytes).is_err();
        self.past = self.past.and(&AskedStep::Write { place, bytes }, failed);
        self.faults = counted(self.faults, failed);
        answer(failed)
    }

    fn sync(&mut self) -> Result<(), DiskFailed>
        ensures noted { self.new.past ≡ with_call syncs (is_err result) self.old.past }
        ensures stays { F.FileCalls.began self.new.file ≡ F.FileCalls.began self.old.file }
        ensures cause { self.new.faults ≡ faults_after self.old.faults (is_err result) }
        ensures made { Makes syncs (is_err result) (F.FileCalls.done self.old.file)
            (F.FileCalls.done self.new.file) }
    {
        let synced = synced(&mut self.file, self.is_named);
        let failed = synced.is_err();
        self.is_named = was_there(&synced) | self.is_named;
        self.past = self.past.and(&AskedStep::Sync, failed);
        self.faults = counted(self.faults, failed);
        answer(failed)
    }

    /// A file needs no room. It does nothing, and always answers `Ok`.
    fn make_room(&mut self, calls: u64, bytes: u64) -> Result<(), NoMemory>
        ensures ok { is_err result ≡ false }
        ensures calls { OnOk result (calls ≤ every_room.calls) }
        ensures bytes { OnOk result (bytes ≤ every_room.bytes) }
        ensures same { self.new ≡ self.old }
    {
        let _ = (calls, bytes);
        Ok(())
    }
}
