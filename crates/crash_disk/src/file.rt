ghost use Rattle.std.specs.Prelude.{◌≡◌, ◌+◌, ◌^◌, ◌<◌, ◌≤◌, false, [], length, take, drop, is_err, IfOk, OnOk, OnErr};
ghost use Rattle.plasma_base.specs.Causes.{faults_after};
ghost use Rattle.crash_disk.specs.Disk.{content, asks_length, reads, writes, syncs, Spends};
ghost use Rattle.crash_disk.specs.Calls.{WhereTold, Called, IsStill};
ghost use Rattle.crash_disk.specs.FileCalls.{Makes};
ghost use Rattle.crash_disk.specs.Files.{FileDiskState, every_room, no_history, no_plan};

use super::disk::{Disk, DiskFailed};
use super::disk_over::DiskOver;
use super::real_file::RealFile;
use plasma_base::NoMemory;
use std::fs::{File, Files};
use std::marker::Model;

/// A disk over a file of the operating system that it holds alone, which contracts see as its count of faults and the
/// calls that it made of the file. As a disk it tells nothing of its content.
///
/// The file is opened at the first device call, and locked from then on until the disk is dropped. Where it is missing
/// then, it has length 0 until a write makes it. Its mode is 0600 from then on, whatever the mask is. The first sync of a
/// file that is there syncs its folder too, which keeps its name.
///
/// A device call fails where std gives an error, and where it opens the file and
/// - what stands at the path is no regular file: a link, even one to nothing, a folder or a device. It isn't opened;
/// - another disk holds the file, in this program or in another, or the file system has no locks;
/// - the file's mode can't be set, as that of somebody else's file by anybody but root;
/// - the file was missing when it was first asked for, and somebody else has made it since.
///
/// It fails where it opens or syncs the file and
/// - the file has a second name, a hard link;
/// - the file isn't the one at the path any more: it was removed or renamed, or another one was put there;
/// - anybody but the file's owner may write it, or somebody cut it;
/// - the file's owner may not write it. A sync that fails, of the file or of its folder, takes this right away (mode
///   0400), since the system may then take bytes for written that the disk doesn't have. Give it back once the machine
///   was started anew.
///
/// A write fails where it begins behind the file's end, as after somebody cut the file.
#[derive(Drop)]
pub struct FileDisk<'a, R: Files<File = File>> {
    disk: DiskOver<RealFile<'a, R>>,
}

impl<'a, R: Files<File = File>> Model for FileDisk<'a, R> {
    ghost use Rattle.crash_disk.specs.Files.{FileDiskState};

    ghost Value = { FileDiskState };

    ghost view = { λ disk. record { faults = disk.disk.faults; calls = disk.disk.file.notes.past.calls } };
}

impl<'a, R: Files<File = File>> FileDisk<'a, R> {
    /// A disk over the file at this path, which hasn't failed yet.
    pub fn make(files: &'a R, path: &'a str) -> FileDisk<'a, R>
        ensures { result ≡ record { faults = 0; calls = [] } }
    {
        FileDisk {
            disk: DiskOver::over(RealFile::new(files, path)),
        }
    }
}

impl<'a, R: Files<File = File>> Disk for FileDisk<'a, R> {
    ghost told = { no_history };

    ghost plan = { no_plan };

    ghost faults = { λ disk. disk.faults };

    ghost left = { λ _. every_room };

    fn len(&mut self) -> Result<u64, DiskFailed>
        ensures answer { IfOk result (λ len. WhereTold (no_history self.old)
            (λ history. len ≡ length (content history))) }
        ensures called { Called no_history no_plan asks_length (is_err result) self.old self.new }
        ensures cause { self.new.faults ≡ faults_after self.old.faults (is_err result) }
        ensures spent { Spends every_room every_room 0 }
        ensures made { Makes asks_length (is_err result) self.old.calls self.new.calls }
    {
        self.disk.len()
    }

    fn read_at(&mut self, place: u64, room: &mut [u8]) -> Result<(), DiskFailed>
        ensures answer { OnOk result (WhereTold (no_history self.old)
            (λ history. room.new ≡ take (length room.old) (drop place (content history)))) }
        ensures called { Called no_history no_plan (reads place (length room.old)) (is_err result) self.old self.new }
        ensures cause { self.new.faults ≡ faults_after self.old.faults (is_err result) }
        ensures spent { Spends every_room every_room 0 }
        ensures made { Makes (reads place (length room.old)) (is_err result) self.old.calls self.new.calls }
    {
        self.disk.read_at(place, room)
    }

    fn write_at(&mut self, place: u64, bytes: &[u8]) -> Result<(), DiskFailed>
        ensures fits { OnOk result (place + length bytes.now < 2 ^ 64) }
        ensures called { Called no_history no_plan (writes place bytes.now) (is_err result) self.old self.new }
        ensures cause { self.new.faults ≡ faults_after self.old.faults (is_err result) }
        ensures spent { Spends every_room every_room (length bytes.now) }
        ensures made { Makes (writes place bytes.now) (is_err result) self.old.calls self.new.calls }
    {
        self.disk.write_at(place, bytes)
    }

    fn sync(&mut self) -> Result<(), DiskFailed>
        ensures called { Called no_history no_plan syncs (is_err result) self.old self.new }
        ensures cause { self.new.faults ≡ faults_after self.old.faults (is_err result) }
        ensures spent { Spends every_room every_room 0 }
        ensures made { Makes syncs (is_err result) self.old.calls self.new.calls }
    {
        self.disk.sync()
    }

    /// A file needs no room. It does nothing, and always answers `Ok`.
    fn make_room(&mut self, calls: u64, bytes: u64) -> Result<(), NoMemory>
        ensures ok { is_err result ≡ false }
        ensures calls { OnOk result (calls ≤ every_room.calls) }
        ensures bytes { OnOk result (bytes ≤ every_room.bytes) }
        ensures calls_stay { every_room.calls ≤ every_room.calls }
        ensures bytes_stay { every_room.bytes ≤ every_room.bytes }
        ensures still { IsStill no_history no_plan (λ (disk : FileDiskState). disk.faults) self.old self.new }
        ensures err { OnErr result (self.new ≡ self.old) }
        ensures same { self.new ≡ self.old }
    {
        self.disk.make_room(calls, bytes)
    }
}
