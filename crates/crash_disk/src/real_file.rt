ghost use Rattle.std.specs.Prelude.{◌≡◌, ◌+◌, ◌^◌, ◌<◌, [], None, OnOk};

use super::file_calls::{FileCalls, was_there};
use super::lazy_file::LazyFile;
use super::notes::{FileStep, Notes};
use std::fs::{File, Files};
use std::io::{self, ErrorKind};

// A file of the operating system, which tells nothing of its bytes. Each call is made of it, and then noted.
#[derive(Drop)]
pub struct RealFile<'a, R: Files<File = File>> {
    file: LazyFile<'a, R>,
    notes: Notes,
}

impl<'a, R: Files<File = File>> RealFile<'a, R> {
    // The file at a path, of which nothing was asked yet. Since it tells nothing, its notes begin with no bytes.
    pub fn new(files: &'a R, path: &'a str) -> RealFile<'a, R>
        ensures { result.notes.past.calls ≡ [] }
    {
        RealFile {
            file: LazyFile::new(files, path),
            notes: Notes::new(&[], false),
        }
    }
}

// Fails where so many bytes from a place on would end past the greatest place.
fn fitted(place: u64, count: usize) -> io::Result<()>
    ensures { OnOk result (place + count < 2 ^ 64) }
{
    match place.checked_add(count as u64) {
        Some(_) => Ok(()),
        None => Err(ErrorKind::InvalidInput.into()),
    }
}

impl<'a, R: Files<File = File>> FileCalls for RealFile<'a, R> {
    ghost done = { λ file. file.notes.past.calls };

    ghost began = { λ _. None };

    fn find(&mut self) -> io::Result<bool> {
        let found = self.file.find();
        let there = was_there(&found);
        self.notes = self.notes.and(&FileStep::Find { there }, found.is_err());
        found
    }

    fn make(&mut self) -> io::Result<()> {
        let answer = self.file.make();
        self.notes = self.notes.and(&FileStep::Make, answer.is_err());
        answer
    }

    fn fits(&mut self, place: u64, count: usize) -> io::Result<()> {
        let answer = fitted(place, count);
        self.notes = self
            .notes
            .and(&FileStep::Fit { place, count }, answer.is_err());
        answer
    }

    fn len(&mut self) -> io::Result<u64> {
        let answer = self.file.len();
        self.notes = self.notes.and(&FileStep::Measure, answer.is_err());
        answer
    }

    fn reach(&mut self, place: u64) -> io::Result<()> {
        let answer = self.file.reach(place);
        self.notes = self.notes.and(&FileStep::Reach { place }, answer.is_err());
        answer
    }

    fn read_at(&mut self, place: u64, room: &mut [u8]) -> io::Result<()> {
        let count = room.len();
        let answer = self.file.read_at(place, room);
        self.notes = self
            .notes
            .and(&FileStep::Get { place, count }, answer.is_err());
        answer
    }

    fn write_at(&mut self, place: u64, bytes: &[u8]) -> io::Result<()> {
        let answer = self.file.write_at(place, bytes);
        self.notes = self
            .notes
            .and(&FileStep::Put { place, bytes }, answer.is_err());
        answer
    }

    fn sync_bytes(&mut self) -> io::Result<()> {
        let answer = self.file.sync_bytes();
        self.notes = self.notes.and(&FileStep::SyncBytes, answer.is_err());
        answer
    }

    fn open_folder(&mut self) -> io::Result<()> {
        let answer = self.file.open_folder();
        self.notes = self.notes.and(&FileStep::OpenFolder, answer.is_err());
        answer
    }

    fn sync_name(&mut self) -> io::Result<()> {
        let answer = self.file.sync_name();
        self.notes = self.notes.and(&FileStep::SyncName, answer.is_err());
        answer
    }

    fn mark(&mut self) {
        self.file.mark();
        self.notes = self.notes.and(&FileStep::Mark, false);
    }

    fn look(&mut self) -> io::Result<()> {
        let answer = self.file.look();
        self.notes = self.notes.and(&FileStep::Look, answer.is_err());
        answer
    }
}
