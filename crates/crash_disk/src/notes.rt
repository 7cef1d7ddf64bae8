ghost use Rattle.std.specs.Prelude.{◌≡◌, []};
ghost use Rattle.std.specs.Borrow.{ftrue};
ghost use Rattle.crash_disk.specs.FileCalls.{asked};
ghost use Rattle.crash_disk.specs.FileCalls.{FilePast};

use std::marker::Model;

/// What a call asks of a file, for its notes.
#[derive(Clone, Copy)]
pub enum FileStep<'a> {
    Find { there: bool },
    Make,
    Fit { place: u64, count: usize },
    Measure,
    Reach { place: u64 },
    Get { place: u64, count: usize },
    Put { place: u64, bytes: &'a [u8] },
    SyncBytes,
    OpenFolder,
    SyncName,
    Mark,
    Look,
}

/// With what a file began, and the calls made of it since. Only proofs read it. It takes no memory, and its methods do
/// nothing at run time.
#[derive(Drop)]
pub struct Notes {
    pub ghost past: { FilePast },
}

impl Model for Notes {
    ghost also_owns = { λ _. ftrue };
}

impl Notes {
    ghost use Rattle.crash_disk.specs.FileSteps.{ask_of};

    /// Those of a file that begins with these bytes, and is there or missing.
    pub fn new(image: &[u8], there: bool) -> Notes
        ensures { result.past ≡ record { began = image.now; was_there = there; calls = [] } }
    {
        Notes {}
    }

    /// These with one more call, and whether it failed.
    pub fn and(&self, step: &FileStep<'_>, failed: bool) -> Notes
        ensures { result.past ≡ record self.now.past { calls = asked (ask_of step.now) failed self.now.past.calls } }
    {
        Notes {}
    }
}
