ghost use Rattle.std.specs.Prelude.{◌≡◌, ◌||◌, not, true, false, []};
ghost use Rattle.crash_disk.specs.Disk.{is_spent};
ghost use Rattle.crash_disk.specs.FileCalls.{asked, marks, all_passed};
ghost use Rattle.told_files.specs.States.{fuse_after};

use crash_disk::{FileStep, Notes, is_spent, shorter_fuse};

// The calls of a file, of which only proofs know, and how many further ones may pass, where that is limited. None does
// behind one that failed.
#[derive(Drop)]
pub struct Log {
    pub notes: Notes,
    pub fuse: Option<u64>,
    pub ghost whole: { is_spent fuse ≡ false → all_passed notes.past.calls ≡ true },
}

// The fuse after one call more.
fn fuse_after(fuse: Option<u64>, failed: bool) -> Option<u64>
    ensures { result ≡ fuse_after failed fuse }
{
    if failed { Some(0) } else { shorter_fuse(fuse) }
}

impl Log {
    ghost use Rattle.crash_disk.specs.FileSteps.{ask_of};

    // That of a file that begins with these bytes, and is there or missing.
    pub fn new(image: &[u8], there: bool, fuse: Option<u64>) -> Log
        ensures past { result.notes.past ≡ record { began = image.now; was_there = there; calls = [] } }
        ensures fuse { result.fuse ≡ fuse }
    {
        Log {
            notes: Notes::new(image, there),
            fuse,
        }
    }

    // Whether no call may pass any more.
    pub fn is_spent(&self) -> bool
        ensures { result ≡ is_spent self.now.fuse }
    {
        is_spent(self.fuse)
    }

    // Notes a call, and says whether it fails: once the fuse is spent, and where the file can't do it.
    pub fn note(&mut self, step: &FileStep<'_>, can: bool) -> bool
        ensures value { result ≡ (is_spent self.old.fuse || not can) }
        ensures past { self.new.notes.past ≡
            record self.old.notes.past { calls = asked (ask_of step.now) result self.old.notes.past.calls } }
        ensures fuse { self.new.fuse ≡ fuse_after result self.old.fuse }
    {
        let failed = is_spent(self.fuse) || !can;
        self.notes = self.notes.and(step, failed);
        self.fuse = fuse_after(self.fuse, failed);
        failed
    }

    // Notes a mark, which never fails.
    pub fn note_mark(&mut self)
        ensures past { self.new.notes.past ≡
            record self.old.notes.past { calls = asked marks false self.old.notes.past.calls } }
        ensures fuse { self.new.fuse ≡ self.old.fuse }
    {
        self.notes = self.notes.and(&FileStep::Mark, false);
    }
}
