ghost use Rattle.std.specs.Prelude.{◌≡◌, ◌+◌, ◌^◌, ◌<◌, ◌≤◌, false, length, take, drop, is_err, IfOk, OnOk};
ghost use Rattle.crash_disk.specs.FileCalls.{Noted, WhereHeld, asked, was_there, finds, makes, fits, measures, reaches, gets, puts, syncs_bytes, opens_folder, syncs_name, marks, looks};

use std::io;

/// The calls that a disk makes of a file at a path. Each is noted for proofs, whatever it answers.
///
/// A file that tells with which bytes it began answers by these and the writes since, as long as its calls pass; and
/// behind one that failed it passes none, but for the mark. A file of the operating system tells nothing.
pub trait FileCalls {
    ghost use Rattle.std.specs.Prelude.{ℕ, List, Option};
    ghost use Rattle.crash_disk.specs.FileCalls.{FileCall};

    /// The calls so far, the newest first.
    ghost done: { Self → List FileCall };

    /// The bytes that the file began with, none where it was missing, where it tells them.
    ghost began: { Self → Option (List ℕ) };

    /// Takes the file where it is there, and answers whether it is. It is then held.
    fn find(&mut self) -> io::Result<bool>
        ensures { Noted done began (finds (was_there result)) (is_err result) self.old self.new };

    /// Takes the file, and makes it where it is missing.
    fn make(&mut self) -> io::Result<()>
        ensures { Noted done began makes (is_err result) self.old self.new };

    /// Fails where so many bytes from a place on would end past the greatest place.
    fn fits(&mut self, place: u64, count: usize) -> io::Result<()>
        ensures fits { OnOk result (place + count < 2 ^ 64) }
        ensures noted { Noted done began (fits place count) (is_err result) self.old self.new };

    /// The number of bytes, 0 where the file is missing.
    fn len(&mut self) -> io::Result<u64>
        ensures answer { IfOk result (λ len. WhereHeld (began self.old) (done self.old) (λ bytes. len ≡ length bytes)) }
        ensures noted { Noted done began measures (is_err result) self.old self.new };

    /// Fails where the file ends before a place.
    fn reach(&mut self, place: u64) -> io::Result<()>
        ensures { Noted done began (reaches place) (is_err result) self.old self.new };

    /// Fills `room` with the bytes from `place` on, and fails where the file ends before.
    fn read_at(&mut self, place: u64, room: &mut [u8]) -> io::Result<()>
        ensures answer { OnOk result (WhereHeld (began self.old) (done self.old)
            (λ bytes. room.new ≡ take (length room.old) (drop place bytes))) }
        ensures noted { Noted done began (gets place (length room.old)) (is_err result) self.old self.new };

    /// Writes over what is there and past the end.
    fn write_at(&mut self, place: u64, bytes: &[u8]) -> io::Result<()>
        ensures { Noted done began (puts place bytes.now) (is_err result) self.old self.new };

    /// Lets the file's bytes last through a crash.
    fn sync_bytes(&mut self) -> io::Result<()>
        ensures { Noted done began syncs_bytes (is_err result) self.old self.new };

    /// Opens the folder that has the file's name.
    fn open_folder(&mut self) -> io::Result<()>
        ensures { Noted done began opens_folder (is_err result) self.old self.new };

    /// Lets the file's name last through a crash: syncs the folder that was opened, and closes it.
    fn sync_name(&mut self) -> io::Result<()>
        ensures { Noted done began syncs_name (is_err result) self.old self.new };

    /// Marks the file as one of which a sync failed, where that can be done.
    fn mark(&mut self)
        ensures marked { done self.new ≡ asked marks false (done self.old) }
        ensures stays { began self.new ≡ began self.old };

    /// Fails unless the file is still the one at its path, held alone.
    fn look(&mut self) -> io::Result<()>
        ensures { Noted done began looks (is_err result) self.old self.new };
}

/// Whether a look found the file.
pub fn was_there(found: &io::Result<bool>) -> bool
    ensures { result ≡ was_there found.now }
{
    matches!(found, Ok(true))
}
