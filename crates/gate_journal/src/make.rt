ghost use Rattle.std.specs.Prelude.{◌≡◌, ◌≤◌, ◌+◌, length, is_err, IfOk, OnOk};
ghost use Rattle.plasma_base.specs.Causes.{faults_after};
ghost use Rattle.crash_disk.specs.Calls.{WhereTold};
ghost use Rattle.gate_journal.specs.Journal.{is_fault};
ghost use Rattle.gate_journal.specs.Make.{is_made, IsFresh, Makes};
ghost use Rattle.gate_journal.specs.Inside.{OverContent, LooksAt};

use super::image::is_empty_journal;
use super::refusal::JournalRefusal;
use crash_disk::{Disk, DiskFailed};

// The image of an empty journal: the mark and a closed gate.
const EMPTY: [u8; 5] = [0x50, 0x47, 0x4a, 0x31, 0x00];

// What a disk holds before a journal is made.
#[derive(Clone, Copy)]
struct Probe {
    length: u64,
    made: bool,
}

// Asks for the length, and reads an image that could be an empty journal.
fn look<D: Disk>(disk: &mut D) -> Result<Probe, DiskFailed>
    requires { 2 ≤ (D.left disk.old).calls }
    ensures looks { OverContent (D.told disk.old) (λ image.
        IfOk result (λ probe. (probe.made ≡ is_made image) × (probe.length ≡ length image))
        × LooksAt image D.told D.plan result disk.old disk.new) }
    ensures cause { D.faults disk.new ≡ faults_after (D.faults disk.old) (is_err result) }
    ensures calls_left { (D.left disk.old).calls ≤ (D.left disk.new).calls + 2 }
    ensures bytes_left { (D.left disk.old).bytes ≤ (D.left disk.new).bytes }
{
    let length = disk.len()?;
    if length != 5 {
        return Ok(Probe {
            length,
            made: length > 5,
        });
    }
    let mut image = [0u8; 5];
    disk.read_at(0, &mut image)?;
    let made = is_empty_journal(&image);
    Ok(Probe { length, made })
}

// Makes an empty journal where there is none.
pub fn make_journal<D: Disk>(disk: &mut D) -> Result<(), JournalRefusal>
    ensures makes { Makes D.told D.plan disk.old result disk.new }
    ensures fresh { OnOk result (WhereTold (D.told disk.new) IsFresh) }
    ensures cause { D.faults disk.new ≡ faults_after (D.faults disk.old) (is_fault result) }
{
    disk.make_room(4, 5)?;
    let found = look(disk)?;
    if found.made {
        return Err(JournalRefusal::AlreadyMade {
            length: found.length,
        });
    }
    disk.write_at(0, &EMPTY)?;
    disk.sync()?;
    Ok(())
}
