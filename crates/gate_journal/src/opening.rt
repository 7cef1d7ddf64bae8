ghost use Rattle.std.specs.Prelude.{◌≡◌, ◌<◌, ◌+◌, ◌^◌, ◌⊎◌, length, IfOk, IfErr};
ghost use Rattle.plasma_base.specs.Causes.{faults_after};
ghost use Rattle.crash_disk.specs.Disk.{content};
ghost use Rattle.crash_disk.specs.Calls.{WhereTold, passed, Made};
ghost use Rattle.gate_journal.specs.Image.{spelled, journal_in};
ghost use Rattle.gate_journal.specs.Steps.{open_steps};
ghost use Rattle.gate_journal.specs.Journal.{Keeps, IsSettled, RefusesOpen, is_fault};

use super::image::{Found, read_records};
use super::refusal::JournalRefusal;
use crash_disk::Disk;
use std::alloc::Global;

// Syncs, asks for the length and reads the whole image, up to the first call that fails or to want of
// memory.
pub fn read_image<D: Disk>(alloc: Global, disk: &mut D) -> Result<Vec<u8>, JournalRefusal>
    ensures made { IfOk result (λ image. Made D.told D.plan open_steps 3 passed disk.old disk.new) }
    ensures image { IfOk result (λ image. WhereTold (D.told disk.old) (λ before. image.items ≡ content before)) }
    ensures refused { IfErr result (λ why. RefusesOpen journal_in D.told D.plan disk.old why disk.new) }
    ensures cause { D.faults disk.new ≡ faults_after (D.faults disk.old) (is_fault result) }
    ensures named { IfErr result (λ why. (why ≡ JournalRefusal.DeviceFault) ⊎ (why ≡ JournalRefusal.NoMemory)) }
{
    disk.make_room(3, 0)?;
    disk.sync()?;
    let len = disk.len()? as usize;
    let mut image = vec![in alloc; 0u8; len]?;
    disk.read_at(0, &mut image)?;
    Ok(image)
}

// Reads the records of a disk, up to the first device call that fails or to want of memory.
pub fn load<D: Disk>(alloc: Global, disk: &mut D) -> Result<Found, JournalRefusal>
    ensures made { IfOk result (λ found. Made D.told D.plan open_steps 3 passed disk.old disk.new) }
    ensures records { IfOk result (λ found.
        WhereTold (D.told disk.old) (λ before. Keeps found.records.items (content before))) }
    ensures settled { IfOk result (λ found. WhereTold (D.told disk.new) (λ now. IsSettled now found.records.items)) }
    ensures gate { IfOk result (λ found. found.gate ≡ length (spelled found.records.items)) }
    ensures place { IfOk result (λ found. found.gate + 1 < 2 ^ 64) }
    ensures refused { IfErr result (λ why. RefusesOpen journal_in D.told D.plan disk.old why disk.new) }
    ensures cause { D.faults disk.new ≡ faults_after (D.faults disk.old) (is_fault result) }
{
    let image = read_image(alloc, disk)?;
    match read_records(alloc, &image) {
        Ok(found) => Ok(found),
        Err(why) => Err(why),
    }
}
