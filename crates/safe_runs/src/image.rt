ghost use Rattle.std.specs.Prelude.{◌≡◌, Ok, IfOk, IfErr};
ghost use Rattle.plasma_base.specs.Causes.{faults_after};
ghost use Rattle.crash_disk.specs.Disk.{content, fresh_history};
ghost use Rattle.crash_disk.specs.Calls.{WhereTold};
ghost use Rattle.gate_journal.specs.Image.{kept_records};
ghost use Rattle.gate_journal.specs.Journal.{Keeps, is_fault};
ghost use Rattle.safe_runs.specs.Inside.{only_place};
ghost use Rattle.safe_runs.specs.Runs.{OnlyLooks, IsUnread};

use crash_disk::{Disk, MemDisk};
use gate_journal::{Journal, JournalRefusal};
use plasma_base::{Bytes, NoMemory};
use std::alloc::Global;

/// Asks a disk for its length and reads its whole image, up to the first call that fails or to want of memory. It
/// writes nothing.
pub fn read_image<D: Disk>(alloc: Global, disk: &mut D) -> Result<Vec<u8>, JournalRefusal>
    ensures image { IfOk result (λ image. WhereTold (D.told disk.old) (λ before. image.items ≡ content before)) }
    ensures looks { OnlyLooks D.told disk.old disk.new }
    ensures unread { IfErr result IsUnread }
    ensures cause { D.faults disk.new ≡ faults_after (D.faults disk.old) (is_fault result) }
{
    disk.make_room(2, 0)?;
    let len = disk.len()? as usize;
    let mut image = vec![in alloc; 0u8; len]?;
    disk.read_at(0, &mut image)?;
    Ok(image)
}

/// A disk in memory that holds an image and never fails.
pub fn disk_of(alloc: Global, image: Vec<u8>) -> MemDisk
    ensures { result.history ≡ fresh_history image.items }
{
    MemDisk::make(alloc, image, Vec::new(alloc))
}

/// The records of a disk in memory that holds some.
pub fn records_of(alloc: Global, disk: MemDisk) -> Result<Vec<Bytes>, NoMemory>
    ensures { IfOk result (λ records. Keeps records.items (content disk.history)) }
{
    match Journal::open(alloc, disk) {
        Ok((_journal, records)) => Ok(records),
        Err(_) => Err(NoMemory),
    }
}

/// Why images aren't taken for those of a node that is opened over disks in memory: the place, or want of memory. Such
/// disks never fail.
pub fn only_place(why: JournalRefusal) -> JournalRefusal
    ensures { result ≡ only_place why }
{
    match why {
        JournalRefusal::NotJournal { place } => JournalRefusal::NotJournal { place },
        _ => JournalRefusal::NoMemory,
    }
}
