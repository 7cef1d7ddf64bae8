ghost use Rattle.std.specs.Prelude.{◌≡◌, ◌++◌, Bool, [], length, true, Some, IfOk};
ghost use Rattle.crash_disk.specs.Disk.{History, fresh_history, content};
ghost use Rattle.crash_disk.specs.FileCalls.{all_passed};
ghost use Rattle.crash_disk.specs.Adding.{added_calls, added_asks, all_made};
ghost use Rattle.told_files.specs.Shown.{shown};

use super::memory_file::MemoryFile;
use crash_disk::{Disk, DiskFailed, DiskOver};

/// A disk over a file of which nothing was asked yet. It tells the bytes that the file holds, and no device call.
pub fn opened(file: MemoryFile) -> DiskOver<MemoryFile>
    requires { (shown file).calls ≡ [] }
    ensures told { ⟦<DiskOver<MemoryFile> as Disk>⟧.told result ≡ Some (fresh_history (shown file).bytes) }
    ensures file { result.file ≡ file }
{
    DiskOver::over(file)
}

/// As long as no call of the file failed, the file holds what the disk tells.
pub fn file_holds_what_is_told(disk: &DiskOver<MemoryFile>)
    ensures { (history : History) → ⟦<DiskOver<MemoryFile> as Disk>⟧.told disk.now ≡ Some history
        → all_passed (shown disk.now.file).calls ≡ true → (shown disk.now.file).bytes ≡ content history }
{
    let _ = disk.file();
}

/// Adds bytes behind those of a file of which nothing was asked yet, by a disk over it, and syncs the disk.
pub fn added(file: MemoryFile, bytes: &[u8]) -> Result<DiskOver<MemoryFile>, DiskFailed>
    requires { (shown file).calls ≡ [] }
    ensures told { IfOk result (λ disk. ⟦<DiskOver<MemoryFile> as Disk>⟧.told disk
        ≡ Some (record { began = (shown file).bytes; calls = added_calls (length (shown file).bytes) bytes.now })) }
    ensures calls { IfOk result (λ disk. ∥ ((there : Bool) × ((shown disk.file).calls
        ≡ all_made (added_asks there (length (shown file).bytes) bytes.now))) ∥₁) }
    ensures bytes { IfOk result (λ disk. (shown disk.file).bytes ≡ (shown file).bytes ++ bytes.now) }
    ensures named { IfOk result (λ disk. (shown disk.file).named ≡ true) }
{
    let mut disk = opened(file);
    let place = disk.len()?;
    disk.write_at(place, bytes)?;
    disk.sync()?;
    let _ = disk.file();
    Ok(disk)
}
