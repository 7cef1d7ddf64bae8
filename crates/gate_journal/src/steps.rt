ghost use Rattle.std.specs.Prelude.{◌≡◌, ◌≤◌, ◌<◌, ◌+◌, ◌^◌, length, is_err, OnOk};
ghost use Rattle.plasma_base.specs.Causes.{faults_after};
ghost use Rattle.crash_disk.specs.Disk.{content};
ghost use Rattle.crash_disk.specs.Calls.{WhereTold, MadeUntilFault};
ghost use Rattle.gate_journal.specs.Steps.{steps_at};

use super::image::OPEN_GATE;
use crash_disk::{Disk, DiskFailed};

// Writes behind the closed gate, syncs, opens the gate and syncs, up to the first call that fails.
pub fn write_record<D: Disk>(disk: &mut D, gate: u64, frame: &[u8]) -> Result<(), DiskFailed>
    requires calls { 4 ≤ (D.left disk.old).calls }
    requires bytes { length frame.now + 1 ≤ (D.left disk.old).bytes }
    requires place { gate + 1 < 2 ^ 64 }
    requires within { WhereTold (D.told disk.old) (λ history. gate + 1 ≤ length (content history)) }
    ensures made { MadeUntilFault D.told D.plan (λ image. steps_at gate frame.now) 4 result disk.old disk.new }
    ensures fits { OnOk result (gate + 1 + length frame.now < 2 ^ 64) }
    ensures cause { D.faults disk.new ≡ faults_after (D.faults disk.old) (is_err result) }
    ensures calls_left { (D.left disk.old).calls ≤ (D.left disk.new).calls + 4 }
    ensures bytes_left { (D.left disk.old).bytes ≤ (D.left disk.new).bytes + (length frame.now + 1) }
{
    disk.write_at(gate + 1, frame)?;
    disk.sync()?;
    disk.write_at(gate, &[OPEN_GATE])?;
    disk.sync()?;
    Ok(())
}
