ghost use Rattle.std.specs.Prelude.{◌≡◌, ℕ, ◌+◌, ◌^◌, ◌<◌, ◌≤◌, length, take, drop, Option, is_err, false, IfOk, OnOk, OnErr};
ghost use Rattle.plasma_base.specs.Causes.{faults_after};
ghost use Rattle.crash_disk.specs.Disk.{History, content, asks_length, reads, writes, syncs, FaultPlan, Room, HasRoom, Spends};
ghost use Rattle.crash_disk.specs.Calls.{WhereTold, Called, IsStill};

use plasma_base::NoMemory;
use thiserror::Error;

/// A disk failed, and counted it.
#[derive(Debug, Clone, Copy, PartialEq, Eq, Error)]
#[error("the disk failed")]
pub struct DiskFailed;

/// A disk: one row of bytes that grows at its end. A crash may tear what was written since the last
/// sync that succeeded: each written range, and the part past the old end, may then hold any bytes, and
/// the length may be any from the old to the new. A write that failed counts as written.
///
/// A disk that can't say what it holds, as a file, tells no history. What its calls answer is then
/// known only where they fail. One that can't say which of its calls will fail foretells nothing. Each
/// call that fails counts one fault, and no other call any.
pub trait Disk {
    /// The image that the disk began with and the device calls since, where it tells them. What it
    /// holds and what a crash may leave are functions of these.
    ghost told: { Self → Option History };

    /// Which device calls to come fail, where it foretells them.
    ghost plan: { Self → Option FaultPlan };

    /// How often the disk has failed; it stops at `u64::MAX`.
    ghost faults: { Self → ℕ };

    /// The room left for further device calls.
    ghost left: { Self → Room };

    /// The number of bytes. A device call.
    fn len(&mut self) -> Result<u64, DiskFailed>
        requires { HasRoom (left self.old) 0 }
        ensures answer { IfOk result (λ len. WhereTold (told self.old) (λ history. len ≡ length (content history))) }
        ensures called { Called told plan asks_length (is_err result) self.old self.new }
        ensures cause { faults self.new ≡ faults_after (faults self.old) (is_err result) }
        ensures spent { Spends (left self.old) (left self.new) 0 };

    /// Fills `room` with the bytes from `place` on, which lie within the length. A device call.
    fn read_at(&mut self, place: u64, room: &mut [u8]) -> Result<(), DiskFailed>
        requires room { HasRoom (left self.old) 0 }
        requires within { WhereTold (told self.old) (λ history. place + length room.old ≤ length (content history)) }
        ensures answer { OnOk result (WhereTold (told self.old)
            (λ history. room.new ≡ take (length room.old) (drop place (content history)))) }
        ensures called { Called told plan (reads place (length room.old)) (is_err result) self.old self.new }
        ensures cause { faults self.new ≡ faults_after (faults self.old) (is_err result) }
        ensures spent { Spends (left self.old) (left self.new) 0 };

    /// Writes over what is there and past the end, from a place that is at most the length. A write that
    /// ends past the greatest place fails. A device call.
    fn write_at(&mut self, place: u64, bytes: &[u8]) -> Result<(), DiskFailed>
        requires room { HasRoom (left self.old) (length bytes.now) }
        requires within { WhereTold (told self.old) (λ history. place ≤ length (content history)) }
        ensures fits { OnOk result (place + length bytes.now < 2 ^ 64) }
        ensures called { Called told plan (writes place bytes.now) (is_err result) self.old self.new }
        ensures cause { faults self.new ≡ faults_after (faults self.old) (is_err result) }
        ensures spent { Spends (left self.old) (left self.new) (length bytes.now) };

    /// After it succeeds a crash leaves what the disk holds. A device call.
    fn sync(&mut self) -> Result<(), DiskFailed>
        requires { HasRoom (left self.old) 0 }
        ensures called { Called told plan syncs (is_err result) self.old self.new }
        ensures cause { faults self.new ≡ faults_after (faults self.old) (is_err result) }
        ensures spent { Spends (left self.old) (left self.new) 0 };

    /// Takes the memory for so many further device calls, which write so many bytes in all, or answers
    /// `NoMemory`, which it never does where that room is left. The room that is left stays. It is no
    /// device call.
    fn make_room(&mut self, calls: u64, bytes: u64) -> Result<(), NoMemory>
        ensures calls { OnOk result (calls ≤ (left self.new).calls) }
        ensures bytes { OnOk result (bytes ≤ (left self.new).bytes) }
        ensures calls_stay { (left self.old).calls ≤ (left self.new).calls }
        ensures bytes_stay { (left self.old).bytes ≤ (left self.new).bytes }
        ensures still { IsStill told plan faults self.old self.new }
        ensures err { OnErr result (self.new ≡ self.old) }
        ensures there { calls ≤ (left self.old).calls → bytes ≤ (left self.old).bytes → is_err result ≡ false };
}
