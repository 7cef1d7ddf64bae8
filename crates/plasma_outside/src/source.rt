ghost use Rattle.std.specs.Prelude.{◌≡◌, ◌<◌, ℕ, Bool, List, length, Option, is_err};
ghost use Rattle.std.specs.Io.{ReadsAtMost};
ghost use Rattle.plasma_base.specs.Causes.{faults_after};
ghost use Rattle.plasma_outside.specs.Outside.{Takes, ends_after, given_by};

use thiserror::Error;

/// A source failed, and counted it.
#[derive(Debug, Clone, Copy, PartialEq, Eq, Error)]
#[error("the source failed")]
pub struct SourceFailed;

/// An input that is read from the front.
pub trait Source {
    /// The bytes that are left, where the source tells them.
    ghost left: { Self → Option (List ℕ) };

    /// How often the source has failed; it stops at `u64::MAX`.
    ghost faults: { Self → ℕ };

    /// How many takes gave the end of the input; it stops at `u64::MAX`.
    ghost ends: { Self → ℕ };

    /// Whether the last take failed.
    ghost failed_last: { Self → Bool };

    /// How many bytes the last take gave: 0 where it gave the end or failed.
    ghost given_last: { Self → ℕ };

    /// Takes the next bytes into a beginning of `room`, which isn't empty, and answers how many: 0
    /// only at the end of the input. `SourceFailed` takes nothing and counts one fault; where bytes
    /// or the end are answered, the count stays.
    fn take(&mut self, room: &mut [u8]) -> Result<usize, SourceFailed>
        requires { 0 < length room.old }
        ensures bound { ReadsAtMost result room.new }
        ensures bytes { Takes (left self.old) (left self.new) result room.new }
        ensures cause { faults self.new ≡ faults_after (faults self.old) (is_err result) }
        ensures end { ends self.new ≡ ends_after (ends self.old) result }
        ensures last { failed_last self.new ≡ is_err result }
        ensures given { given_last self.new ≡ given_by result };
}
