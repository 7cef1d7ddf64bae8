ghost use Rattle.std.specs.Prelude.{◌≡◌, ℕ, Bool, true, List, Option, Err};
ghost use Rattle.plasma_base.specs.Causes.{faults_after};
ghost use Rattle.plasma_outside.specs.declared.sink.SinkRefusal.{SinkRefusal};
ghost use Rattle.plasma_outside.specs.Outside.{Puts, is_failed};

use plasma_base::NoMemory;
use std::alloc::AllocError;
use thiserror::Error;

/// Why a sink didn't take all bytes.
#[derive(Debug, Clone, Copy, PartialEq, Eq, Error)]
pub enum SinkRefusal {
    /// The sink failed, and counted it.
    #[error("the sink failed")]
    Failed,
    /// Memory ran out.
    #[error("no memory")]
    NoMemory,
}

impl From<AllocError> for SinkRefusal {
    ghost use Rattle.std.specs.Prelude.{◌≡◌};
    ghost use Rattle.plasma_outside.specs.declared.sink.SinkRefusal.{SinkRefusal};

    ghost from_gives = { λ _ refusal. refusal ≡ SinkRefusal.NoMemory };

    fn from(_error: AllocError) -> SinkRefusal {
        SinkRefusal::NoMemory
    }
}

impl From<NoMemory> for SinkRefusal {
    ghost use Rattle.std.specs.Prelude.{◌≡◌};
    ghost use Rattle.plasma_outside.specs.declared.sink.SinkRefusal.{SinkRefusal};

    ghost from_gives = { λ _ refusal. refusal ≡ SinkRefusal.NoMemory };

    fn from(_error: NoMemory) -> SinkRefusal {
        SinkRefusal::NoMemory
    }
}

/// An output that is written at its end.
pub trait Sink {
    /// The bytes that the sink has taken, where it tells them.
    ghost taken: { Self → Option (List ℕ) };

    /// How often the sink has failed; it stops at `u64::MAX`.
    ghost faults: { Self → ℕ };

    /// Whether it takes memory, so that it may answer `NoMemory`.
    ghost takes_memory: { Bool } = { true };

    /// Puts all bytes at the end, or stops after a beginning of them. `Failed` counts one fault, and
    /// at any other answer the count stays. A sink that takes no memory never answers `NoMemory`.
    fn put_all(&mut self, bytes: &[u8]) -> Result<(), SinkRefusal>
        ensures bytes { Puts (taken self.old) (taken self.new) result bytes.now }
        ensures cause { faults self.new ≡ faults_after (faults self.old) (is_failed result) }
        ensures memory { result ≡ Err SinkRefusal.NoMemory → takes_memory ≡ true };
}
