ghost use Rattle.std.specs.Prelude.{◌≡◌};

use plasma_base::NoMemory;
use thiserror::Error;

/// Why a line has no step.
#[derive(Debug, Clone, Copy, PartialEq, Eq, Error)]
pub enum StepRefusal {
    /// It breaks a rule of declarations. The world stays as it was.
    #[error("the line breaks a rule of declarations")]
    BadLine,
    /// All mail items together have more than 268,435,456 bytes. Nothing is said of the world then.
    #[error("there is too much mail")]
    MailFull,
    /// Memory ran out. Nothing is said of the world then.
    #[error("memory ran out")]
    NoMemory,
}

impl From<NoMemory> for StepRefusal {
    ghost use Rattle.world_scene.specs.declared.refusal.StepRefusal.{StepRefusal};

    ghost from_gives = { λ _ refusal. refusal ≡ StepRefusal.NoMemory };

    fn from(_error: NoMemory) -> StepRefusal {
        StepRefusal::NoMemory
    }
}
