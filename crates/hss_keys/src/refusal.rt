use plasma_base::NoMemory;
use thiserror::Error;

/// Why a call of a two-level signer was refused. A refusal other than `DeviceFault` changed nothing.
#[derive(Debug, Clone, Copy, PartialEq, Eq, Error)]
pub enum LevelRefusal {
    /// A device call failed in an earlier call.
    #[error("closed")]
    Closed,
    /// The last bottom key has leaves left; so many are bound.
    #[error("level open, used {used}")]
    LevelOpen { used: u32 },
    /// No bottom key was opened, or the last one has no leaf left; so many were opened.
    #[error("level spent, levels {levels}")]
    LevelSpent { levels: u32 },
    /// Every top leaf signed its bottom key, in all so many.
    #[error("key spent, used {used}")]
    KeySpent { used: u32 },
    /// Memory ran out.
    #[error("no memory")]
    NoMemory,
    /// A device call failed, which closes the signer. The record may be kept or not.
    #[error("device fault")]
    DeviceFault,
}

impl From<NoMemory> for LevelRefusal {
    ghost use Rattle.std.specs.Prelude.{◌≡◌};
    ghost use Rattle.hss_keys.specs.declared.refusal.LevelRefusal.{LevelRefusal};

    ghost from_gives = { λ _ refusal. refusal ≡ LevelRefusal.NoMemory };

    fn from(_error: NoMemory) -> LevelRefusal {
        LevelRefusal::NoMemory
    }
}
