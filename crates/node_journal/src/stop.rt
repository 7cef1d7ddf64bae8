use plasma_base::NoMemory;
use std::alloc::AllocError;
use thiserror::Error;

/// What stopped a call of a node, whatever its definition says.
#[derive(Debug, Clone, Copy, PartialEq, Eq, Error)]
pub enum Stop {
    /// A device fault closed the node in an earlier call; nothing changed.
    #[error("closed")]
    Closed,
    /// Memory ran out; nothing changed.
    #[error("no memory")]
    NoMemory,
    /// A device call failed, which closes the node.
    #[error("device fault")]
    DeviceFault,
}

impl From<NoMemory> for Stop {
    ghost use Rattle.std.specs.Prelude.{◌≡◌};
    ghost use Rattle.node_journal.specs.declared.stop.Stop.{Stop};

    ghost from_gives = { λ _ stop. stop ≡ Stop.NoMemory };

    fn from(_error: NoMemory) -> Stop {
        Stop::NoMemory
    }
}

impl From<AllocError> for Stop {
    ghost use Rattle.std.specs.Prelude.{◌≡◌};
    ghost use Rattle.node_journal.specs.declared.stop.Stop.{Stop};

    ghost from_gives = { λ _ stop. stop ≡ Stop.NoMemory };

    fn from(_error: AllocError) -> Stop {
        Stop::NoMemory
    }
}
