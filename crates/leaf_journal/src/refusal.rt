use thiserror::Error;

/// Why a message wasn't bound to a leaf. A refusal other than `DeviceFault` changed nothing.
#[derive(Debug, Clone, Copy, PartialEq, Eq, Error)]
pub enum BindRefusal {
    /// Every leaf is bound, in all so many.
    #[error("key spent, used {used}")]
    KeySpent { used: u32 },
    /// A device call failed. The message may be kept or not.
    #[error("device fault")]
    DeviceFault,
    /// A device call failed in an earlier call.
    #[error("closed")]
    Closed,
}

/// Why the marker wasn't added. A refusal other than `DeviceFault` changed nothing.
#[derive(Debug, Clone, Copy, PartialEq, Eq, Error)]
pub enum MigrateRefusal {
    /// The marker is there.
    #[error("already new")]
    AlreadyNew,
    /// A device call failed. The marker may be kept or not.
    #[error("device fault")]
    DeviceFault,
    /// A device call failed in an earlier call.
    #[error("closed")]
    Closed,
}
