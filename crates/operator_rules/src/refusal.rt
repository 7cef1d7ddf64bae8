use thiserror::Error;

/// Why an offered transfer isn't put into the pool.
#[derive(Debug, Clone, Copy, PartialEq, Eq, Error)]
pub enum OfferRefusal {
    /// The bytes spell no signed transfer of this chain.
    #[error("not a transfer")]
    NotTransfer,
    /// The log has no such coin.
    #[error("no coin")]
    NoCoin,
    /// The transfer spends another block than the coin's present tip.
    #[error("wrong parent: the tip is {tip}")]
    WrongParent { tip: u64 },
    /// The tip's owner didn't sign the transfer.
    #[error("bad signature")]
    BadSignature,
    /// The transfer's last block is there already.
    #[error("too late: the last block is {last}")]
    TooLate { last: u64 },
    /// The pool has a leaf of the coin, or a sealed tree has one whose root isn't committed.
    #[error("the pool has the coin")]
    PoolHasCoin,
    /// The disk failed in this call.
    #[error("device fault")]
    DeviceFault,
    /// The disk failed in an earlier call.
    #[error("closed")]
    Closed,
    /// Memory ran out.
    #[error("no memory")]
    NoMemory,
}

/// Why bytes aren't laid.
#[derive(Debug, Clone, Copy, PartialEq, Eq, Error)]
pub enum LayRefusal {
    /// There are more than 65,536 bytes.
    #[error("leaf too long: {length}")]
    LeafTooLong { length: u64 },
    /// The disk failed in this call.
    #[error("device fault")]
    DeviceFault,
    /// The disk failed in an earlier call.
    #[error("closed")]
    Closed,
    /// Memory ran out.
    #[error("no memory")]
    NoMemory,
}

/// Why the pool isn't sealed.
#[derive(Debug, Clone, Copy, PartialEq, Eq, Error)]
pub enum SealRefusal {
    /// The disk failed in this call.
    #[error("device fault")]
    DeviceFault,
    /// The disk failed in an earlier call.
    #[error("closed")]
    Closed,
    /// Memory ran out.
    #[error("no memory")]
    NoMemory,
}

/// Why no opening, or no bundle of openings, is made.
#[derive(Debug, Clone, Copy, PartialEq, Eq, Error)]
pub enum ProveRefusal {
    /// The log has no such coin.
    #[error("no coin")]
    NoCoin,
    /// The block isn't one that can be asked for, or its tree isn't known.
    #[error("unknown block {n}")]
    UnknownBlock { n: u64 },
    /// Memory ran out.
    #[error("no memory")]
    NoMemory,
}
