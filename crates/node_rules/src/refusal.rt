use coin_history::HistoryRefusal;
use thiserror::Error;

/// Why a command of a wallet isn't done.
#[derive(Debug, Clone, Copy, PartialEq, Eq, Error)]
pub enum WalletRefusal {
    /// The bundle isn't one, or isn't a history of its coin, or doesn't show the coin absent.
    #[error("{why}")]
    History { why: HistoryRefusal },
    /// The last owner isn't this wallet.
    #[error("not mine")]
    NotMine,
    /// The coin is withdrawn.
    #[error("withdrawn")]
    Withdrawn,
    /// An exit of the coin stands; the first in the order of starts is at this block.
    #[error("exit stands at {block}")]
    ExitStands { block: u64 },
    /// The record would have more than 2^24 bytes.
    #[error("note too long: {length}")]
    NoteTooLong { length: u64 },
    /// The wallet doesn't have the coin, or is sending it.
    #[error("not held")]
    NotHeld,
    /// The wallet is leaving with the coin.
    #[error("leaving")]
    Leaving,
    /// Every leaf of the key is bound.
    #[error("key spent: {used}")]
    KeySpent { used: u32 },
    /// The last block is there already: so many blocks are.
    #[error("bad last block: there are {blocks}")]
    BadLast { blocks: u64 },
    /// The journal of leaves has no marker, behind which a message may have a last block.
    #[error("old journal")]
    OldJournal,
    /// The journal of leaves has the marker.
    #[error("already new")]
    AlreadyNew,
    /// No leaf names the coin, or the coin isn't one that the wallet is sending.
    #[error("not sending")]
    NotSending,
    /// The transfer has no last block.
    #[error("no last block")]
    NoLast,
    /// The log has fewer blocks than the transfer's last.
    #[error("not yet: the last block is {last}")]
    NotYet { last: u64 },
    /// A disk failed in this call.
    #[error("device fault")]
    DeviceFault,
    /// A disk failed in an earlier call.
    #[error("closed")]
    Closed,
    /// Memory ran out.
    #[error("no memory")]
    NoMemory,
}

/// Why a command of a watcher isn't done.
#[derive(Debug, Clone, Copy, PartialEq, Eq, Error)]
pub enum WatcherRefusal {
    /// The bundle isn't one, or isn't a history of its coin.
    #[error("{why}")]
    History { why: HistoryRefusal },
    /// The coin is withdrawn.
    #[error("withdrawn")]
    Withdrawn,
    /// An exit of the coin stands; the first in the order of starts is at this block.
    #[error("exit stands at {block}")]
    ExitStands { block: u64 },
    /// The record would have more than 2^24 bytes.
    #[error("note too long: {length}")]
    NoteTooLong { length: u64 },
    /// No guard of this coin with this tip is kept.
    #[error("no guard")]
    NoGuard,
    /// The disk failed in this call.
    #[error("device fault")]
    DeviceFault,
    /// The disk failed in an earlier call.
    #[error("closed")]
    Closed,
    /// Memory ran out.
    #[error("no memory")]
    NoMemory,
}
