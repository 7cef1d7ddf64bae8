use plasma_tx::RootCall;

/// What is said of a coin.
#[derive(Clone, Copy, PartialEq, Eq)]
pub enum Word {
    /// It is held, and nothing is due; so it stays till then without another look.
    Safe { until: u64 },
    /// Calls are to be entered: the first at the latest by then, and so much money is missing to enter them all.
    Act { by: u64, missing: u64 },
    /// This leaf signed it away.
    Sent { leaf: u32 },
    /// The holder's exit stands, and may be finished from then on.
    Leaving { opens: u64 },
    /// It was paid out to its holder.
    Paid,
    /// It was paid out by an exit of this account, in this line of the log's file.
    Gone { account: u64, line: u64 },
    /// A window ended then, and nobody had done what was due.
    Late { since: u64 },
    /// It was signed away, and an exit keeps it from being accepted.
    Frozen,
    /// The log is too old to tell.
    Stale,
}

/// What a node is to be told beside the calls.
#[derive(Clone, Copy, PartialEq, Eq)]
pub enum Command {
    /// The guard is of a block that the coin has left: a watcher's `release` of the coin and that block.
    Release,
    /// The last block of the transfer by which the coin was signed away has come, and nothing shows that it went
    /// through: a wallet's `reclaim`, with a bundle of absences up to that block.
    Reclaim { last: u64 },
}

/// The word, the calls to enter, in their order, and what to tell the node.
#[derive(Drop)]
pub struct Judgement {
    pub word: Word,
    pub calls: Vec<RootCall>,
    pub command: Option<Command>,
}
