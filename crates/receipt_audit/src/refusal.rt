use operator_rules::OfferRefusal;
use thiserror::Error;

/// Why nobody is convicted.
#[derive(Debug, Clone, Copy, PartialEq, Eq, Error)]
pub enum AuditRefusal {
    /// The receipt has under 100 bytes, or begins with another mark or another tag.
    #[error("bad receipt")]
    BadReceipt,
    /// The key's types are no supported pair.
    #[error("bad key")]
    BadKey,
    /// The signature isn't valid under the key over the promise.
    #[error("not signed")]
    NotSigned,
    /// The due block isn't there yet.
    #[error("not yet: due {due}")]
    NotYet { due: u64 },
    /// The bytes spell no bundle, for what stands at that place.
    #[error("bad bundle {place}")]
    BadBundle { place: u64 },
    /// The bundle is of another coin than the promise.
    #[error("other coin {coin}")]
    OtherCoin { coin: u64 },
    /// The bundle's tip isn't the due block, or an opening's block isn't one that is asked for.
    #[error("unknown block {n}")]
    UnknownBlock { n: u64 },
    /// The block has to be opened and isn't.
    #[error("missing block {n}")]
    MissingBlock { n: u64 },
    /// The opening of the block doesn't read, or doesn't open the block's root at the coin.
    #[error("bad opening {n}")]
    BadOpening { n: u64 },
    /// The block has the promised transfer.
    #[error("honoured {n}")]
    Honoured { n: u64 },
    /// Memory ran out.
    #[error("no memory")]
    NoMemory,
}

/// Why no receipt was issued.
#[derive(Debug, Clone, Copy, PartialEq, Eq, Error)]
pub enum IssueRefusal {
    /// The due block is there already: there are so many blocks.
    #[error("bad due: there are {blocks} blocks")]
    BadDue { blocks: u64 },
    /// The desk's journal has no marker yet.
    #[error("old journal")]
    OldJournal,
    /// Every leaf of the desk is bound, in all so many.
    #[error("key spent, used {used}")]
    KeySpent { used: u32 },
    /// The operator doesn't take the transfer.
    #[error("{why}")]
    Offer { why: OfferRefusal },
    /// The desk's disk failed in this call.
    #[error("device fault")]
    DeviceFault,
    /// The desk's disk failed in an earlier call.
    #[error("closed")]
    Closed,
    /// Memory ran out.
    #[error("no memory")]
    NoMemory,
}
