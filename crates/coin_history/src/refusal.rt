ghost use Rattle.std.specs.Prelude.{◌≡◌};

use plasma_base::NoMemory;
use thiserror::Error;

/// Why bytes are no bundle, or a bundle shows no history of its coin.
#[derive(Debug, Clone, Copy, PartialEq, Eq, Error)]
pub enum HistoryRefusal {
    /// The bytes spell no bundle. The place is that of the first field that runs past the end, or of the
    /// first block number that isn't greater than the one before, or of the first byte after the items.
    #[error("bad bundle {place}")]
    BadBundle { place: u64 },
    /// The log has no such coin.
    #[error("no coin")]
    NoCoin,
    /// The tip, or the block that an opening names, isn't one that is asked for.
    #[error("unknown block {n}")]
    UnknownBlock { n: u64 },
    /// The block has to be opened and isn't.
    #[error("missing block {n}")]
    MissingBlock { n: u64 },
    /// The opening of the block doesn't read, or doesn't open the block's root at the coin.
    #[error("bad opening {n}")]
    BadOpening { n: u64 },
    /// What the block has at the coin isn't a transfer of that block, with this tag and coin, that spends
    /// the last link; or the block is the tip and has nothing there.
    #[error("not a link {n}")]
    NotLink { n: u64 },
    /// The owner after the last link didn't sign the transfer in the block.
    #[error("bad signature {n}")]
    BadSignature { n: u64 },
    /// The block has something at the coin.
    #[error("not absent {n}")]
    NotAbsent { n: u64 },
    /// Memory ran out.
    #[error("no memory")]
    NoMemory,
}

impl From<NoMemory> for HistoryRefusal {
    ghost use Rattle.coin_history.specs.declared.refusal.HistoryRefusal.{HistoryRefusal};

    ghost from_gives = { λ _ refusal. refusal ≡ HistoryRefusal.NoMemory };

    fn from(_error: NoMemory) -> HistoryRefusal {
        HistoryRefusal::NoMemory
    }
}
