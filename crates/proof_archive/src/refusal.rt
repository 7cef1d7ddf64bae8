ghost use Rattle.std.specs.Prelude.{◌≡◌};

use plasma_base::NoMemory;
use thiserror::Error;

/// Why an archive doesn't keep an opening, or has no bundle.
#[derive(Debug, Clone, Copy, PartialEq, Eq, Error)]
pub enum ArchiveRefusal {
    /// The log has no such coin.
    #[error("no coin")]
    NoCoin,
    /// The block isn't a committed one after the coin's deposit.
    #[error("unknown block {n}")]
    UnknownBlock { n: u64 },
    /// An opening of the block is kept.
    #[error("have block {n}")]
    HaveBlock { n: u64 },
    /// The lowest committed block after the deposit and before the opening's of which none is kept.
    #[error("gap {n}")]
    Gap { n: u64 },
    /// The opening of the block doesn't read, or doesn't open the block's root at the coin.
    #[error("bad opening {n}")]
    BadOpening { n: u64 },
    /// The tip is neither the deposit block nor the block of a kept link.
    #[error("not a tip {tip}")]
    NotTip { tip: u64 },
    /// Memory ran out.
    #[error("no memory")]
    NoMemory,
}

impl From<NoMemory> for ArchiveRefusal {
    ghost use Rattle.proof_archive.specs.declared.refusal.ArchiveRefusal.{ArchiveRefusal};

    ghost from_gives = { λ _ refusal. refusal ≡ ArchiveRefusal.NoMemory };

    fn from(_error: NoMemory) -> ArchiveRefusal {
        ArchiveRefusal::NoMemory
    }
}
