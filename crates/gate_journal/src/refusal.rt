use crash_disk::DiskFailed;
use std::alloc::{AllocError, AllocFailed};
use thiserror::Error;

/// Why a call of a journal was refused. A refusal other than `DeviceFault` changed nothing.
#[derive(Debug, Clone, Copy, PartialEq, Eq, Error)]
pub enum JournalRefusal {
    /// The disk holds a journal, or more than five bytes.
    #[error("already made, length {length}")]
    AlreadyMade { length: u64 },
    /// The image is no journal: 0 where it doesn't begin with the mark, else the place of the first gate
    /// that is missing, or whose record runs past the end or is too long. A crate above that reads its
    /// own kind of records gives the gate of the first one that isn't.
    #[error("not a journal at {place}")]
    NotJournal { place: u64 },
    /// The body has more than 2^24 bytes.
    #[error("record too long, length {length}")]
    RecordTooLong { length: u64 },
    /// A device call failed.
    #[error("device fault")]
    DeviceFault,
    /// A device call of this journal failed before.
    #[error("closed")]
    Closed,
    /// Memory ran out.
    #[error("no memory")]
    NoMemory,
}

impl From<DiskFailed> for JournalRefusal {
    ghost use Rattle.std.specs.Prelude.{◌≡◌};
    ghost use Rattle.gate_journal.specs.declared.refusal.JournalRefusal.{JournalRefusal};

    ghost from_gives = { λ _ refusal. refusal ≡ JournalRefusal.DeviceFault };

    fn from(_error: DiskFailed) -> JournalRefusal {
        JournalRefusal::DeviceFault
    }
}

impl From<plasma_base::NoMemory> for JournalRefusal {
    ghost use Rattle.std.specs.Prelude.{◌≡◌};
    ghost use Rattle.gate_journal.specs.declared.refusal.JournalRefusal.{JournalRefusal};

    ghost from_gives = { λ _ refusal. refusal ≡ JournalRefusal.NoMemory };

    fn from(_error: plasma_base::NoMemory) -> JournalRefusal {
        JournalRefusal::NoMemory
    }
}

impl From<AllocError> for JournalRefusal {
    ghost use Rattle.std.specs.Prelude.{◌≡◌};
    ghost use Rattle.gate_journal.specs.declared.refusal.JournalRefusal.{JournalRefusal};

    ghost from_gives = { λ _ refusal. refusal ≡ JournalRefusal.NoMemory };

    fn from(_error: AllocError) -> JournalRefusal {
        JournalRefusal::NoMemory
    }
}

impl<T: Drop> From<AllocFailed<T>> for JournalRefusal {
    ghost use Rattle.std.specs.Prelude.{◌≡◌};
    ghost use Rattle.gate_journal.specs.declared.refusal.JournalRefusal.{JournalRefusal};

    ghost from_gives = { λ _ refusal. refusal ≡ JournalRefusal.NoMemory };

    fn from(_error: AllocFailed<T>) -> JournalRefusal {
        JournalRefusal::NoMemory
    }
}

/// Why a node's journal wasn't begun.
#[derive(Debug, Clone, Copy, PartialEq, Eq, Error)]
pub enum InitRefusal {
    /// The disk holds a journal, or more than five bytes.
    #[error("already made, length {length}")]
    AlreadyMade { length: u64 },
    /// A device call failed.
    #[error("device fault")]
    DeviceFault,
    /// Memory ran out.
    #[error("no memory")]
    NoMemory,
}

/// A disk that wasn't opened, and why.
#[derive(Drop)]
pub struct Returned<D> {
    pub disk: D,
    pub why: JournalRefusal,
}
