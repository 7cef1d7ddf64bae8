ghost use Rattle.std.specs.Prelude.{◌≡◌};

use line_forms::LineRefusal;
use plasma_base::NoMemory;
use thiserror::Error;

/// Why a line isn't read into a log.
#[derive(Debug, Clone, Copy, PartialEq, Eq, Error)]
pub enum LogRefusal {
    /// The line isn't in the log's grammar.
    #[error("bad event")]
    BadEvent,
    /// Memory ran out.
    #[error("no memory")]
    NoMemory,
}

impl From<NoMemory> for LogRefusal {
    ghost use Rattle.root_log.specs.declared.refusal.LogRefusal.{LogRefusal};

    ghost from_gives = { λ _ refusal. refusal ≡ LogRefusal.NoMemory };

    fn from(_error: NoMemory) -> LogRefusal {
        LogRefusal::NoMemory
    }
}

impl From<LineRefusal> for LogRefusal {
    ghost use Rattle.root_log.specs.Refusals.{refusal_of};

    ghost from_gives = { λ refusal result. result ≡ refusal_of refusal };

    fn from(refusal: LineRefusal) -> LogRefusal {
        match refusal {
            LineRefusal::BadLine => LogRefusal::BadEvent,
            LineRefusal::NoMemory => LogRefusal::NoMemory,
        }
    }
}
