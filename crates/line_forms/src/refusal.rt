ghost use Rattle.std.specs.Prelude.{◌≡◌};

use plasma_base::HexRefusal;
use std::alloc::AllocError;
use thiserror::Error;

/// Why words aren't read as what they are to spell.
#[derive(Debug, Clone, Copy, PartialEq, Eq, Error)]
pub enum LineRefusal {
    /// The words are in no form's grammar.
    #[error("bad line")]
    BadLine,
    /// Memory ran out.
    #[error("no memory")]
    NoMemory,
}

impl From<AllocError> for LineRefusal {
    ghost use Rattle.line_forms.specs.declared.refusal.LineRefusal.{LineRefusal};

    ghost from_gives = { λ _ refusal. refusal ≡ LineRefusal.NoMemory };

    fn from(_error: AllocError) -> LineRefusal {
        LineRefusal::NoMemory
    }
}

impl From<HexRefusal> for LineRefusal {
    ghost use Rattle.line_forms.specs.Refusals.{line_refusal};

    ghost from_gives = { λ refusal result. result ≡ line_refusal refusal };

    fn from(refusal: HexRefusal) -> LineRefusal {
        match refusal {
            HexRefusal::BadHex => LineRefusal::BadLine,
            HexRefusal::NoMemory => LineRefusal::NoMemory,
        }
    }
}
