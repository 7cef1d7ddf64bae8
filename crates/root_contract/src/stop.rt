ghost use Rattle.std.specs.Prelude.{◌≡◌};
ghost use Rattle.root_contract.specs.Judging.{answer_of};

use plasma_base::NoMemory;
use plasma_tx::{Answer, Refusal};

/// Why a call isn't carried out.
#[derive(Debug, Clone, Copy, PartialEq, Eq)]
pub enum Stop {
    /// It is refused.
    Refused(Refusal),
    /// Memory ran out.
    NoMemory,
}

impl From<NoMemory> for Stop {
    ghost use Rattle.root_contract.specs.declared.stop.Stop.{Stop};

    ghost from_gives = { λ _ stop. stop ≡ Stop.NoMemory };

    fn from(_error: NoMemory) -> Stop {
        Stop::NoMemory
    }
}

// The answer of a call that was taken, or wasn't.
pub fn answer_of(taken: Result<Answer, Stop>) -> Answer
    ensures { result ≡ answer_of taken }
{
    match taken {
        Ok(answer) => answer,
        Err(Stop::Refused(why)) => Answer::Refused(why),
        Err(Stop::NoMemory) => Answer::NoMemory,
    }
}
