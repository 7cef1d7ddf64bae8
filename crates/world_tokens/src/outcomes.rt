ghost use Rattle.std.specs.Prelude.{◌≡◌, IfOk};
ghost use Rattle.world_rules.specs.Steps.{outcome_of};

use crash_disk::Outcome;
use line_forms::OutcomeToken;
use plasma_base::{Bytes, NoMemory};
use std::alloc::Global;

/// What a token says that a crash leaves, or `NoMemory`.
pub fn outcome_of(alloc: Global, token: &OutcomeToken) -> Result<Outcome, NoMemory>
    ensures { IfOk result (λ outcome. outcome ≡ outcome_of token.now) }
{
    Ok(match token {
        OutcomeToken::Old => Outcome::Old,
        OutcomeToken::New => Outcome::New,
        OutcomeToken::Mix { extra, bytes } => Outcome::Mix {
            extra: *extra,
            bytes: Bytes::from_vec(Vec::from_slice(alloc, bytes.as_slice())?),
        },
    })
}
