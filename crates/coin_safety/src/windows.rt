ghost use Rattle.std.specs.Prelude.{◌≡◌, ◌++◌, ◌∷◌, [], ℕ, min, List, Some};
ghost use Rattle.std.specs.Option.{option_map_or, option_to_list};
ghost use Rattle.plasma_tx.specs.ChallengeLists.{is_challenged};
ghost use Rattle.coin_safety.specs.Numbers.{later, least};
ghost use Rattle.coin_safety.specs.Words.{answer_ends, ends_of, come};

use plasma_tx::{CHALLENGE_WINDOW, ChallengeView, ExitView, RESPONSE_WINDOW};

/// The last second that a number of 64 bits can be.
pub const LAST_SECOND: u64 = 18_446_744_073_709_551_615;

/// The time so many seconds later, or the last second.
pub(crate) fn later(time: u64, seconds: u64) -> u64
    ensures { result ≡ later time seconds }
{
    time.saturating_add(seconds)
}

/// The least of one number and of those of which the least is known.
#[tactic(auto, unfolding(crate::specs::Numbers::least))]
pub(crate) fn lesser(first: Option<u64>, number: u64) -> u64
    ensures { result ≡ option_map_or (min number) first number }
{
    match first {
        None => number,
        Some(known) => number.min(known),
    }
}

/// The first of these ends, and of those of which the first is known.
pub(crate) fn first_answer_end(first: Option<u64>, challenges: &[ChallengeView]) -> Option<u64>
    ensures { result ≡ least (option_to_list first ++ answer_ends challenges.now) }
{
    let mut first = first;
    for challenge in challenges {
        if !challenge.answered {
            first = Some(lesser(first, later(challenge.at, RESPONSE_WINDOW)));
        }
    }
    first
}

/// The same of the ends of an exit's windows, where the coin is kept at that block.
pub(crate) fn first_exit_end(first: Option<u64>, at: u64, exit: &ExitView) -> Option<u64>
    ensures { result ≡ least (option_to_list first ++ ends_of at exit.now) }
{
    let challenges = exit.challenges.as_slice();
    if exit.block == at {
        return first_answer_end(first, challenges);
    }
    if is_challenged(at, challenges) {
        return first;
    }
    Some(lesser(first, later(exit.start, CHALLENGE_WINDOW)))
}

/// Whether one of the challenges is at the block.
pub(crate) fn is_challenged(block: u64, challenges: &[ChallengeView]) -> bool
    ensures { result ≡ is_challenged block challenges.now }
{
    challenges.iter().any(|challenge| challenge.block == block)
}

/// The end, where it has come by the clock.
pub(crate) fn come(clock: u64, end: Option<u64>) -> Option<u64>
    ensures { result ≡ come clock end }
{
    match end {
        Some(time) if time <= clock => Some(time),
        _ => None,
    }
}
