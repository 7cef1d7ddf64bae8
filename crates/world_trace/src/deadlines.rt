ghost use Rattle.std.specs.Prelude.{◌≡◌, ◌+◌, IfOk};
ghost use Rattle.std.specs.List.{list_any};
ghost use Rattle.plasma_tx.specs.declared.call.RootCall.{RootCall};
ghost use Rattle.plasma_tx.specs.Views.{now};
ghost use Rattle.world_rules.specs.Events.{Joins};
ghost use Rattle.world_rules.specs.Safety.{is_met, meets_deadline};
ghost use Rattle.coin_verdicts.specs.Facts.{AreThose};
ghost use Rattle.world_trace.specs.Deadlines.{meets_challenge_view, meets_exit_view};

use plasma_base::NoMemory;
use plasma_tx::{CHALLENGE_WINDOW, ChallengeView, ExitView, RESPONSE_WINDOW, RootLog};
use std::alloc::Global;

// Whether a tick from one time to another meets the end of a window that began at a time.
fn is_met(before: u64, after: u64, begun: u64, window: u64) -> bool
    ensures { result ≡ is_met before after (begun + window) }
{
    let is_open = before < window || before - window < begun;
    is_open && window <= after && begun <= after - window
}

// Whether it meets the end of the time in which the open challenge may be answered.
fn meets_challenge(before: u64, after: u64, challenge: &ChallengeView) -> bool
    ensures { result ≡ meets_challenge_view before after challenge.now }
{
    !challenge.answered && is_met(before, after, challenge.at, RESPONSE_WINDOW)
}

// Whether it meets that end for one of the challenges.
fn meets_challenges(before: u64, after: u64, challenges: &[ChallengeView]) -> bool
    ensures { result ≡ list_any (meets_challenge_view before after) challenges.now }
{
    challenges
        .iter()
        .any(|challenge| meets_challenge(before, after, challenge))
}

// Whether it meets the end of the time in which the exit may be challenged, or that of an open challenge on it.
fn meets_exit(before: u64, after: u64, exit: &ExitView) -> bool
    ensures { result ≡ meets_exit_view before after exit.now }
{
    is_met(before, after, exit.start, CHALLENGE_WINDOW)
        || meets_challenges(before, after, exit.challenges.as_slice())
}

// Whether it meets such an end for one of the exits.
fn meets_exits(before: u64, after: u64, exits: &[ExitView]) -> bool
    ensures { result ≡ list_any (meets_exit_view before after) exits.now }
{
    exits.iter().any(|exit| meets_exit(before, after, exit))
}

// Whether a tick to a time meets a deadline of the coin.
#[tactic(auto, using(crate::proofs::Ticks::met_views))]
fn meets_deadline(log: &RootLog, coin: u64, time: u64) -> bool
    ensures { result ≡ meets_deadline log.now.log coin (Joins (RootCall.Tick time)) }
{
    meets_exits(log.now(), time, log.exits(coin))
}

/// The coins with a deadline that a tick to this time meets, each once and rising. A tick that doesn't move the clock
/// on meets none.
pub fn coins_met(alloc: Global, log: &RootLog, time: u64) -> Result<Vec<u64>, NoMemory>
    ensures { IfOk result (λ met.
        AreThose (λ c. meets_deadline log.now.log c (Joins (RootCall.Tick time))) met.items) }
{
    let mut met = Vec::new(alloc);
    if time <= log.now() {
        return Ok(met);
    }
    for coin in log.exiting() {
        if meets_deadline(log, *coin, time) {
            met.push(*coin)?;
        }
    }
    Ok(met)
}
