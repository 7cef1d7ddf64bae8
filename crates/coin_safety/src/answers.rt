ghost use Rattle.std.specs.Prelude.{◌≡◌, ◌++◌, ◌&&◌, IfOk, OnOk, nat_lt};
ghost use Rattle.std.specs.List.{list_any};
ghost use Rattle.std.specs.Option.{option_copied};
ghost use Rattle.coin_safety.specs.Advice.{tip, answer_in, answer_shown, is_answered, before_by, again_for, shown_again};
ghost use Rattle.coin_safety.specs.Answered.{answered_exit, answer_at, AreAnswers};

use super::look::Look;
use super::windows::is_challenged;
use plasma_base::NoMemory;
use plasma_tx::{CHALLENGE_WINDOW, ChallengeView, ExitView, RawOpening, RootCall, RootLog, Shown};
use std::alloc::Global;
use std::collections::BTreeMap;

impl Look<'_> {
    /// Adds a Before for each exit where an answer showed the spend for it. One pass over the log, where a challenge at
    /// the tip was answered.
    pub(crate) fn push_shown_again(
        &self,
        alloc: Global,
        calls: &mut Vec<RootCall>,
    ) -> Result<(), NoMemory>
        ensures { OnOk result (calls.new.items
            ≡ calls.old.items ++ shown_again self.now.log.now.log self.now.account self.now.kept.now) }
    {
        let exits = self.exits();
        let tip = self.tip();
        if !any_answered(tip, exits) {
            return Ok(());
        }
        let answers = answers(alloc, self.log, self.coin(), tip)?;
        for exit in exits {
            self.push_again_for(&answers, exit, calls)?;
        }
        Ok(())
    }

    /// Adds the Before for the exit, where an answer showed the spend for it.
    fn push_again_for(
        &self,
        answers: &BTreeMap<u64, usize>,
        exit: &ExitView,
        calls: &mut Vec<RootCall>,
    ) -> Result<(), NoMemory>
        requires { AreAnswers self.now.log.now.log self.now.kept.now.links.coin (tip self.now.kept.now) answers.now }
        ensures { OnOk result (calls.new.items
            ≡ calls.old.items ++ again_for self.now.log.now.log self.now.account self.now.kept.now exit.now) }
    {
        if !was_answered(self.tip(), exit) {
            return Ok(());
        }
        match answer_shown(self.log, self.coin(), self.tip(), answers, exit.block) {
            None => Ok(()),
            Some(spend) => self.push_before_by(exit, spend, calls),
        }
    }

    /// Adds the Before by the spend, where it may challenge the exit.
    fn push_before_by(
        &self,
        exit: &ExitView,
        spend: &RawOpening,
        calls: &mut Vec<RootCall>,
    ) -> Result<(), NoMemory>
        ensures { OnOk result (calls.new.items
            ≡ calls.old.items ++ before_by self.now.log.now.log self.now.account self.now.kept.now.links.coin
            exit.now spend.now) }
    {
        if spend.block < exit.parent
            && !is_challenged(spend.block, exit.challenges.as_slice())
            && !self.is_over(exit.start, CHALLENGE_WINDOW)
        {
            calls.push(RootCall::Before {
                account: self.account,
                coin: self.coin(),
                exit: exit.block,
                shown: Shown::Spend {
                    opening: spend.copy()?,
                },
            })?;
        }
        Ok(())
    }
}

/// Whether there is an exit whose challenge at the tip was answered, and whose parent is later.
fn any_answered(tip: u64, exits: &[ExitView]) -> bool
    ensures { result
        ≡ list_any (λ exit. nat_lt tip exit.parent && is_answered tip exit.challenges) exits.now }
{
    exits.iter().any(|exit| was_answered(tip, exit))
}

/// Whether the exit's parent is later than the tip, and its challenge at the tip was answered.
fn was_answered(tip: u64, exit: &ExitView) -> bool
    ensures { result ≡ (nat_lt tip exit.now.parent && is_answered tip exit.now.challenges) }
{
    let challenges = exit.challenges.as_slice();
    exit.parent > tip && is_answered(tip, challenges)
}

/// Whether the challenge at the block was answered.
fn is_answered(block: u64, challenges: &[ChallengeView]) -> bool
    ensures { result ≡ is_answered block challenges.now }
{
    challenges
        .iter()
        .any(|challenge| challenge.block == block && challenge.answered)
}

/// By the block of an exit of the coin, where the last answer to its challenge at the tip stands among the log's calls:
/// one pass over them.
fn answers(
    alloc: Global,
    log: &RootLog,
    coin: u64,
    tip: u64,
) -> Result<BTreeMap<u64, usize>, NoMemory>
    ensures { IfOk result (AreAnswers log.now.log coin tip) }
{
    let events = log.events();
    let mut places = BTreeMap::new(alloc);
    for (place, call) in events.iter().enumerate() {
        if let Some(exit) = answered_exit(coin, tip, call) {
            places.insert(exit, place)?;
        }
    }
    Ok(places)
}

/// The block of the coin's exit whose challenge at the tip the call answers.
fn answered_exit(coin: u64, tip: u64, call: &RootCall) -> Option<u64>
    ensures { result ≡ answered_exit coin tip call.now }
{
    match call {
        RootCall::Respond {
            coin: of,
            exit,
            challenged,
            ..
        } if *of == coin && *challenged == tip => Some(*exit),
        _ => None,
    }
}

/// The spend that the last answer to the challenge at the tip of the exit at the block showed.
fn answer_shown<'a>(
    log: &'a RootLog,
    coin: u64,
    tip: u64,
    answers: &BTreeMap<u64, usize>,
    block: u64,
) -> Option<&'a RawOpening>
    requires { AreAnswers log.now.log coin tip answers.now }
    ensures { option_copied result ≡ answer_shown log.now.log coin tip block }
{
    let place = *answers.get(&block)?;
    answer_at(log, coin, tip, block, place)
}

/// The spend that the call at the place shows, where it is such an answer.
fn answer_at(log: &RootLog, coin: u64, tip: u64, block: u64, place: usize) -> Option<&RawOpening>
    ensures { option_copied result ≡ answer_at log.now.log coin tip block place }
{
    answer_in(coin, tip, block, log.events().get(place)?)
}

/// The spend that the call shows, where it answers the challenge at the tip of the exit at the block.
fn answer_in(coin: u64, tip: u64, block: u64, call: &RootCall) -> Option<&RawOpening>
    ensures { option_copied result ≡ answer_in coin tip block call.now }
{
    match call {
        RootCall::Respond {
            coin: of,
            exit,
            challenged,
            spend,
            ..
        } if *of == coin && *challenged == tip && *exit == block => Some(spend),
        _ => None,
    }
}
