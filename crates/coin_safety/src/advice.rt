ghost use Rattle.std.specs.Prelude.{◌≡◌, ◌==◌, ◌++◌, find, map, is_some, IfOk, OnOk, unwrap_or};
ghost use Rattle.std.specs.Option.{option_and_then, option_copied};
ghost use Rattle.plasma_tx.specs.Views.{exits_of};
ghost use Rattle.coin_safety.specs.Advice.{tip, left_by, exit_in, earlier_spend, instead, has_challenged, is_own, is_to_finish, finishes, due, calls_of};
ghost use Rattle.coin_safety.specs.Index.{IsIndex};
ghost use Rattle.coin_safety.specs.Numbers.{least};
ghost use Rattle.coin_safety.specs.Words.{end_of_call, answer_end, window_end, act_by};

use super::index::Index;
use super::look::Look;
use super::windows::{later, lesser};
use plasma_base::NoMemory;
use plasma_tx::{
    CHALLENGE_WINDOW, ChallengeView, EXIT_PERIOD, ExitView, RESPONSE_WINDOW, RawOpening, RootCall,
    RootLog,
};
use std::alloc::Global;
use watch_duty::push_due;

/// The calls to enter, and until when.
#[derive(Drop)]
pub(crate) struct Advice {
    pub(crate) calls: Vec<RootCall>,
    pub(crate) by: Option<u64>,
}

impl Look<'_> {
    /// The calls to enter, in their order.
    pub(crate) fn advice(&self, alloc: Global, left: bool) -> Result<Advice, NoMemory>
        requires { left ≡ is_some (left_by self.now.log.now.log self.now.kept.now.links.coin (tip self.now.kept.now)) }
        ensures calls { IfOk result (λ advice. advice.calls.items
            ≡ calls_of self.now.log.now.log self.now.account self.now.kept.now) }
        ensures by { IfOk result (λ advice. advice.by
            ≡ act_by self.now.log.now.log self.now.account self.now.kept.now) }
    {
        let mut calls = self.due(alloc)?;
        self.push_shown_again(alloc, &mut calls)?;
        let end = advise(alloc, self.log, self.coin(), &mut calls)?;
        self.push_own_start(left, &mut calls)?;
        self.push_finishes(&mut calls)?;
        Ok(Advice {
            calls,
            by: self.act_by(left, end),
        })
    }

    /// What is due for the coin; nothing where it was signed away.
    fn due(&self, alloc: Global) -> Result<Vec<RootCall>, NoMemory>
        ensures { IfOk result (λ calls. calls.items
            ≡ due self.now.log.now.log self.now.account self.now.kept.now) }
    {
        let mut calls = Vec::new(alloc);
        if self.kept.sent.is_some() {
            return Ok(calls);
        }
        let links = &self.kept.links;
        push_due(
            alloc,
            self.log,
            self.account,
            links.coin,
            links.deposit,
            links.spends.as_slice(),
            &mut calls,
        )?;
        Ok(calls)
    }

    /// Adds a Finish for each exit where it helps.
    fn push_finishes(&self, calls: &mut Vec<RootCall>) -> Result<(), NoMemory>
        ensures { OnOk result (calls.new.items
            ≡ calls.old.items ++ finishes self.now.log.now.log self.now.account self.now.kept.now) }
    {
        for exit in self.exits() {
            if self.is_to_finish(exit) {
                calls.push(RootCall::Finish {
                    account: self.account,
                    coin: self.coin(),
                    exit: exit.block,
                })?;
            }
        }
        Ok(())
    }

    /// Whether a Finish of the exit helps.
    fn is_to_finish(&self, exit: &ExitView) -> bool
        ensures { result ≡ is_to_finish self.now.log.now.log self.now.account self.now.kept.now exit.now }
    {
        self.is_over(exit.start, EXIT_PERIOD)
            && (has_challenged(self.account, exit) || self.is_own(exit))
    }

    /// Whether the exit is the holder's own.
    fn is_own(&self, exit: &ExitView) -> bool
        ensures { result ≡ is_own self.now.kept.now exit.now }
    {
        self.kept.sent.is_none() && exit.block == self.tip()
    }
}

/// Whether the account has an open challenge of the exit.
fn has_challenged(account: u64, exit: &ExitView) -> bool
    ensures { result ≡ has_challenged account exit.now }
{
    let challenges = exit.challenges.as_slice();
    challenges
        .iter()
        .any(|challenge| challenge.by == account && !challenge.answered)
}

/// Puts the calls to enter in place of those that have a time, and answers from when on the first of them can't be
/// entered any more. `NoMemory` may leave some of them changed.
fn advise(
    alloc: Global,
    log: &RootLog,
    coin: u64,
    calls: &mut Vec<RootCall>,
) -> Result<Option<u64>, NoMemory>
    ensures calls { OnOk result (calls.new.items ≡ map (instead log.now.log coin) calls.old.items) }
    ensures end { IfOk result (λ end. end
        ≡ least (map (end_of_call (exits_of log.now.log coin)) calls.old.items)) }
{
    if calls.as_slice().is_empty() {
        return Ok(None);
    }
    let index = Index::new(alloc, log, coin)?;
    let end = first_end(log, coin, &index, calls.as_slice());
    replace(log, coin, &index, calls)?;
    Ok(end)
}

/// The first end of a call's time.
fn first_end(log: &RootLog, coin: u64, index: &Index, calls: &[RootCall]) -> Option<u64>
    requires { IsIndex log.now.log coin index.now }
    ensures { result ≡ least (map (end_of_call (exits_of log.now.log coin)) calls.now) }
{
    let mut first = None;
    for call in calls {
        first = Some(lesser(first, end_of_call(log, coin, index, call)));
    }
    first
}

/// From when on the call can't be entered, where it is due for an exit of the coin.
fn end_of_call(log: &RootLog, coin: u64, index: &Index, call: &RootCall) -> u64
    requires { IsIndex log.now.log coin index.now }
    ensures { result ≡ end_of_call (exits_of log.now.log coin) call.now }
{
    match call {
        RootCall::Respond {
            exit,
            challenged,
            ..
        } => match index.exit(log, coin, *exit) {
            None => 0,
            Some(exit) => answer_end(exit.challenges.as_slice(), *challenged),
        },
        RootCall::After { exit, .. } => window_end(index.exit(log, coin, *exit)),
        RootCall::Between { exit, .. } => window_end(index.exit(log, coin, *exit)),
        RootCall::Before { exit, .. } => window_end(index.exit(log, coin, *exit)),
        _ => 0,
    }
}

/// From when on the exit can't be cancelled or challenged.
fn window_end(exit: Option<&ExitView>) -> u64
    ensures { result ≡ window_end (option_copied exit.entry) }
{
    match exit {
        None => 0,
        Some(exit) => later(exit.start, CHALLENGE_WINDOW),
    }
}

/// From when on the challenge at the block can't be answered.
fn answer_end(challenges: &[ChallengeView], block: u64) -> u64
    ensures { result ≡ answer_end challenges.now block }
{
    match challenge_in(challenges, block) {
        None => 0,
        Some(challenge) => later(challenge.at, RESPONSE_WINDOW),
    }
}

/// The challenge at the block.
fn challenge_in(challenges: &[ChallengeView], block: u64) -> Option<&ChallengeView>
    ensures { option_copied result ≡ find (λ challenge. challenge.block == block) challenges.now }
{
    challenges.iter().find(|challenge| challenge.block == block)
}

/// Puts a Between in place of each Before where it cancels the exit.
fn replace(
    log: &RootLog,
    coin: u64,
    index: &Index,
    calls: &mut Vec<RootCall>,
) -> Result<(), NoMemory>
    requires { IsIndex log.now.log coin index.now }
    ensures { OnOk result (calls.new.items ≡ map (instead log.now.log coin) calls.old.items) }
{
    for call in calls.iter_mut() {
        replace_one(log, coin, index, call)?;
    }
    Ok(())
}

/// Puts a Between in place of a Before where it cancels the exit.
fn replace_one(log: &RootLog, coin: u64, index: &Index, call: &mut RootCall) -> Result<(), NoMemory>
    requires { IsIndex log.now.log coin index.now }
    ensures { OnOk result (call.new ≡ instead log.now.log coin call.old) }
{
    if let Some(between) = better(log, coin, index, call)? {
        *call = between;
    }
    Ok(())
}

/// The Between that cancels the exit of a Before, where there is one.
fn better(
    log: &RootLog,
    coin: u64,
    index: &Index,
    call: &RootCall,
) -> Result<Option<RootCall>, NoMemory>
    requires { IsIndex log.now.log coin index.now }
    ensures { IfOk result (λ better. unwrap_or better call.now ≡ instead log.now.log coin call.now) }
{
    let RootCall::Before {
        account,
        coin: of,
        exit,
        ..
    } = call
    else {
        return Ok(None);
    };
    match earlier_spend(log, coin, index, *exit) {
        None => Ok(None),
        Some(spend) => Ok(Some(RootCall::Between {
            account: *account,
            coin: *of,
            exit: *exit,
            spend: spend.copy()?,
        })),
    }
}

/// What shows an earlier spend of the parent of the exit at the block.
fn earlier_spend<'a>(
    log: &'a RootLog,
    coin: u64,
    index: &Index,
    block: u64,
) -> Option<&'a RawOpening>
    requires { IsIndex log.now.log coin index.now }
    ensures { option_copied result
        ≡ option_and_then (earlier_spend log.now.log coin) (exit_in (exits_of log.now.log coin) block) }
{
    index.earlier_spend(log, coin, index.exit(log, coin, block)?)
}
