ghost use Rattle.std.specs.Prelude.{◌≡◌, ◌++◌, IfOk, OnOk};
ghost use Rattle.std.specs.Option.{option_copied};
ghost use Rattle.plasma_tx.specs.ChallengeLists.{is_challenged};
ghost use Rattle.plasma_tx.specs.Links.{tip_of};
ghost use Rattle.plasma_tx.specs.Table.{is_over};
ghost use Rattle.watch_duty.specs.Duty.{next_link, link_after, tip_shown, old_owner, second_spend, planted_parent, answer, answers, due_for, due_of};
ghost use Rattle.watch_duty.specs.Watches.{log_of, links_of, guard_in, IsTried};

use plasma_base::NoMemory;
use plasma_tx::{
    CHALLENGE_WINDOW, ChallengeView, ExitView, Link, RESPONSE_WINDOW, RootCall, RootLog, Shown,
};
use std::alloc::Global;

// A coin that is watched under a log, with its deposit block and its links, for the account that enters
// the calls.
#[derive(Drop)]
pub(crate) struct Watch<'a> {
    pub(crate) log: &'a RootLog,
    pub(crate) account: u64,
    pub(crate) coin: u64,
    pub(crate) deposit: u64,
    pub(crate) spends: &'a [Link],
}

// The link that comes after the block, where the links come after this deposit block: one scan of them.
#[tactic(auto, unfolding(crate::specs::Duty::next_link))]
fn next_link(block: u64, deposit: u64, spends: &[Link]) -> Option<&Link>
    ensures { option_copied result ≡ next_link block deposit spends.now }
{
    let mut last = deposit;
    for link in spends {
        if last == block {
            return Some(link);
        }
        last = link.block;
    }
    None
}

impl Watch<'_> {
    // What is due for the coin, in the order of its exits.
    pub(crate) fn due(&self, alloc: Global) -> Result<Vec<RootCall>, NoMemory>
        ensures { IfOk result (λ calls. calls.items ≡ due_of (log_of self.now) self.now.account (guard_in self.now)) }
    {
        let mut calls = Vec::new(alloc);
        for exit in self.log.exits(self.coin) {
            self.push_due_for(exit, &mut calls)?;
        }
        Ok(calls)
    }

    // Adds the calls of the first rule that speaks of the exit. Each rule answers whether it does, and then
    // has added its calls.
    fn push_due_for(&self, exit: &ExitView, calls: &mut Vec<RootCall>) -> Result<(), NoMemory>
        ensures { OnOk result (calls.new.items
            ≡ calls.old.items ++ due_for (log_of self.now) self.now.account (links_of self.now) exit.now) }
    {
        if self.try_old_owner(exit, calls)? {
            return Ok(());
        }
        if self.try_second_spend(exit, calls)? {
            return Ok(());
        }
        if self.try_planted_parent(exit, calls)? {
            return Ok(());
        }
        self.try_answers(exit, calls)?;
        Ok(())
    }

    // The tip of the links, or the deposit block.
    fn tip(&self) -> u64
        ensures { result ≡ tip_of (links_of self.now) }
    {
        match self.spends.last() {
            None => self.deposit,
            Some(link) => link.block,
        }
    }

    // What shows the tip.
    fn tip_shown(&self) -> Result<Shown, NoMemory>
        ensures { IfOk result (λ shown. shown ≡ tip_shown (links_of self.now)) }
    {
        match self.spends.last() {
            None => Ok(Shown::Deposit {
                block: self.deposit,
            }),
            Some(link) => Ok(Shown::Spend {
                opening: link.opening.copy()?,
            }),
        }
    }

    // The link that spent the block.
    fn link_after(&self, block: u64) -> Option<&Link>
        ensures { option_copied result ≡ link_after (links_of self.now) block }
    {
        next_link(block, self.deposit, self.spends)
    }

    // Whether a window that was opened at a time, and is so many seconds long, is over. Their sum may be
    // above 2^64.
    fn is_over(&self, time: u64, window: u64) -> bool
        ensures { result ≡ is_over (log_of self.now) time window }
    {
        let now = self.log.now();
        window <= now && time <= now - window
    }

    // The old owner exits: an After by the link that spent the exit's block.
    fn try_old_owner(&self, exit: &ExitView, calls: &mut Vec<RootCall>) -> Result<bool, NoMemory>
        ensures { IfOk result (IsTried
            (old_owner (log_of self.now) self.now.account (links_of self.now) exit.now)
            calls.old.items calls.new.items) }
    {
        let Some(link) = self.link_after(exit.block) else {
            return Ok(false);
        };
        if self.is_over(exit.start, CHALLENGE_WINDOW) {
            return Ok(true);
        }
        calls.push(RootCall::After {
            account: self.account,
            coin: self.coin,
            exit: exit.block,
            spend: link.opening.copy()?,
        })?;
        Ok(true)
    }

    // A second spend exits: a Between by the link that spent the exit's parent.
    fn try_second_spend(&self, exit: &ExitView, calls: &mut Vec<RootCall>) -> Result<bool, NoMemory>
        ensures { IfOk result (IsTried
            (second_spend (log_of self.now) self.now.account (links_of self.now) exit.now)
            calls.old.items calls.new.items) }
    {
        if exit.block <= self.tip() {
            return Ok(false);
        }
        let Some(link) = self.link_after(exit.parent) else {
            return Ok(false);
        };
        if self.is_over(exit.start, CHALLENGE_WINDOW) {
            return Ok(true);
        }
        calls.push(RootCall::Between {
            account: self.account,
            coin: self.coin,
            exit: exit.block,
            spend: link.opening.copy()?,
        })?;
        Ok(true)
    }

    // A planted transfer exits: a Before at the tip.
    fn try_planted_parent(
        &self,
        exit: &ExitView,
        calls: &mut Vec<RootCall>,
    ) -> Result<bool, NoMemory>
        ensures { IfOk result (IsTried
            (planted_parent (log_of self.now) self.now.account (links_of self.now) exit.now)
            calls.old.items calls.new.items) }
    {
        let tip = self.tip();
        if exit.parent <= tip || is_challenged(tip, exit.challenges.as_slice()) {
            return Ok(false);
        }
        if self.is_over(exit.start, CHALLENGE_WINDOW) {
            return Ok(true);
        }
        calls.push(RootCall::Before {
            account: self.account,
            coin: self.coin,
            exit: exit.block,
            shown: self.tip_shown()?,
        })?;
        Ok(true)
    }

    // The holder exits: a Respond to each open challenge at a block that the coin has left.
    fn try_answers(&self, exit: &ExitView, calls: &mut Vec<RootCall>) -> Result<bool, NoMemory>
        ensures { IfOk result (IsTried
            (answers (log_of self.now) self.now.account (links_of self.now) exit.now)
            calls.old.items calls.new.items) }
    {
        if exit.block != self.tip() {
            return Ok(false);
        }
        for challenge in exit.challenges.as_slice() {
            self.push_answer(exit, challenge, calls)?;
        }
        Ok(true)
    }

    // Adds the answer to the challenge.
    fn push_answer(
        &self,
        exit: &ExitView,
        challenge: &ChallengeView,
        calls: &mut Vec<RootCall>,
    ) -> Result<(), NoMemory>
        ensures { OnOk result (calls.new.items ≡ calls.old.items
            ++ answer (log_of self.now) self.now.account (links_of self.now) exit.now challenge.now) }
    {
        if challenge.answered {
            return Ok(());
        }
        let Some(link) = self.link_after(challenge.block) else {
            return Ok(());
        };
        if self.is_over(challenge.at, RESPONSE_WINDOW) {
            return Ok(());
        }
        calls.push(RootCall::Respond {
            account: self.account,
            coin: self.coin,
            exit: exit.block,
            challenged: challenge.block,
            spend: link.opening.copy()?,
        })?;
        Ok(())
    }
}

// Whether one of the challenges is at the block.
fn is_challenged(block: u64, challenges: &[ChallengeView]) -> bool
    ensures { result ≡ is_challenged block challenges.now }
{
    challenges.iter().any(|challenge| challenge.block == block)
}
