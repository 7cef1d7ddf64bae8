ghost use Rattle.std.specs.Prelude.{◌≡◌, ◌++◌, map, IfOk, OnOk, is_some};
ghost use Rattle.watch_duty.specs.Duty.{guard_of, tip_shown};
ghost use Rattle.coin_safety.specs.Advice.{standing, tip, holder, left_by, start_of, may_leave, is_planted, own_start, timed};
ghost use Rattle.coin_safety.specs.Numbers.{least};
ghost use Rattle.coin_safety.specs.Words.{end_of_call, act_by};

use super::look::Look;
use plasma_base::NoMemory;
use plasma_tx::{Link, RootCall, Shown};

impl Look<'_> {
    /// Adds the start of the own exit, where the holder had better leave.
    pub(crate) fn push_own_start(
        &self,
        left: bool,
        calls: &mut Vec<RootCall>,
    ) -> Result<(), NoMemory>
        requires { left ≡ is_some (left_by self.now.log.now.log self.now.kept.now.links.coin (tip self.now.kept.now)) }
        ensures { OnOk result (calls.new.items
            ≡ calls.old.items ++ own_start self.now.log.now.log self.now.account self.now.kept.now) }
    {
        if self.may_leave(left) && (self.is_planted() || self.kept.hidden) {
            calls.push(self.start()?)?;
        }
        Ok(())
    }

    /// Until when the calls are to be entered, where this is the end of those that have a time: with none of them at
    /// once, where the operator hides a block from the holder, who may leave.
    pub(crate) fn act_by(&self, left: bool, end: Option<u64>) -> Option<u64>
        requires left { left
            ≡ is_some (left_by self.now.log.now.log self.now.kept.now.links.coin (tip self.now.kept.now)) }
        requires end { end
            ≡ least (map (end_of_call (standing self.now.log.now.log self.now.kept.now))
            (timed self.now.log.now.log self.now.account self.now.kept.now)) }
        ensures { result ≡ act_by self.now.log.now.log self.now.account self.now.kept.now }
    {
        match end {
            Some(end) => Some(end.saturating_sub(1)),
            None if self.may_leave(left) && self.kept.hidden => Some(self.log.now()),
            None => None,
        }
    }

    /// Whether the account is the holder's, the coin is at the tip still, and no exit there stands.
    fn may_leave(&self, left: bool) -> bool
        requires { left ≡ is_some (left_by self.now.log.now.log self.now.kept.now.links.coin (tip self.now.kept.now)) }
        ensures { result ≡ may_leave self.now.log.now.log self.now.account self.now.kept.now }
    {
        self.kept.sent.is_none()
            && self.account == self.holder()
            && !self.log.withdrawn(self.coin())
            && !left
            && self.tip_exit().is_none()
    }

    /// Whether an exit stands whose parent is later than the tip.
    fn is_planted(&self) -> bool
        ensures { result ≡ is_planted self.now.log.now.log self.now.kept.now }
    {
        let tip = self.tip();
        self.exits().iter().any(|exit| exit.parent > tip)
    }

    /// The start of the exit at the tip.
    fn start(&self) -> Result<RootCall, NoMemory>
        ensures { IfOk result (λ call. call
            ≡ start_of self.now.account (tip self.now.kept.now) self.now.kept.now.links) }
    {
        let links = &self.kept.links;
        match links.spends.as_slice().split_last() {
            None => Ok(RootCall::StartDeposit {
                account: self.account,
                coin: links.coin,
                block: self.tip(),
            }),
            Some((link, before)) => Ok(RootCall::StartSpend {
                account: self.account,
                coin: links.coin,
                parent: shown_tip(links.deposit, before)?,
                exit: link.opening.copy()?,
            }),
        }
    }
}

/// What shows the block that the links end at, behind this deposit block.
fn shown_tip(deposit: u64, spends: &[Link]) -> Result<Shown, NoMemory>
    ensures { IfOk result (λ shown. shown ≡ tip_shown (guard_of 0 deposit spends.now).links) }
{
    match spends.last() {
        None => Ok(Shown::Deposit { block: deposit }),
        Some(link) => Ok(Shown::Spend {
            opening: link.opening.copy()?,
        }),
    }
}
