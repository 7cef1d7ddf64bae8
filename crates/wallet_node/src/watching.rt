ghost use Rattle.std.specs.Prelude.{◌≡◌, ◌++◌, ℕ, true, is_some, None, Err, IfOk, OnOk, OnErr};
ghost use Rattle.std.specs.List.{flat_map};
ghost use Rattle.std.specs.Ordering.{nat_cmp};
ghost use Rattle.std.specs.BTreeSet.{contains};
ghost use Rattle.plasma_tx.specs.Views.{coin_at};
ghost use Rattle.watch_duty.specs.Duty.{tip_shown};
ghost use Rattle.wallet_core.specs.State.{HasOwnExit, may_have};
ghost use Rattle.node_rules.specs.Wallet.{start_of, exit_start, coin_state, due_at, noted, watch_answer};
ghost use Rattle.wallet_node.specs.State.{wallet_stop};
ghost use Rattle.wallet_node.specs.Inside.{links_behind, spends_at, due_of_coin, is_watched};

use super::node::WalletNode;
use crash_disk::Disk;
use node_rules::WalletRefusal;
use plasma_base::{Hash32, NoMemory};
use plasma_tx::{Link, RootCall, RootLog, Shown};
use std::collections::BTreeSet;
use wallet_core::{CoinState, Notes, own_exiting};
use watch_duty::push_due;

// What shows the block that the links end at, behind this deposit block.
fn shown_tip(deposit: u64, spends: &[Link]) -> Result<Shown, NoMemory>
    ensures { IfOk result (λ shown. shown ≡ tip_shown (links_behind 0 deposit spends.now)) }
{
    match spends.last() {
        None => Ok(Shown::Deposit { block: deposit }),
        Some(link) => Ok(Shown::Spend {
            opening: link.opening.copy()?,
        }),
    }
}

// The start of an exit of a coin with this deposit block and these links, at a tip.
fn start_call(
    account: u64,
    coin: u64,
    tip: u64,
    deposit: u64,
    spends: &[Link],
) -> Result<RootCall, NoMemory>
    ensures { IfOk result (λ call. call ≡ start_of account tip (links_behind coin deposit spends.now)) }
{
    match spends.split_last() {
        None => Ok(RootCall::StartDeposit {
            account,
            coin,
            block: tip,
        }),
        Some((link, before)) => Ok(RootCall::StartSpend {
            account,
            coin,
            parent: shown_tip(deposit, before)?,
            exit: link.opening.copy()?,
        }),
    }
}

impl<D: Disk, H: Hash32 + Copy> WalletNode<D, H> {
    // The links of a coin up to a tip that is kept; none where it isn't, which is so of an own deposit.
    fn spends_at(&self, coin: u64, tip: u64) -> &[Link]
        ensures { result.now ≡ spends_at (H.digest_of self.now.hash) self.now.records coin tip }
    {
        self.memory.spends_at(coin, tip)
    }

    // The start of the wallet's exit of a coin that the log has.
    pub(crate) fn exit_start(
        &self,
        log: &RootLog,
        coin: u64,
        tip: u64,
    ) -> Result<RootCall, WalletRefusal>
        requires { is_some (coin_at log.now.log coin) ≡ true }
        ensures answer { wallet_stop result ≡ None → result
            ≡ exit_start (H.digest_of self.now.hash) self.now.records log.now.log coin tip }
        ensures memory { OnErr result (result ≡ Err WalletRefusal.NoMemory) }
    {
        let Some(made) = log.coin(coin) else {
            unreachable!();
        };
        let spends = self.spends_at(coin, tip);
        match start_call(self.who.account, coin, tip, made.deposit, spends) {
            Ok(call) => Ok(call),
            Err(_) => Err(WalletRefusal::NoMemory),
        }
    }

    // Adds what is due for a coin that the wallet has at a tip.
    fn push_at(
        &self,
        log: &RootLog,
        coin: u64,
        tip: u64,
        calls: &mut Vec<RootCall>,
    ) -> Result<(), NoMemory>
        ensures { OnOk result (calls.new.items ≡ calls.old.items
            ++ due_at (H.digest_of self.now.hash) self.now.records log.now.log coin tip) }
    {
        let Some(made) = log.coin(coin) else {
            return Ok(());
        };
        let spends = self.spends_at(coin, tip);
        let account = self.who.account;
        push_due(self.alloc, log, account, coin, made.deposit, spends, calls)?;
        Ok(())
    }

    // Adds what is due for a coin. It takes memory only for one that the wallet holds or leaves with.
    fn push_for(&self, log: &RootLog, coin: u64, calls: &mut Vec<RootCall>) -> Result<(), NoMemory>
        ensures calls { OnOk result (calls.new.items ≡ calls.old.items
            ++ due_of_coin (H.digest_of self.now.hash) self.now.records log.now.log coin) }
        ensures memory { OnErr result
            (is_watched (coin_state (H.digest_of self.now.hash) self.now.records log.now.log coin) ≡ true) }
    {
        match self.state(log, coin) {
            CoinState::Held { tip } => self.push_at(log, coin, tip, calls),
            CoinState::Leaving { tip } => self.push_at(log, coin, tip, calls),
            _ => Ok(()),
        }
    }

    // What it noted.
    fn noted(&self) -> &Notes
        ensures { result.now ≡ noted (H.digest_of self.now.hash) self.now.records }
    {
        self.memory.noted()
    }

    // What is due for these coins, in their order.
    fn due_for(&self, log: &RootLog, coins: &BTreeSet<u64>) -> Result<Vec<RootCall>, NoMemory>
        ensures calls { IfOk result (λ calls. calls.items
            ≡ flat_map (due_of_coin (H.digest_of self.now.hash) self.now.records log.now.log) coins.now.keys) }
        ensures memory { OnErr result ((coin : ℕ) × (contains nat_cmp coins.now coin ≡ true)
            × (may_have (noted (H.digest_of self.now.hash) self.now.records) log.now.log coin ≡ true)) }
    {
        let mut calls = Vec::new(self.alloc);
        for coin in coins {
            self.push_for(log, *coin, &mut calls)?;
        }
        Ok(calls)
    }

    /// What is due for the coins that the wallet holds or leaves with, by rising coin, for its account. It
    /// reads no record anew, and makes no device call, also after a device fault. It asks the coins of which an
    /// exit stands, or of those that the wallet may have those of which one stands, whichever are fewer to look at.
    /// Where no exit stands of a coin that the wallet may have it takes no memory.
    pub fn watch(&self, log: &RootLog) -> Result<Vec<RootCall>, NoMemory>
        ensures calls { IfOk result (λ calls. calls.items
            ≡ watch_answer (H.digest_of self.now.hash) self.now.records log.now.log) }
        ensures memory { OnErr result
            (HasOwnExit (noted (H.digest_of self.now.hash) self.now.records) log.now.log) }
    {
        let noted = self.noted();
        let exiting = log.exiting();
        let accepted = noted.accepted.as_slice().len();
        let deposited = log.deposits(noted.me.account).len();
        if accepted.saturating_add(deposited) < exiting.len() {
            let own = own_exiting(self.alloc, noted, log)?;
            return self.due_for(log, &own);
        }
        self.due_for(log, exiting)
    }
}
