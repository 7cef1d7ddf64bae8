ghost use Rattle.std.specs.Prelude.{◌≡◌, ◌==◌, false, find, option_copied, IfOk};
ghost use Rattle.plasma_tx.specs.Views.{exits_of, exit_at};
ghost use Rattle.plasma_tx.specs.Shown.{Rules};
ghost use Rattle.plasma_tx.specs.Table.{IsLegal};
ghost use Rattle.coin_verdicts.specs.Facts.{ended};
ghost use Rattle.world_trace.specs.Asked.{IsAsked};

use super::deadlines::coins_met;
use coin_verdicts::{Fact, KeptOwner, Numbers};
use plasma_base::NoMemory;
use plasma_tx::{ExitView, Owner, RootCall, RootLog};
use std::alloc::Global;

// The standing exit of a coin at a block, lent.
fn exit_at(log: &RootLog, coin: u64, block: u64) -> Option<&ExitView>
    ensures { option_copied result ≡ find (λ exit. exit.block == block) (exits_of log.now.log coin) }
{
    log.exits(coin).iter().find(|exit| exit.block == block)
}

// The fact of a call that ends the exit of a coin at a block unpaid: another call, where no such exit stands.
#[tactic(auto, using(crate::proofs::Ending::none_ends, crate::proofs::Ending::one_ends))]
fn ended(log: &RootLog, coin: u64, block: u64) -> Fact
    ensures { result ≡ ended (exit_at log.now.log coin block) coin block false }
{
    match exit_at(log, coin, block) {
        None => Fact::Joins,
        Some(exit) => Fact::Ends {
            coin,
            block,
            account: exit.account,
            paid: false,
        },
    }
}

/// What verdicts need to know of a call, where the contract accepts it behind this log, which is that of a contract. A
/// `finish` is taken as one that pays nothing. `NoMemory` is its one refusal.
pub fn fact_asked(alloc: Global, log: &RootLog, call: &RootCall) -> Result<Fact, NoMemory>
    ensures { (rules : Rules) → IsLegal rules log.now.log → IfOk result (IsAsked log.now.log call.now) }
{
    Ok(match *call {
        RootCall::Deposit { account, key, .. } => Fact::Deposits {
            coin: log.coins() + 1,
            block: log.blocks() + 1,
            owner: KeptOwner::new(alloc, Owner { account, key })?,
        },
        RootCall::Tick { now } => Fact::Ticks {
            met: Numbers::from_vec(coins_met(alloc, log, now)?),
        },
        RootCall::After { coin, exit, .. } => ended(log, coin, exit),
        RootCall::Between { coin, exit, .. } => ended(log, coin, exit),
        RootCall::Finish { coin, exit, .. } => ended(log, coin, exit),
        _ => Fact::Joins,
    })
}
