ghost use Rattle.std.specs.Prelude.{◌≡◌, ◌==◌, ◌||◌, ℕ, IfOk, OnOk};
ghost use Rattle.std.specs.List.{list_any};
ghost use Rattle.coin_verdicts.specs.Facts.{has, AreThose};
ghost use Rattle.world_rules.specs.Events.{coin_of_call};

use coin_verdicts::Numbers;
use plasma_base::NoMemory;
use plasma_tx::RootCall;
use std::alloc::Global;

// The coin of a call on an exit; 0, which is no coin, for other calls.
fn coin_of(call: &RootCall) -> u64
    ensures { result ≡ coin_of_call call.now }
{
    match *call {
        RootCall::StartDeposit { coin, .. }
        | RootCall::StartSpend { coin, .. }
        | RootCall::After { coin, .. }
        | RootCall::Between { coin, .. }
        | RootCall::Before { coin, .. }
        | RootCall::Respond { coin, .. }
        | RootCall::Finish { coin, .. } => coin,
        _ => 0,
    }
}

// Puts a coin at the end, unless it stands there: the offered calls of a coin follow one another.
fn put_coin(coins: &mut Vec<u64>, coin: u64) -> Result<(), NoMemory>
    ensures { OnOk result ((n : ℕ) → has coins.new.items n ≡ (has coins.old.items n || (coin == n))) }
{
    if coins.last().copied() != Some(coin) {
        coins.push(coin)?;
    }
    Ok(())
}

/// The coins of offered calls.
pub fn coins_of(alloc: Global, calls: &[RootCall]) -> Result<Numbers, NoMemory>
    ensures { IfOk result (AreThose (λ c. list_any (λ call. coin_of_call call == c) calls.now)) }
{
    let mut coins = Vec::new(alloc);
    for call in calls {
        put_coin(&mut coins, coin_of(call))?;
    }
    Ok(Numbers::from_vec(coins))
}
