ghost use Rattle.std.specs.Prelude.{◌≡◌, ◌++◌, OnOk};
ghost use Rattle.node_rules.specs.KeptCoins.{due_for_coin};

use super::kept_coin::KeptCoin;
use plasma_base::NoMemory;
use plasma_tx::{RootCall, RootLog};
use std::alloc::Global;
use watch_duty::push_due;

/// Adds what is due for a kept coin, for calls by this account; nothing where the log doesn't have the coin, or no exit
/// of it stands. `NoMemory` may leave some of them added.
pub fn push_due_for(
    alloc: Global,
    log: &RootLog,
    account: u64,
    kept: &KeptCoin,
    calls: &mut Vec<RootCall>,
) -> Result<(), NoMemory>
    ensures { OnOk result (calls.new.items ≡ calls.old.items ++ due_for_coin log.now.log account kept.now) }
{
    let coin = kept.coin;
    if log.exits(coin).is_empty() {
        return Ok(());
    }
    match log.coin(coin) {
        Some(made) => push_due(
            alloc,
            log,
            account,
            coin,
            made.deposit,
            kept.spends.as_slice(),
            calls,
        ),
        None => Ok(()),
    }
}
