ghost use Rattle.std.specs.Prelude.{◌≡◌, ◌≢◌, [], ◌++◌, IfOk, OnOk, OnErr};
ghost use Rattle.std.specs.List.{flat_map};
ghost use Rattle.std.specs.BTreeMap.{values};
ghost use Rattle.node_rules.specs.Watcher.{guards_in, watch_answer};
ghost use Rattle.node_rules.specs.KeptCoins.{due_for_coin};

use super::node::WatcherNode;
use crash_disk::Disk;
use node_rules::{KeptCoin, push_due_for};
use plasma_base::{Hash32, NoMemory};
use plasma_tx::{RootCall, RootLog};
use std::alloc::Global;
use std::collections::BTreeMap;

// What is due for guards, in their order.
fn due_calls(
    alloc: Global,
    log: &RootLog,
    account: u64,
    guards: &BTreeMap<(u64, u64), KeptCoin>,
) -> Result<Vec<RootCall>, NoMemory>
    ensures calls { IfOk result
        (λ calls. calls.items ≡ flat_map (due_for_coin log.now.log account) (values guards.now)) }
    ensures memory { OnErr result (values guards.now ≢ []) }
{
    let mut calls = Vec::new(alloc);
    for watched in guards.values() {
        push_due_for(alloc, log, account, watched, &mut calls)?;
    }
    Ok(calls)
}

impl<D: Disk, H: Hash32 + Copy> WatcherNode<D, H> {
    /// What is due for the guards, in the order of coins and tips, for the watcher's account; nothing for
    /// one whose coin the log doesn't have. It reads no record anew, and makes no device call. Where nothing is
    /// guarded it takes no memory.
    pub fn watch(&self, log: &RootLog) -> Result<Vec<RootCall>, NoMemory>
        ensures calls { IfOk result (λ calls. calls.items
            ≡ watch_answer (H.digest_of self.now.hash) self.now.notes.records log.now.log) }
        ensures memory { OnErr result (guards_in (H.digest_of self.now.hash) self.now.notes.records ≢ []) }
    {
        let calls = due_calls(self.alloc, log, self.account, &self.guards)?;
        Ok(calls)
    }
}
