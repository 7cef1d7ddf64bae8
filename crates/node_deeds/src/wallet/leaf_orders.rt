ghost use Rattle.std.specs.Prelude.{◌≡◌, false, IfOk};
ghost use Rattle.node_journal.specs.Notes.{stopped_by};
ghost use Rattle.node_replies.specs.Given.{IsGiven};
ghost use Rattle.node_replies.specs.Orders.{again_does, migrate_does, wallet_does};
ghost use Rattle.node_deeds.specs.WalletOrders.{Does};

use super::causes::refuse;
use crash_disk::Disk;
use node_journal::Stop;
use node_replies::{Given, Reply, WalletOrder, makes, says};
use node_rules::Sent;
use plasma_base::Hash32;
use plasma_tx::{Owner, RootLog};
use std::alloc::Global;
use wallet_node::WalletNode;

// Signs a transfer of a coin, with a last block or without one, and gives it out.
pub fn send<D: Disk, H: Hash32 + Copy>(
    alloc: Global,
    node: &mut WalletNode<D, H>,
    log: &RootLog,
    coin: u64,
    to: &Owner,
    last: Option<u64>,
) -> Result<Given, Stop>
    ensures gives { IfOk result (λ given. IsGiven (wallet_does (H.digest_of node.old.hash) log.now.log
        node.old.records (WalletOrder.Send coin to.now last)).response given) }
    ensures did { Does D.told D.plan D.faults (wallet_does (H.digest_of node.old.hash) log.now.log
        node.old.records (WalletOrder.Send coin to.now last)) node.old (stopped_by result) node.new }
{
    let sent = match last {
        Some(last) => node.send_until(log, coin, to, last),
        None => node.send(log, coin, to),
    };
    match sent {
        Ok(Sent { q, bytes }) => Ok(makes(alloc, Reply::Sent { leaf: q }, bytes)),
        Err(why) => refuse(alloc, &why),
    }
}

// Gives a coin's transfer out again. It changes nothing and calls no device, so want of memory alone stops it.
pub fn again<D: Disk, H: Hash32 + Copy>(
    alloc: Global,
    node: &WalletNode<D, H>,
    coin: u64,
) -> Result<Given, Stop>
    requires { node.now.closed ≡ false }
    ensures gives { IfOk result (λ given. IsGiven (again_does node.now.records coin).response given) }
    ensures did { Does D.told D.plan D.faults (again_does node.now.records coin)
        node.now (stopped_by result) node.now }
{
    match node.again(coin) {
        Ok(Sent { q, bytes }) => Ok(makes(alloc, Reply::Sent { leaf: q }, bytes)),
        Err(why) => refuse(alloc, &why),
    }
}

// Adds the marker to the leaves' journal.
pub fn migrate<D: Disk, H: Hash32 + Copy>(
    alloc: Global,
    node: &mut WalletNode<D, H>,
) -> Result<Given, Stop>
    ensures gives { IfOk result (λ given. IsGiven (migrate_does node.old.records).response given) }
    ensures did { Does D.told D.plan D.faults (migrate_does node.old.records)
        node.old (stopped_by result) node.new }
{
    match node.migrate() {
        Ok(()) => Ok(says(alloc, Reply::Migrated)),
        Err(why) => refuse(alloc, &why),
    }
}
