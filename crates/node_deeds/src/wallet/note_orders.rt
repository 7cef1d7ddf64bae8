ghost use Rattle.std.specs.Prelude.{◌≡◌, false, IfOk};
ghost use Rattle.node_journal.specs.Notes.{stopped_by};
ghost use Rattle.node_replies.specs.Given.{IsGiven};
ghost use Rattle.node_replies.specs.Orders.{exit_block, wallet_does};
ghost use Rattle.node_deeds.specs.WalletOrders.{Does};

use super::causes::refuse;
use crash_disk::Disk;
use node_journal::Stop;
use node_replies::{Given, Reply, WalletOrder, offer_kinds, offers, says};
use node_rules::{Accepted, Reclaimed};
use plasma_base::Hash32;
use plasma_tx::{RootCall, RootLog};
use std::alloc::Global;
use wallet_node::WalletNode;

// Takes a coin up by its history.
pub fn accept<D: Disk, H: Hash32 + Copy>(
    alloc: Global,
    node: &mut WalletNode<D, H>,
    log: &RootLog,
    bundle: &[u8],
) -> Result<Given, Stop>
    ensures gives { IfOk result (λ given. IsGiven (wallet_does (H.digest_of node.old.hash) log.now.log
        node.old.records (WalletOrder.Accept bundle.now)).response given) }
    ensures did { Does D.told D.plan D.faults (wallet_does (H.digest_of node.old.hash) log.now.log
        node.old.records (WalletOrder.Accept bundle.now)) node.old (stopped_by result) node.new }
{
    match node.accept(log, bundle) {
        Ok(Accepted { coin, tip }) => Ok(says(alloc, Reply::Accepted { coin, tip })),
        Err(why) => refuse(alloc, &why),
    }
}

// The block of the exit that a call starts.
fn exit_block(call: &RootCall) -> u64
    ensures { result ≡ exit_block call.now }
{
    match call {
        RootCall::StartDeposit { block, .. } => *block,
        RootCall::StartSpend { exit, .. } => exit.block,
        _ => 0,
    }
}

// Leaves with a coin. The room for the call is taken first, so that nothing fails behind the note.
pub fn leave<D: Disk, H: Hash32 + Copy>(
    alloc: Global,
    node: &mut WalletNode<D, H>,
    log: &RootLog,
    coin: u64,
) -> Result<Given, Stop>
    requires { node.old.closed ≡ false }
    ensures gives { IfOk result (λ given. IsGiven (wallet_does (H.digest_of node.old.hash) log.now.log
        node.old.records (WalletOrder.Leave coin)).response given) }
    ensures did { Does D.told D.plan D.faults (wallet_does (H.digest_of node.old.hash) log.now.log
        node.old.records (WalletOrder.Leave coin)) node.old (stopped_by result) node.new }
{
    let mut calls = Vec::with_capacity(alloc, 1)?;
    match node.leave(log, coin) {
        Ok(call) => {
            let tip = exit_block(&call);
            calls.push_reserved(call);
            Ok(offers(alloc, Reply::Leaving { tip }, calls))
        }
        Err(why) => refuse(alloc, &why),
    }
}

// Takes a transfer back that no block up to its last one has.
pub fn reclaim<D: Disk, H: Hash32 + Copy>(
    alloc: Global,
    node: &mut WalletNode<D, H>,
    log: &RootLog,
    bundle: &[u8],
) -> Result<Given, Stop>
    ensures gives { IfOk result (λ given. IsGiven (wallet_does (H.digest_of node.old.hash) log.now.log
        node.old.records (WalletOrder.Reclaim bundle.now)).response given) }
    ensures did { Does D.told D.plan D.faults (wallet_does (H.digest_of node.old.hash) log.now.log
        node.old.records (WalletOrder.Reclaim bundle.now)) node.old (stopped_by result) node.new }
{
    match node.reclaim(log, bundle) {
        Ok(Reclaimed { coin, q, .. }) => Ok(says(alloc, Reply::Reclaimed { coin, leaf: q })),
        Err(why) => refuse(alloc, &why),
    }
}

// Offers the calls that are due.
pub fn watch<D: Disk, H: Hash32 + Copy>(
    alloc: Global,
    node: &WalletNode<D, H>,
    log: &RootLog,
) -> Result<Given, Stop>
    requires { node.now.closed ≡ false }
    ensures gives { IfOk result (λ given. IsGiven (wallet_does (H.digest_of node.now.hash) log.now.log
        node.now.records WalletOrder.Watch).response given) }
    ensures did { Does D.told D.plan D.faults (wallet_does (H.digest_of node.now.hash) log.now.log
        node.now.records WalletOrder.Watch) node.now (stopped_by result) node.now }
{
    let calls = node.watch(log)?;
    let kinds = offer_kinds(alloc, &calls)?;
    Ok(offers(alloc, Reply::Offers { kinds }, calls))
}
