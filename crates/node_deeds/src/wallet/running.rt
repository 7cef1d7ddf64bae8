ghost use Rattle.std.specs.Prelude.{◌≡◌, false, IfOk};
ghost use Rattle.node_journal.specs.Notes.{stopped_by};
ghost use Rattle.node_replies.specs.Given.{IsGiven};
ghost use Rattle.node_replies.specs.Orders.{wallet_does};
ghost use Rattle.node_deeds.specs.WalletOrders.{Does};

use super::leaf_orders::{again, migrate, send};
use super::note_orders::{accept, leave, reclaim, watch};
use crash_disk::Disk;
use node_journal::Stop;
use node_replies::{Given, WalletOrder};
use plasma_base::Hash32;
use plasma_tx::RootLog;
use std::alloc::Global;
use wallet_node::WalletNode;

/// Runs an order on a wallet that no fault closed, with the log of the root chain, and gives out its answer, the
/// bytes that it makes and the calls that it offers. A refusal of the wallet is such an answer, by the text of its
/// cause.
///
/// `NoMemory` may come in place of each answer, and nothing changed then. `DeviceFault` where a call on a disk
/// fails, which closes the wallet.
pub fn run_wallet_order<D: Disk, H: Hash32 + Copy>(
    alloc: Global,
    node: &mut WalletNode<D, H>,
    log: &RootLog,
    order: &WalletOrder,
) -> Result<Given, Stop>
    requires { node.old.closed ≡ false }
    ensures gives { IfOk result (λ given. IsGiven (wallet_does (H.digest_of node.old.hash) log.now.log
        node.old.records order.now).response given) }
    ensures did { Does D.told D.plan D.faults (wallet_does (H.digest_of node.old.hash) log.now.log
        node.old.records order.now) node.old (stopped_by result) node.new }
{
    match order {
        WalletOrder::Accept { bundle } => accept(alloc, node, log, bundle.as_slice()),
        WalletOrder::Send { coin, to, last } => send(alloc, node, log, *coin, to, *last),
        WalletOrder::Again { coin } => again(alloc, node, *coin),
        WalletOrder::Leave { coin } => leave(alloc, node, log, *coin),
        WalletOrder::Reclaim { bundle } => reclaim(alloc, node, log, bundle.as_slice()),
        WalletOrder::Migrate => migrate(alloc, node),
        WalletOrder::Watch => watch(alloc, node, log),
    }
}
