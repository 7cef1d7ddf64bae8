ghost use Rattle.std.specs.Prelude.{◌≡◌, ◌-◌, ℕ, true, false, length, IfOk};
ghost use Rattle.node_journal.specs.Notes.{stopped_by};
ghost use Rattle.leaf_journal.specs.Records.{messages_of};
ghost use Rattle.node_replies.specs.Given.{IsGiven};
ghost use Rattle.world_rules.specs.Orders.{node_does};
ghost use Rattle.world_nodes.specs.declared.entry.Site.{Site};
ghost use Rattle.world_nodes.specs.Boxed.{site_in};
ghost use Rattle.world_nodes.specs.Orders.{fits, is_opening_order};
ghost use Rattle.world_nodes.specs.Nodes.{role_of, AreOf};
ghost use Rattle.world_nodes.specs.Inside.{bare_node, leaves_of, records_in, taken_down, up_closed, up_halves, up_hash, up_kind, UpDid};

use super::boxed::Held;
use super::down::DownNode;
use crash_disk::MemDisk;
use node_deeds::{run_operator_order, run_wallet_order, run_watcher_order};
use node_journal::Stop;
use node_replies::{Given, NodeOrder};
use operator_core::Operator;
use plasma_base::{Hash32, NoMemory};
use plasma_tx::RootLog;
use std::alloc::Global;
use wallet_node::WalletNode;
use watcher_node::WatcherNode;

/// A node that is up.
pub enum UpNode<H: Hash32 + Copy> {
    Wallet(WalletNode<MemDisk, H>),
    Watcher(WatcherNode<MemDisk, H>),
    Operator(Operator<MemDisk, H>),
}

// Written by hand, so that each place that lets a node go calls it; a derived one is proved anew at each.
impl<H: Hash32 + Copy> Drop for UpNode<H> {
    fn drop(self) {
        let _ = self.take_down();
    }
}

// Runs an order on a node that is up.
pub fn run_up<H: Hash32 + Copy>(
    alloc: Global,
    node: &mut UpNode<H>,
    log: &RootLog,
    order: &NodeOrder,
) -> Result<Given, Stop>
    requires fits { fits (role_of (up_kind node.old)) order.now ≡ true }
    requires is_command { is_opening_order order.now ≡ false }
    requires is_open { up_closed node.old ≡ false }
    ensures gives { IfOk result (λ given. IsGiven
        (node_does (H.digest_of (up_hash node.old)) log.now.log (bare_node (up_halves node.old)) order.now).response
        given) }
    ensures did { UpDid
        (node_does (H.digest_of (up_hash node.old)) log.now.log (bare_node (up_halves node.old)) order.now)
        node.old (stopped_by result) node.new }
{
    match node {
        UpNode::Wallet(node) => match order {
            NodeOrder::Wallet(order) => run_wallet_order(alloc, node, log, order),
            _ => unreachable!(),
        },
        UpNode::Watcher(node) => match order {
            NodeOrder::Watcher(order) => run_watcher_order(alloc, node, log, order),
            _ => unreachable!(),
        },
        UpNode::Operator(node) => match order {
            NodeOrder::Operator(order) => run_operator_order(alloc, node, log, order),
            _ => unreachable!(),
        },
    }
}

// How many records a node that is up has without its identity, and how many of its leaves are bound.
pub fn counts<H: Hash32 + Copy>(node: &UpNode<H>) -> (u64, u64)
    ensures notes { result.0 ≡ length (up_halves node.now).notes.records - 1 }
    ensures leaves { result.1 ≡ length (messages_of (leaves_of (up_halves node.now))) }
{
    match node {
        UpNode::Wallet(node) => node.records(),
        UpNode::Watcher(node) => node.records(),
        UpNode::Operator(node) => node.records(),
    }
}

impl<H: Hash32 + Copy> UpNode<H> {
    // What holds of every node that is up: its records are of its role. It does nothing.
    pub fn is_whole(&self)
        ensures { AreOf (H.digest_of (up_hash self.now)) (role_of (up_kind self.now))
            (records_in (up_halves self.now)) }
    {
        match self {
            UpNode::Wallet(node) => node.is_whole(),
            UpNode::Watcher(node) => node.is_whole(),
            UpNode::Operator(node) => node.is_whole(),
        }
    }

    // The disks of a node that is up, and a wallet's key.
    pub fn take_down(self) -> DownNode
        ensures { result ≡ taken_down self }
    {
        match self {
            UpNode::Wallet(node) => {
                let (notes, leaves, key) = node.take_apart();
                DownNode::Wallet { notes, leaves, key }
            }
            UpNode::Watcher(node) => DownNode::Watcher {
                notes: node.take_disk(),
            },
            UpNode::Operator(node) => DownNode::Operator {
                notes: node.take_disk(),
            },
        }
    }

    // The node, held.
    pub fn hold(self, alloc: Global) -> Result<Held<H>, NoMemory>
        ensures { IfOk result (λ held. site_in held ≡ Site.Up self) }
    {
        Ok(match self {
            UpNode::Wallet(node) => Held::Wallet(Box::new(alloc, node)?),
            UpNode::Watcher(node) => Held::Watcher(Box::new(alloc, node)?),
            UpNode::Operator(node) => Held::Operator(Box::new(alloc, node)?),
        })
    }
}
