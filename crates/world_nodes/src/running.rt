ghost use Rattle.std.specs.Prelude.{◌≡◌, true, false, not, IfOk, OnOk, OnErr};
ghost use Rattle.world_rules.specs.Orders.{node_does};
ghost use Rattle.world_nodes.specs.Orders.{fits, is_opening_order};
ghost use Rattle.world_nodes.specs.Nodes.{declared_as, Spells, IsDone, Runs};

use super::boxed::BoxedSite;
use super::entry::{Entry, offer_nothing, put, put_offers, take, up_of};
use super::up::run_up;
use node_journal::Stop;
use node_replies::{Given, NodeOrder, Reply, says};
use plasma_base::{Hash32, NoMemory};
use plasma_tx::{RootCall, RootLog};
use std::alloc::Global;

// Equal calls.
fn copy_calls(alloc: Global, calls: &[RootCall]) -> Result<Vec<RootCall>, NoMemory>
    ensures { IfOk result (λ copied. copied.items ≡ calls.now) }
{
    let mut copied = Vec::with_capacity(alloc, calls.len())?;
    for call in calls {
        copied.push(call.copy()?)?;
    }
    Ok(copied)
}

impl<H: Hash32 + Copy> Entry<H> {
    /// Runs an order of the node with the log of the root chain, and gives out its answer, the bytes that it
    /// makes and the calls that it offers. A node that is down does no order but the one that opens it: it
    /// answers `Down`, and nothing changes. Only the opening of a node that is down and a command of one that is
    /// up take memory; `NoMemory` may lose the node.
    pub fn run(&mut self, log: &RootLog, order: &NodeOrder) -> Result<Given, NoMemory>
        requires fits { fits self.old.node.role order.now ≡ true }
        requires spells { Spells self.old }
        ensures runs { IfOk result (λ given.
            Runs (H.digest_of self.old.hash) log.now.log order.now self.old given self.new) }
        ensures memory { OnErr result (self.old.node.is_up ≡ not (is_opening_order order.now)) }
        ensures spells { OnOk result (Spells self.new) }
        ensures hash { self.new.hash ≡ self.old.hash }
        ensures declared { declared_as self.new.node ≡ declared_as self.old.node }
    {
        match (order, self.is_up()) {
            (NodeOrder::Open, true) => {
                offer_nothing(&mut self.offers);
                Ok(says(self.alloc, Reply::Up))
            }
            (NodeOrder::Open, false) => self.bring_up(),
            (_, true) => self.command(log, order),
            (_, false) => Ok(says(self.alloc, Reply::Down)),
        }
    }

    // Runs an order of a node that is up.
    fn command(&mut self, log: &RootLog, order: &NodeOrder) -> Result<Given, NoMemory>
        requires fits { fits self.old.node.role order.now ≡ true }
        requires is_command { is_opening_order order.now ≡ false }
        requires spells { Spells self.old }
        requires is_up { self.old.node.is_up ≡ true }
        ensures done { IfOk result (λ given. IsDone order.now
            (node_does (H.digest_of self.old.hash) log.now.log self.old.node order.now)
            self.old given self.new) }
        ensures spells { OnOk result (Spells self.new) }
        ensures hash { self.new.hash ≡ self.old.hash }
        ensures declared { declared_as self.new.node ≡ declared_as self.old.node }
    {
        let site = take(&mut self.site);
        let mut node = up_of(site);
        let given = match run_up(self.alloc, &mut node, log, order) {
            Ok(given) => given,
            Err(Stop::NoMemory) => return Err(NoMemory),
            Err(_) => unreachable!(),
        };
        let offers = copy_calls(self.alloc, &given.offers)?;
        let kept = BoxedSite::up(self.alloc, node)?;
        put(&mut self.site, kept);
        put_offers(&mut self.offers, offers);
        Ok(given)
    }
}
