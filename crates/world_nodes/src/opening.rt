ghost use Rattle.std.specs.Prelude.{◌≡◌, [], false, IfOk, OnOk};
ghost use Rattle.node_replies.specs.declared.order.NodeOrder.{NodeOrder};
ghost use Rattle.world_rules.specs.Orders.{node_does};
ghost use Rattle.world_nodes.specs.Nodes.{declared_as, Spells, IsDone};

use super::boxed::BoxedSite;
use super::entry::{Entry, closed_of, offer_nothing, put, take};
use super::up::counts;
use node_replies::{Given, Reply, says};
use plasma_base::{Hash32, NoMemory};

impl<H: Hash32 + Copy> Entry<H> {
    // Opens a node that is down. No log is asked for.
    pub(crate) fn bring_up(&mut self) -> Result<Given, NoMemory>
        requires spells { Spells self.old }
        requires is_down { self.old.node.is_up ≡ false }
        ensures done { IfOk result (λ given. IsDone NodeOrder.Open
            (node_does (H.digest_of self.old.hash) [] self.old.node NodeOrder.Open) self.old given self.new) }
        ensures spells { OnOk result (Spells self.new) }
        ensures hash { self.new.hash ≡ self.old.hash }
        ensures declared { declared_as self.new.node ≡ declared_as self.old.node }
    {
        self.is_of_role();
        let site = take(&mut self.site);
        let down = closed_of(site);
        let node = down.open_up(self.alloc, self.hash)?;
        let (notes, leaves) = counts(&node);
        let kept = BoxedSite::up(self.alloc, node)?;
        put(&mut self.site, kept);
        offer_nothing(&mut self.offers);
        Ok(says(self.alloc, Reply::Opened { notes, leaves }))
    }
}
