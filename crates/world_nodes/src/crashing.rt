ghost use Rattle.std.specs.Prelude.{◌≡◌, OnOk};
ghost use Rattle.crash_disk.specs.Outcomes.{HasPattern};
ghost use Rattle.world_nodes.specs.Nodes.{declared_as, Spells, Crashes};

use super::boxed::BoxedSite;
use super::entry::{Entry, down_of, offer_nothing, put, take};
use crash_disk::Outcome;
use plasma_base::{Hash32, NoMemory};

impl<H: Hash32 + Copy> Entry<H> {
    /// Brings the node down: each of its disks crashes with this outcome. Its records stay, and it offers
    /// nothing. The bytes of a mix aren't empty. `NoMemory` may lose the node.
    pub fn crash(&mut self, outcome: &Outcome) -> Result<(), NoMemory>
        requires pattern { HasPattern outcome.now }
        requires spells { Spells self.old }
        ensures crashes { OnOk result (Crashes outcome.now self.old self.new) }
        ensures spells { OnOk result (Spells self.new) }
        ensures hash { self.new.hash ≡ self.old.hash }
        ensures declared { declared_as self.new.node ≡ declared_as self.old.node }
    {
        self.is_of_role();
        let site = take(&mut self.site);
        let down = down_of(site);
        let down = down.crash(outcome)?;
        let kept = BoxedSite::down(self.alloc, down)?;
        put(&mut self.site, kept);
        offer_nothing(&mut self.offers);
        Ok(())
    }
}
