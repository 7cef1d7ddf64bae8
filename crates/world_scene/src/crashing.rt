ghost use Rattle.std.specs.Prelude.{◌≡◌, ◌<◌, true, false, length, IfOk, OnOk, IsErrOf, Some};
ghost use Rattle.std.specs.List.{All};
ghost use Rattle.crash_disk.specs.Outcomes.{HasPattern};
ghost use Rattle.schedule_text.specs.declared.line.Line.{Line};
ghost use Rattle.world_rules.specs.World.{any_role};
ghost use Rattle.world_rules.specs.Steps.{outcome_of};
ghost use Rattle.world_rules.specs.Declarations.{is_declared};
ghost use Rattle.world_nodes.specs.Nodes.{NodeView, Spells};
ghost use Rattle.world_scene.specs.Events.{Tells};
ghost use Rattle.world_scene.specs.Moves.{Crashes};
ghost use Rattle.world_scene.specs.Scenes.{world_of, shows};
ghost use Rattle.world_scene.specs.Steps.{answered, AllHash, AllSpell, CrashesAt};

use super::answer::LineAnswer;
use super::calling::says;
use super::names::Roles;
use super::node_list::Nodes;
use super::refusal::StepRefusal;
use super::scene::Scene;
use crash_disk::Outcome;
use line_forms::OutcomeToken;
use node_replies::Reply;
use plasma_base::{Hash32, NoMemory};
use world_tokens::outcome_of;
use world_trace::LineEvent;

impl<H: Hash32 + Copy> Nodes<H> {
    // The node with this number goes down, and its disks crash.
    pub(crate) fn crash(&mut self, n: usize, outcome: &Outcome) -> Result<(), NoMemory>
        requires inside { n < length self.old }
        requires pattern { HasPattern outcome.now }
        requires spells { All Spells self.old }
        ensures crashes { OnOk result (CrashesAt n outcome.now self.old self.new) }
        ensures spells { OnOk result (All Spells self.new) }
        ensures hash { (hash : H) → AllHash hash self.old → AllHash hash self.new }
    {
        let entry = &mut self.entries[n];
        entry.crash(outcome)
    }
}

impl<H: Hash32 + Copy> Scene<H> {
    // A node goes down, and its disks crash.
    pub(crate) fn crash(
        &mut self,
        node: &[u8],
        outcome: &OutcomeToken,
    ) -> Result<LineAnswer, StepRefusal>
        requires pattern { HasPattern (outcome_of outcome.now) }
        requires spells { AllSpell self.old }
        ensures keeps { OnOk result (is_declared any_role (world_of self.old) node.now ≡ true) }
        ensures shows { IfOk result (λ answer.
            shows (H.digest_of self.old.hash) (world_of self.old) (Line.Crash node.now outcome.now)
            ≡ Some (answered answer (world_of self.new))) }
        ensures tells { IfOk result (λ answer.
            Tells (H.digest_of self.old.hash) (world_of self.old) (Line.Crash node.now outcome.now) answer.event) }
        ensures spells { OnOk result (AllSpell self.new) }
        ensures moves { OnOk result (Crashes self.old node.now outcome.now self.new) }
        ensures bad { IsErrOf result StepRefusal.BadLine → is_declared any_role (world_of self.old) node.now ≡ false }
        ensures same { IsErrOf result StepRefusal.BadLine → self.new ≡ self.old }
    {
        let Some(n) = self.number_of(Roles::Any, node) else {
            return Err(StepRefusal::BadLine);
        };
        let image = outcome_of(self.alloc, outcome)?;
        self.nodes.crash(n, &image)?;
        Ok(says(
            self.alloc,
            Reply::Crashed,
            LineEvent::Other { node: n as u64 },
        ))
    }
}
