ghost use Rattle.std.specs.Prelude.{◌≡◌, ◌<◌, true, false, length, IfOk, OnOk, IsErrOf, Some};
ghost use Rattle.std.specs.List.{All};
ghost use Rattle.world_trace.specs.declared.event.LineEvent.{LineEvent};
ghost use Rattle.world_nodes.specs.Nodes.{NodeView, Spells};
ghost use Rattle.schedule_text.specs.declared.line.Line.{Line};
ghost use Rattle.world_rules.specs.Declarations.{may_command};
ghost use Rattle.world_scene.specs.Orders.{NamesOwner};
ghost use Rattle.world_scene.specs.Events.{Tells};
ghost use Rattle.world_scene.specs.Moves.{Commands};
ghost use Rattle.world_scene.specs.Scenes.{world_of, shows};
ghost use Rattle.world_scene.specs.Steps.{answered, AllHash, AllSpell, RunsAt, FitsAt};

use super::answer::LineAnswer;
use super::node_list::Nodes;
use super::refusal::StepRefusal;
use super::scene::Scene;
use node_replies::{Given, NodeOrder};
use plasma_base::{Hash32, NoMemory};
use plasma_tx::RootLog;
use schedule_text::Command;
use world_trace::{LineEvent, event_of_given};

impl<H: Hash32 + Copy> Nodes<H> {
    // Runs an order of the node with this number.
    pub(crate) fn run(
        &mut self,
        n: usize,
        log: &RootLog,
        order: &NodeOrder,
    ) -> Result<Given, NoMemory>
        requires inside { n < length self.old }
        requires fits { FitsAt self.old n order.now }
        requires spells { All Spells self.old }
        ensures runs { IfOk result (λ given. RunsAt H.digest_of log.now.log n order.now self.old given self.new) }
        ensures spells { OnOk result (All Spells self.new) }
        ensures hash { (hash : H) → AllHash hash self.old → AllHash hash self.new }
    {
        let entry = &mut self.entries[n];
        entry.run(log, order)
    }
}

// What a command gives out, as the answer of its line.
fn plain(given: Given, event: LineEvent) -> LineAnswer
    ensures { result ≡ record { done = false; reply = given.reply; made = given.made; event = event } }
{
    let Given { reply, made, .. } = given;
    LineAnswer {
        done: false,
        reply,
        made,
        event,
    }
}

impl<H: Hash32 + Copy> Scene<H> {
    // A command of a node. `BadLine` comes exactly where it breaks a rule, and changes nothing.
    pub(crate) fn command(&mut self, command: &Command) -> Result<LineAnswer, StepRefusal>
        requires names { NamesOwner command.now }
        requires spells { AllSpell self.old }
        ensures keeps { OnOk result (may_command (world_of self.old) command.now ≡ true) }
        ensures shows { IfOk result (λ answer.
            shows (H.digest_of self.old.hash) (world_of self.old) (Line.Command command.now)
            ≡ Some (answered answer (world_of self.new))) }
        ensures tells { IfOk result (λ answer.
            Tells (H.digest_of self.old.hash) (world_of self.old) (Line.Command command.now) answer.event) }
        ensures spells { OnOk result (AllSpell self.new) }
        ensures moves { OnOk result (Commands H.digest_of self.old command.now self.new) }
        ensures bad { IsErrOf result StepRefusal.BadLine → may_command (world_of self.old) command.now ≡ false }
        ensures same { IsErrOf result StepRefusal.BadLine → self.new ≡ self.old }
    {
        let chosen = self.choose(command)?;
        let log = self.contract.log();
        let given = self.nodes.run(chosen.n, log, &chosen.order)?;
        let event = event_of_given(self.alloc, chosen.n as u64, &chosen.order, &given)?;
        Ok(plain(given, event))
    }
}
