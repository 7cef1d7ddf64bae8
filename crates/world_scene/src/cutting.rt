ghost use Rattle.std.specs.Prelude.{◌≡◌, ◌<◌, ◌&&◌, true, false, length, IfOk, OnOk, IsErrOf, Some};
ghost use Rattle.std.specs.List.{All};
ghost use Rattle.std.specs.Str.{bytes_eq};
ghost use Rattle.crash_disk.specs.Outcomes.{HasPattern};
ghost use Rattle.schedule_text.specs.declared.line.Line.{Line};
ghost use Rattle.schedule_text.specs.Grammar.{node_of};
ghost use Rattle.world_rules.specs.Declarations.{may_command};
ghost use Rattle.world_rules.specs.Steps.{outcome_of};
ghost use Rattle.world_rules.specs.World.{World};
ghost use Rattle.world_nodes.specs.Nodes.{NodeView, Spells};
ghost use Rattle.world_trace.specs.declared.event.LineEvent.{LineEvent};
ghost use Rattle.world_scene.specs.Events.{TellsInRuns, EndTells};
ghost use Rattle.world_scene.specs.Moves.{Cuts};
ghost use Rattle.world_scene.specs.Orders.{NamesOwner};
ghost use Rattle.world_scene.specs.Scenes.{world_of, shows};
ghost use Rattle.world_scene.specs.Steps.{answered, shown_at_end, AllHash, AllSpell, CutsAt, FitsAt};

use super::answer::LineAnswer;
use super::calling::{idles, says};
use super::node_list::Nodes;
use super::orders::Chosen;
use super::refusal::StepRefusal;
use super::scene::Scene;
use crash_disk::Outcome;
use line_forms::OutcomeToken;
use node_replies::{Given, NodeOrder, Reply};
use plasma_base::{Hash32, NoMemory};
use plasma_tx::RootLog;
use schedule_text::Command;
use std::alloc::Global;
use world_nodes::CutEnd;
use world_tokens::outcome_of;
use world_trace::{LineEvent, event_of_finished, event_of_stopped};

impl<H: Hash32 + Copy> Nodes<H> {
    // Runs an order of the node with this number, of which so many device calls pass, and then its disks crash.
    pub(crate) fn cut(
        &mut self,
        n: usize,
        log: &RootLog,
        order: &NodeOrder,
        calls: u64,
        outcome: &Outcome,
    ) -> Result<CutEnd, NoMemory>
        requires inside { n < length self.old }
        requires fits { FitsAt self.old n order.now }
        requires pattern { HasPattern outcome.now }
        requires spells { All Spells self.old }
        ensures cuts { IfOk result (λ end.
            CutsAt H.digest_of log.now.log n calls outcome.now order.now self.old end self.new) }
        ensures spells { OnOk result (All Spells self.new) }
        ensures hash { (hash : H) → AllHash hash self.old → AllHash hash self.new }
    {
        let entry = &mut self.entries[n];
        entry.cut(log, order, calls, outcome)
    }
}

// How a cut of an order ended, as the answer of its line.
fn at_end(alloc: Global, chosen: &Chosen, end: CutEnd) -> Result<LineAnswer, NoMemory>
    ensures shows { IfOk result (λ answer. (world : World) → shown_at_end end world ≡ answered answer world) }
    ensures tells { IfOk result (λ answer. EndTells chosen.now.n chosen.now.order end answer.event) }
{
    let n = chosen.n as u64;
    Ok(match end {
        CutEnd::Down => idles(alloc, Reply::Down),
        CutEnd::Stopped { kept } => {
            let event = event_of_stopped(alloc, n, &chosen.order, &kept)?;
            says(alloc, Reply::Stopped, event)
        }
        CutEnd::Done { given } => {
            let event = event_of_finished(alloc, n, &chosen.order, &given)?;
            finished(given, event)
        }
    })
}

// What a command gave out that ended first, as the answer of its line.
fn finished(given: Given, event: LineEvent) -> LineAnswer
    ensures { result ≡ record { done = true; reply = given.reply; made = given.made; event = event } }
{
    let Given { reply, made, .. } = given;
    LineAnswer {
        done: true,
        reply,
        made,
        event,
    }
}

impl<H: Hash32 + Copy> Scene<H> {
    // A command of a node, of which so many device calls pass, and then its disks crash.
    #[tactic(auto, using(crate::proofs::Cuts::cut_of_its_node, crate::proofs::Cuts::cut_tells_of_its_node))]
    pub(crate) fn cut(
        &mut self,
        node: &[u8],
        calls: u64,
        outcome: &OutcomeToken,
        command: &Command,
    ) -> Result<LineAnswer, StepRefusal>
        requires names { NamesOwner command.now }
        requires pattern { HasPattern (outcome_of outcome.now) }
        requires spells { AllSpell self.old }
        ensures keeps { OnOk result
            ((bytes_eq (node_of command.now) node.now && may_command (world_of self.old) command.now) ≡ true) }
        ensures shows { IfOk result (λ answer. shows (H.digest_of self.old.hash) (world_of self.old)
            (Line.Cut node.now calls outcome.now command.now) ≡ Some (answered answer (world_of self.new))) }
        ensures tells { IfOk result (λ answer.
            TellsInRuns (H.digest_of self.old.hash) (world_of self.old)
            (Line.Cut node.now calls outcome.now command.now) answer.event) }
        ensures spells { OnOk result (AllSpell self.new) }
        ensures moves { OnOk result
            (Cuts H.digest_of self.old calls outcome.now command.now self.new) }
        ensures bad { IsErrOf result StepRefusal.BadLine
            → (bytes_eq (node_of command.now) node.now && may_command (world_of self.old) command.now) ≡ false }
        ensures same { IsErrOf result StepRefusal.BadLine → self.new ≡ self.old }
    {
        if command.node() != node {
            return Err(StepRefusal::BadLine);
        }
        let chosen = self.choose(command)?;
        let outcome = outcome_of(self.alloc, outcome)?;
        let log = self.contract.log();
        let end = self
            .nodes
            .cut(chosen.n, log, &chosen.order, calls, &outcome)?;
        let answer = at_end(self.alloc, &chosen, end)?;
        Ok(answer)
    }
}
