ghost use Rattle.std.specs.Prelude.{◌≡◌, ◌∷◌, ◌++◌, List, false, None, Some, IfOk, OnOk, IsErrOf};
ghost use Rattle.schedule_text.specs.declared.line.Line.{Line};
ghost use Rattle.schedule_text.specs.Grammar.{IsLine};
ghost use Rattle.world_rules.specs.Declarations.{keeps_rules};
ghost use Rattle.plasma_tx.specs.Shown.{Tests, Rules};
ghost use Rattle.world_rules.specs.Events.{Event, log_of};
ghost use Rattle.world_trace.specs.Events.{IsEvent};
ghost use Rattle.world_trace.specs.Read.{declared_by};
ghost use Rattle.world_trace.specs.Traces.{Tells};
ghost use Rattle.world_scene.specs.Scenes.{SceneState};
ghost use Rattle.world_core.specs.Worlds.{world_in, HasHash, NodesSpell};
ghost use Rattle.world_core.specs.Lines.{name_in, MovesIn};
ghost use Rattle.world_core.specs.Taking.{Takes};
ghost use Rattle.world_core.specs.Counting.{with_answer};

use super::counting::with_answer;
use super::running::RunningWorld;
use node_replies::Reply;
use plasma_base::{Bytes, Hash32, NoMemory};
use schedule_text::Line;
use world_scene::{LineAnswer, Scene, StepRefusal};
use world_trace::LineEvent;

// The name of the wallet that a line declares; empty for another line.
fn name_in(line: &Line) -> &[u8]
    ensures { result.now ≡ name_in line.now }
{
    match line {
        Line::Wallet { name, .. } => name.as_slice(),
        _ => &[],
    }
}

impl<H: Hash32 + Copy> RunningWorld<H> {
    // The first line begins the chain. It stands apart, since its memory would be cleared for each line.
    #[cold]
    #[inline(never)]
    #[tactic(auto, unfolding(world_rules::specs::Declarations::keeps_rules, world_rules::specs::Steps::effect_of))]
    fn begin(&mut self, line: &Line) -> Result<LineAnswer, StepRefusal>
        requires none { self.old.scene ≡ None }
        ensures takes { IfOk result (λ answer.
            Takes (H.digest_of self.old.hash) self.old line.now answer self.new) }
        ensures hash { OnOk result (self.new.hash ≡ self.old.hash) }
        ensures nodes { OnOk result (NodesSpell self.new) }
        ensures bad { IsErrOf result StepRefusal.BadLine → keeps_rules (world_in self.old) line.now ≡ false }
        ensures same { IsErrOf result StepRefusal.BadLine → self.new ≡ self.old }
    {
        let Line::Chain {
            tag,
            operator,
            most,
        } = line
        else {
            return Err(StepRefusal::BadLine);
        };
        let scene = Scene::begin(self.alloc, self.hash, *tag, *operator, *most)?;
        self.scene = Some(scene);
        Ok(LineAnswer {
            done: false,
            reply: Reply::Chain,
            made: Bytes::from_vec(Vec::new(self.alloc)),
            event: LineEvent::Idle,
        })
    }

    /// What a line does, but for its mail item.
    #[tactic(auto, unfolding(world_rules::specs::Declarations::keeps_rules, world_rules::specs::Steps::effect_of))]
    pub(crate) fn take_line(&mut self, line: &Line) -> Result<LineAnswer, StepRefusal>
        requires grammar { IsLine line.now }
        requires nodes { NodesSpell self.old }
        ensures takes { HasHash self.old → IfOk result (λ answer.
            Takes (H.digest_of self.old.hash) self.old line.now answer self.new) }
        ensures hash { OnOk result (self.new.hash ≡ self.old.hash) }
        ensures nodes { OnOk result (NodesSpell self.new) }
        ensures moves { OnOk result (MovesIn H.digest_of self.old.scene line.now self.new.scene) }
        ensures bad { IsErrOf result StepRefusal.BadLine → keeps_rules (world_in self.old) line.now ≡ false }
        ensures same { IsErrOf result StepRefusal.BadLine → self.new ≡ self.old }
    {
        match &mut self.scene {
            None => self.begin(line),
            Some(scene) => {
                let answer = scene.take_line(line)?;
                Ok(answer)
            }
        }
    }

    /// Keeps what is kept of a line that was taken, and answered so. The chain has begun then.
    pub(crate) fn keep(
        &mut self,
        line: &Line,
        event: LineEvent,
        done: bool,
        reply: &Reply,
    ) -> Result<(), NoMemory>
        ensures rest { self.new ≡ record self.old {
          trace = self.new.trace;
          refused = with_answer self.old.refused done reply.now;
        } }
        ensures told { (scene : SceneState H) → self.old.scene ≡ Some scene
            → (tests : Tests) (rules : Rules) (events : List Event) (told : Event)
            → Tells (H.digest_of self.old.hash) tests rules events self.old.trace
            → IsEvent tests rules (log_of events) told event
            → scene.chain.log ≡ log_of (told ∷ events) → scene.chain.tag ≡ rules.tag
            → OnOk result (Tells (H.digest_of self.old.hash) tests rules (told ∷ events) self.new.trace) }
        ensures named { (scene : SceneState H) → self.old.scene ≡ Some scene
            → OnOk result (self.new.trace.wallets
            ≡ self.old.trace.wallets ++ declared_by (name_in line.now) event) }
    {
        self.refused = with_answer(self.refused, done, reply);
        match &self.scene {
            None => Ok(()),
            Some(scene) => self
                .trace
                .push(&self.hash, scene.log(), name_in(line), event),
        }
    }
}
