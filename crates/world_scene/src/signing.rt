ghost use Rattle.std.specs.Prelude.{◌≡◌, true, false, IfOk, OnOk, IsErrOf, Some};
ghost use Rattle.line_forms.specs.Tokens.{IsHexOrName};
ghost use Rattle.schedule_text.specs.declared.line.Line.{Line};
ghost use Rattle.world_rules.specs.Declarations.{keeps_rules_in};
ghost use Rattle.world_scene.specs.Scenes.{world_of, shows};
ghost use Rattle.world_scene.specs.Steps.{answered};
ghost use Rattle.world_scene.specs.Events.{Tells};

use super::answer::LineAnswer;
use super::refusal::StepRefusal;
use super::scene::Scene;
use line_forms::HexOrName;
use node_replies::Reply;
use plasma_base::Hash32;
use plasma_tx::Body;
use world_trace::LineEvent;

impl<H: Hash32 + Copy> Scene<H> {
    // A transfer that a rogue signs by this leaf of its key.
    #[tactic(auto, unfolding(world_rules::specs::Steps::effect_in))]
    pub(crate) fn sign(
        &self,
        rogue: &[u8],
        leaf: u64,
        coin: u64,
        parent: u64,
        to: &HexOrName,
        last: Option<u64>,
    ) -> Result<LineAnswer, StepRefusal>
        requires { IsHexOrName 64 to.now }
        ensures keeps { OnOk result (keeps_rules_in (world_of self.now)
            (Line.Sign rogue.now leaf coin parent to.now last) ≡ true) }
        ensures shows { IfOk result (λ answer. shows (H.digest_of self.now.hash) (world_of self.now)
            (Line.Sign rogue.now leaf coin parent to.now last) ≡ Some (answered answer (world_of self.now))) }
        ensures tells { IfOk result (λ answer.
            Tells (H.digest_of self.now.hash) (world_of self.now)
            (Line.Sign rogue.now leaf coin parent to.now last) answer.event) }
        ensures bad { IsErrOf result StepRefusal.BadLine → keeps_rules_in (world_of self.now)
            (Line.Sign rogue.now leaf coin parent to.now last) ≡ false }
    {
        let Some(to) = self.new_owner_of(to)? else {
            return Err(StepRefusal::BadLine);
        };
        let Some(rogue) = self.rogue_named(rogue) else {
            return Err(StepRefusal::BadLine);
        };
        if u64::from(rogue.leaves()?) <= leaf {
            return Err(StepRefusal::BadLine);
        }
        let tag = self.contract.log().tag();
        let body = Body {
            tag,
            coin,
            parent,
            to,
            last,
        };
        let made = rogue.sign(self.alloc, leaf as u32, &body)?;
        Ok(LineAnswer {
            done: false,
            reply: Reply::Signed,
            made,
            event: LineEvent::Idle,
        })
    }
}
