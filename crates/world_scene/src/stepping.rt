ghost use Rattle.std.specs.Prelude.{◌≡◌, true, false, IfOk, OnOk, IsErrOf, Some};
ghost use Rattle.schedule_text.specs.Grammar.{IsLine};
ghost use Rattle.world_rules.specs.Declarations.{keeps_rules_in};
ghost use Rattle.world_scene.specs.Scenes.{world_of, shows};
ghost use Rattle.world_scene.specs.Steps.{answered, AllSpell};
ghost use Rattle.world_scene.specs.Events.{TellsInRuns};
ghost use Rattle.world_scene.specs.Moves.{Moves};

use super::answer::LineAnswer;
use super::refusal::StepRefusal;
use super::scene::Scene;
use plasma_base::Hash32;
use plasma_tx::RootCall;
use schedule_text::Line;

impl<H: Hash32 + Copy> Scene<H> {
    // What a line does in the world, but for its mail item. `BadLine` comes exactly where it breaks a rule of
    // declarations, and changes nothing.
    #[tactic(auto, unfolding(world_rules::specs::Steps::effect_in))]
    pub fn take_line(&mut self, line: &Line) -> Result<LineAnswer, StepRefusal>
        requires grammar { IsLine line.now }
        requires spells { AllSpell self.old }
        ensures keeps { OnOk result (keeps_rules_in (world_of self.old) line.now ≡ true) }
        ensures shows { IfOk result (λ answer. shows (H.digest_of self.old.hash) (world_of self.old) line.now
            ≡ Some (answered answer (world_of self.new))) }
        ensures tells { IfOk result (λ answer.
            TellsInRuns (H.digest_of self.old.hash) (world_of self.old) line.now answer.event) }
        ensures spells { OnOk result (AllSpell self.new) }
        ensures moves { OnOk result (Moves H.digest_of self.old line.now self.new) }
        ensures bad { IsErrOf result StepRefusal.BadLine → keeps_rules_in (world_of self.old) line.now ≡ false }
        ensures same { IsErrOf result StepRefusal.BadLine → self.new ≡ self.old }
    {
        match line {
            Line::Chain { .. } => Err(StepRefusal::BadLine),
            Line::Wallet {
                name,
                account,
                seed,
                types,
            } => self.declare_wallet(name, *account, *seed, *types),
            Line::Watcher { name, account } => self.declare_watcher(name, *account),
            Line::Rogue {
                name,
                account,
                seed,
                types,
            } => self.declare_rogue(name, *account, *seed, *types),
            Line::Fund { account, amount } => self.fund(*account, *amount),
            Line::Tick { time } => self.tick(*time),
            Line::Money { account } => Ok(self.tell_money(*account)),
            Line::Deposit { wallet, amount } => self.deposit(wallet.as_slice(), *amount),
            Line::Call { account, form } => self.raw_call(*account, form),
            Line::Enter { node, number } => self.enter(node.as_slice(), *number),
            Line::Command { command } => self.command(command),
            Line::Sign {
                rogue,
                leaf,
                coin,
                parent,
                to,
                last,
            } => { self.sign(rogue.as_slice(), *leaf, *coin, *parent, to, *last) }
            Line::Crash { node, outcome } => self.crash(node.as_slice(), outcome),
            Line::Cut {
                node,
                calls,
                outcome,
                command,
            } => self.cut(node.as_slice(), *calls, outcome, command),
        }
    }
}
