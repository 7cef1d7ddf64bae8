ghost use Rattle.std.specs.Prelude.{◌≡◌, ◌<◌, ◌==◌, ◌-◌, if◌then◌else◌, length, true, false, IfOk, OnOk, IsErrOf, Some, None, slice_get};
ghost use Rattle.std.specs.Option.{option_copied};
ghost use Rattle.schedule_text.specs.declared.line.Line.{Line};
ghost use Rattle.schedule_text.specs.Grammar.{IsCallForm};
ghost use Rattle.world_rules.specs.Declarations.{keeps_rules_in, is_declared};
ghost use Rattle.world_scene.specs.Scenes.{world_of, shown_of, shows};
ghost use Rattle.world_rules.specs.World.{any_role};
ghost use Rattle.world_rules.specs.Steps.{effect_in, entered};
ghost use Rattle.world_scene.specs.Steps.{answered, AllSpell, NodesStay, OfferAt};
ghost use Rattle.world_scene.specs.Events.{TellsEffect, Tells};

use super::answer::LineAnswer;
use super::calling::idles;
use super::names::Roles;
use super::refusal::StepRefusal;
use super::scene::Scene;
use node_replies::Reply;
use plasma_base::{Hash32, NoMemory};
use plasma_tx::RootCall;
use schedule_text::CallForm;
use world_nodes::Entry;

// The call that a node offers by this number, counted from 1, lent.
fn numbered(offers: &[RootCall], number: u64) -> Option<&RootCall>
    ensures { option_copied result ≡ (if number == 0 then None else slice_get offers.now (number - 1)) }
{
    if number == 0 {
        return None;
    }
    offers.get((number - 1) as usize)
}

// The call that the node with this number offers by its own, lent.
fn offer_at<H: Hash32 + Copy>(entries: &[Entry<H>], n: usize, number: u64) -> Option<&RootCall>
    requires { n < length entries.now }
    ensures { OfferAt entries.now n number (option_copied result) }
{
    numbered(entries[n].offers(), number)
}

// A copy of a call, if there is one.
fn copied(call: Option<&RootCall>) -> Result<Option<RootCall>, NoMemory>
    ensures { IfOk result (λ copy. copy ≡ option_copied call.entry) }
{
    match call {
        Some(call) => Ok(Some(call.copy()?)),
        None => Ok(None),
    }
}

impl<H: Hash32 + Copy> Scene<H> {
    // A copy of the call that the node with this number offers by its own.
    fn offer_numbered(&self, n: usize, number: u64) -> Result<Option<RootCall>, NoMemory>
        requires { n < length self.now.nodes }
        ensures { IfOk result (λ offer. OfferAt self.now.nodes n number offer) }
    {
        copied(offer_at(self.nodes.as_slice(), n, number))
    }

    // A copy of the call that a node offers by this number.
    fn offer_of(&self, node: &[u8], number: u64) -> Result<Option<RootCall>, StepRefusal>
        ensures keeps { OnOk result (is_declared any_role (world_of self.now) node.now ≡ true) }
        ensures does { IfOk result (λ offer.
            effect_in (H.digest_of self.now.hash) (world_of self.now) (Line.Enter node.now number)
            ≡ Some (entered (H.digest_of self.now.hash) (world_of self.now) offer)) }
        ensures bad { IsErrOf result StepRefusal.BadLine → is_declared any_role (world_of self.now) node.now ≡ false }
    {
        let Some(n) = self.number_of(Roles::Any, node) else {
            return Err(StepRefusal::BadLine);
        };
        let offer = self.offer_numbered(n, number)?;
        Ok(offer)
    }

    // An offered call is entered, where there is one.
    fn enter_offer(&mut self, offer: Option<RootCall>) -> Result<LineAnswer, NoMemory>
        ensures shows { IfOk result (λ answer.
            shown_of (entered (H.digest_of self.old.hash) (world_of self.old) offer)
            ≡ answered answer (world_of self.new)) }
        ensures tells { IfOk result (λ answer. TellsEffect (H.digest_of self.old.hash) (world_of self.old) answer.event
            (entered (H.digest_of self.old.hash) (world_of self.old) offer)) }
        ensures nodes { OnOk result (NodesStay self.old self.new) }
    {
        match offer {
            Some(call) => self.enter_own(call),
            None => Ok(idles(self.alloc, Reply::Nothing)),
        }
    }

    // A call that a node offers is entered, where it has one by this number.
    pub(crate) fn enter(&mut self, node: &[u8], number: u64) -> Result<LineAnswer, StepRefusal>
        ensures keeps { OnOk result (is_declared any_role (world_of self.old) node.now ≡ true) }
        ensures shows { IfOk result (λ answer.
            shows (H.digest_of self.old.hash) (world_of self.old) (Line.Enter node.now number)
            ≡ Some (answered answer (world_of self.new))) }
        ensures tells { IfOk result (λ answer.
            Tells (H.digest_of self.old.hash) (world_of self.old) (Line.Enter node.now number) answer.event) }
        ensures spells { AllSpell self.old → OnOk result (AllSpell self.new) }
        ensures nodes { OnOk result (NodesStay self.old self.new) }
        ensures bad { IsErrOf result StepRefusal.BadLine → is_declared any_role (world_of self.old) node.now ≡ false }
        ensures same { IsErrOf result StepRefusal.BadLine → self.new ≡ self.old }
    {
        let offer = self.offer_of(node, number)?;
        let answer = self.enter_offer(offer)?;
        Ok(answer)
    }

    // Money comes to an account.
    #[tactic(auto, unfolding(world_rules::specs::Steps::effect_in))]
    pub(crate) fn fund(&mut self, account: u64, amount: u64) -> Result<LineAnswer, StepRefusal>
        ensures shows { IfOk result (λ answer. shows (H.digest_of self.old.hash) (world_of self.old)
            (Line.Fund account amount) ≡ Some (answered answer (world_of self.new))) }
        ensures tells { IfOk result (λ answer.
            Tells (H.digest_of self.old.hash) (world_of self.old) (Line.Fund account amount) answer.event) }
        ensures spells { AllSpell self.old → OnOk result (AllSpell self.new) }
        ensures nodes { OnOk result (NodesStay self.old self.new) }
        ensures never { IsErrOf result StepRefusal.BadLine → ⊥ }
    {
        let answer = self.enter_own(RootCall::Fund { account, amount })?;
        Ok(answer)
    }

    // The clock is set.
    #[tactic(auto, unfolding(world_rules::specs::Steps::effect_in))]
    pub(crate) fn tick(&mut self, time: u64) -> Result<LineAnswer, StepRefusal>
        ensures shows { IfOk result (λ answer. shows (H.digest_of self.old.hash) (world_of self.old)
            (Line.Tick time) ≡ Some (answered answer (world_of self.new))) }
        ensures tells { IfOk result (λ answer.
            Tells (H.digest_of self.old.hash) (world_of self.old) (Line.Tick time) answer.event) }
        ensures spells { AllSpell self.old → OnOk result (AllSpell self.new) }
        ensures nodes { OnOk result (NodesStay self.old self.new) }
        ensures never { IsErrOf result StepRefusal.BadLine → ⊥ }
    {
        let answer = self.enter_own(RootCall::Tick { now: time })?;
        Ok(answer)
    }

    // A deposit by a wallet's account with its key.
    #[tactic(auto, unfolding(world_rules::specs::Steps::effect_in))]
    pub(crate) fn deposit(&mut self, wallet: &[u8], amount: u64) -> Result<LineAnswer, StepRefusal>
        ensures keeps { OnOk result (keeps_rules_in (world_of self.old) (Line.Deposit wallet.now amount) ≡ true) }
        ensures shows { IfOk result (λ answer. shows (H.digest_of self.old.hash) (world_of self.old)
            (Line.Deposit wallet.now amount) ≡ Some (answered answer (world_of self.new))) }
        ensures tells { IfOk result (λ answer.
            Tells (H.digest_of self.old.hash) (world_of self.old) (Line.Deposit wallet.now amount) answer.event) }
        ensures spells { AllSpell self.old → OnOk result (AllSpell self.new) }
        ensures nodes { OnOk result (NodesStay self.old self.new) }
        ensures bad { IsErrOf result StepRefusal.BadLine
            → keeps_rules_in (world_of self.old) (Line.Deposit wallet.now amount) ≡ false }
        ensures same { IsErrOf result StepRefusal.BadLine → self.new ≡ self.old }
    {
        let Some(owner) = self.wallet_named(wallet) else {
            return Err(StepRefusal::BadLine);
        };
        let key = owner.key;
        let call = RootCall::Deposit {
            account: owner.account,
            amount,
            key,
        };
        let answer = self.enter_own(call)?;
        Ok(answer)
    }

    // The call of a `call` line.
    #[tactic(auto, unfolding(world_rules::specs::Steps::effect_in))]
    pub(crate) fn raw_call(
        &mut self,
        account: u64,
        form: &CallForm,
    ) -> Result<LineAnswer, StepRefusal>
        requires { IsCallForm form.now }
        ensures keeps { OnOk result (keeps_rules_in (world_of self.old) (Line.Call account form.now) ≡ true) }
        ensures shows { IfOk result (λ answer. shows (H.digest_of self.old.hash) (world_of self.old)
            (Line.Call account form.now) ≡ Some (answered answer (world_of self.new))) }
        ensures tells { IfOk result (λ answer.
            Tells (H.digest_of self.old.hash) (world_of self.old) (Line.Call account form.now) answer.event) }
        ensures spells { AllSpell self.old → OnOk result (AllSpell self.new) }
        ensures nodes { OnOk result (NodesStay self.old self.new) }
        ensures bad { IsErrOf result StepRefusal.BadLine
            → keeps_rules_in (world_of self.old) (Line.Call account form.now) ≡ false }
        ensures same { IsErrOf result StepRefusal.BadLine → self.new ≡ self.old }
    {
        if self.is_wallet_account(account) {
            return Err(StepRefusal::BadLine);
        }
        let Some(call) = self.call_of(account, form)? else {
            return Err(StepRefusal::BadLine);
        };
        let entered = self.enter_raw(account, &call);
        drop(call);
        let answer = entered?;
        Ok(answer)
    }
}
