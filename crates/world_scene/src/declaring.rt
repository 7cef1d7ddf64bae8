ghost use Rattle.std.specs.Prelude.{◌≡◌, ◌&&◌, true, false, length, IfOk, OnOk, IsErrOf, OnErr, Some, None};
ghost use Rattle.world_trace.specs.declared.event.LineEvent.{LineEvent};
ghost use Rattle.node_rules.specs.WalletRecords.{owner_of};
ghost use Rattle.world_scene.specs.Events.{Tells};
ghost use Rattle.world_tokens.specs.Tokens.{AreTypes};
ghost use Rattle.lms_sign.specs.Types.{is_supported};
ghost use Rattle.world_rules.specs.World.{any_role, owner_of_node, is_wallet_role, rogue_named};
ghost use Rattle.world_rules.specs.Declarations.{may_be_wallet, may_be_other, declared_wallet, is_declared, is_wallet_key};
ghost use Rattle.world_rules.specs.Steps.{declares_wallet, declares_watcher, declares_rogue, with_new_node};
ghost use Rattle.world_nodes.specs.Nodes.{Spells};
ghost use Rattle.world_scene.specs.Scenes.{world_of, shown_of, shows};
ghost use Rattle.schedule_text.specs.declared.line.Line.{Line};
ghost use Rattle.world_scene.specs.Steps.{answered, AllSpell, NodesGrow, NodesStay, may_begin, with_new_rogue};

use super::answer::LineAnswer;
use super::calling::{idles, says};
use super::refusal::StepRefusal;
use super::scene::Scene;
use lms_sign::LmsTypes;
use node_replies::Reply;
use node_rules::WalletIdentity;
use plasma_base::{Bytes, Hash32, NoMemory};
use world_nodes::Entry;
use world_rules::MOST_WALLETS;
use world_tokens::{KeyPlace, Rogue, declared_wallet};
use world_trace::LineEvent;

impl<H: Hash32 + Copy> Scene<H> {
    // Whether a wallet may be declared, but for its key.
    fn may_begin(&self, name: &[u8], who: &WalletIdentity) -> bool
        ensures { result ≡ may_begin (world_of self.now) name.now who.now }
    {
        !self.is_used(name)
            && (self.count_wallets() as u64) < MOST_WALLETS
            && !(self.is_declared_account(who.account) || self.is_caller(who.account))
            && !self.is_wallet_seed(&who.seed)
    }

    // Whether a wallet has the key of the node, which is a wallet.
    fn has_key_of(&self, entry: &Entry<H>) -> bool
        requires { is_wallet_role entry.now.node.role ≡ true }
        ensures { result ≡ is_wallet_key (world_of self.now) (owner_of_node entry.now.node).key }
    {
        match entry.owner() {
            Some(owner) => self.is_wallet_key(&owner.key),
            None => false,
        }
    }

    // The event that the node, which is a wallet, is declared next.
    fn event_of_wallet(&self, entry: &Entry<H>) -> LineEvent
        requires { is_wallet_role entry.now.node.role ≡ true }
        ensures { result ≡ LineEvent.Declares (length self.now.nodes) (owner_of_node entry.now.node) }
    {
        match entry.owner() {
            Some(owner) => LineEvent::Declares {
                wallet: self.nodes.len() as u64,
                owner,
            },
            None => LineEvent::Idle,
        }
    }

    // One more node, whose name is new.
    fn add_node(&mut self, entry: Entry<H>) -> Result<(), NoMemory>
        requires spells { AllSpell self.old }
        requires new { is_declared any_role (world_of self.old) entry.node.name ≡ false }
        requires spelled { Spells entry }
        requires hash { entry.hash ≡ self.old.hash }
        ensures world { OnOk result (world_of self.new ≡ with_new_node (world_of self.old) entry.node) }
        ensures spells { OnOk result (AllSpell self.new) }
        ensures grow { OnOk result (NodesGrow self.old self.new) }
        ensures same { OnErr result (self.new ≡ self.old) }
    {
        self.nodes.push(entry)?;
        Ok(())
    }

    // A wallet with this identity is declared, and its key made.
    fn begin_wallet(
        &mut self,
        name: &Bytes,
        who: &WalletIdentity,
    ) -> Result<LineAnswer, StepRefusal>
        requires types { is_supported who.now.types ≡ true }
        requires spells { AllSpell self.old }
        ensures keeps { OnOk result (may_be_wallet (world_of self.old) name.now who.now ≡ true) }
        ensures shows { IfOk result (λ answer. shown_of (declares_wallet (world_of self.old) name.now who.now)
            ≡ answered answer (world_of self.new)) }
        ensures event { IfOk result (λ answer.
            answer.event ≡ LineEvent.Declares (length self.old.nodes) (owner_of who.now)) }
        ensures spells { OnOk result (AllSpell self.new) }
        ensures grow { OnOk result (NodesGrow self.old self.new) }
        ensures bad { IsErrOf result StepRefusal.BadLine → may_be_wallet (world_of self.old) name.now who.now ≡ false }
        ensures same { IsErrOf result StepRefusal.BadLine → self.new ≡ self.old }
    {
        if !self.may_begin(name.as_slice(), who) {
            return Err(StepRefusal::BadLine);
        }
        let name = name.copy()?;
        let entry = Entry::wallet(self.alloc, self.hash, name, who)?;
        if self.has_key_of(&entry) {
            return Err(StepRefusal::BadLine);
        }
        let event = self.event_of_wallet(&entry);
        self.add_node(entry)?;
        Ok(says(self.alloc, Reply::Wallet, event))
    }

    // The identity of a wallet that a line declares.
    fn identity_of(&self, account: u64, seed: u64, types: Option<LmsTypes>) -> WalletIdentity
        requires { AreTypes types }
        ensures value { result ≡ declared_wallet (world_of self.now) account seed types }
        ensures supported { is_supported result.types ≡ true }
    {
        declared_wallet(&self.contract.log().tag(), account, seed, types)
    }

    // A wallet is declared, and its key made. `BadLine` comes exactly where it breaks a rule, and changes nothing.
    #[tactic(auto, unfolding(world_rules::specs::Steps::effect_in))]
    pub(crate) fn declare_wallet(
        &mut self,
        name: &Bytes,
        account: u64,
        seed: u64,
        types: Option<LmsTypes>,
    ) -> Result<LineAnswer, StepRefusal>
        requires types { AreTypes types }
        requires spells { AllSpell self.old }
        ensures keeps { OnOk result (may_be_wallet (world_of self.old) name.now
            (declared_wallet (world_of self.old) account seed types) ≡ true) }
        ensures shows { IfOk result (λ answer. shows (H.digest_of self.old.hash) (world_of self.old)
            (Line.Wallet name.now account seed types) ≡ Some (answered answer (world_of self.new))) }
        ensures tells { IfOk result (λ answer.
            Tells (H.digest_of self.old.hash) (world_of self.old)
            (Line.Wallet name.now account seed types) answer.event) }
        ensures spells { OnOk result (AllSpell self.new) }
        ensures grow { OnOk result (NodesGrow self.old self.new) }
        ensures bad { IsErrOf result StepRefusal.BadLine → may_be_wallet (world_of self.old) name.now
            (declared_wallet (world_of self.old) account seed types) ≡ false }
        ensures same { IsErrOf result StepRefusal.BadLine → self.new ≡ self.old }
    {
        let who = self.identity_of(account, seed, types);
        let answer = self.begin_wallet(name, &who)?;
        Ok(answer)
    }

    // The place of an identity's key, which all rogues with its types and seed share.
    fn key_place(&mut self, who: &WalletIdentity) -> Result<KeyPlace, NoMemory>
        ensures { self.new ≡ self.old }
    {
        self.rogues.key_place(who)
    }

    // One more rogue, whose name is new.
    fn add_rogue(&mut self, rogue: Rogue) -> Result<(), NoMemory>
        requires { rogue_named (world_of self.old) rogue.name ≡ None }
        ensures ok { OnOk result (self.new ≡ with_new_rogue self.old rogue) }
        ensures err { OnErr result (self.new ≡ self.old) }
    {
        self.rogues.push(rogue)?;
        Ok(())
    }

    // A watcher is declared, as a wallet is.
    pub(crate) fn declare_watcher(
        &mut self,
        name: &Bytes,
        account: u64,
    ) -> Result<LineAnswer, StepRefusal>
        requires spells { AllSpell self.old }
        ensures keeps { OnOk result (may_be_other (world_of self.old) name.now account ≡ true) }
        ensures shows { IfOk result (λ answer. shown_of (declares_watcher (world_of self.old) name.now account)
            ≡ answered answer (world_of self.new)) }
        ensures event { IfOk result (λ answer. answer.event ≡ LineEvent.Idle) }
        ensures spells { OnOk result (AllSpell self.new) }
        ensures grow { OnOk result (NodesGrow self.old self.new) }
        ensures bad { IsErrOf result StepRefusal.BadLine → may_be_other (world_of self.old) name.now account ≡ false }
        ensures same { IsErrOf result StepRefusal.BadLine → self.new ≡ self.old }
    {
        if self.is_used(name.as_slice()) || self.is_wallet_account(account) {
            return Err(StepRefusal::BadLine);
        }
        let name = name.copy()?;
        let entry = Entry::watcher(
            self.alloc,
            self.hash,
            name,
            &self.contract.log().tag(),
            account,
        )?;
        self.add_node(entry)?;
        Ok(idles(self.alloc, Reply::Watcher))
    }

    // A rogue with this identity is declared. Its key is made when it is first needed.
    fn begin_rogue(&mut self, name: &Bytes, who: &WalletIdentity) -> Result<LineAnswer, StepRefusal>
        requires { is_supported who.now.types ≡ true }
        ensures keeps { OnOk result (may_be_other (world_of self.old) name.now who.now.account ≡ true) }
        ensures shows { IfOk result (λ answer. shown_of (declares_rogue (world_of self.old) name.now who.now)
            ≡ answered answer (world_of self.new)) }
        ensures event { IfOk result (λ answer. answer.event ≡ LineEvent.Idle) }
        ensures nodes { OnOk result (NodesStay self.old self.new) }
        ensures bad { IsErrOf result StepRefusal.BadLine
            → may_be_other (world_of self.old) name.now who.now.account ≡ false }
        ensures same { IsErrOf result StepRefusal.BadLine → self.new ≡ self.old }
    {
        if self.is_used(name.as_slice()) || self.is_wallet_account(who.account) {
            return Err(StepRefusal::BadLine);
        }
        let name = name.copy()?;
        let place = self.key_place(who)?;
        let rogue = Rogue::new(self.alloc, name, who, place);
        self.add_rogue(rogue)?;
        Ok(idles(self.alloc, Reply::Rogue))
    }

    // A rogue is declared, as a wallet is. Its key is made when it is first needed.
    #[tactic(auto, unfolding(world_rules::specs::Steps::effect_in))]
    pub(crate) fn declare_rogue(
        &mut self,
        name: &Bytes,
        account: u64,
        seed: u64,
        types: Option<LmsTypes>,
    ) -> Result<LineAnswer, StepRefusal>
        requires types { AreTypes types }
        ensures keeps { OnOk result (may_be_other (world_of self.old) name.now account ≡ true) }
        ensures shows { IfOk result (λ answer. shows (H.digest_of self.old.hash) (world_of self.old)
            (Line.Rogue name.now account seed types) ≡ Some (answered answer (world_of self.new))) }
        ensures tells { IfOk result (λ answer.
            Tells (H.digest_of self.old.hash) (world_of self.old)
            (Line.Rogue name.now account seed types) answer.event) }
        ensures spells { AllSpell self.old → OnOk result (AllSpell self.new) }
        ensures nodes { OnOk result (NodesStay self.old self.new) }
        ensures bad { IsErrOf result StepRefusal.BadLine → may_be_other (world_of self.old) name.now account ≡ false }
        ensures same { IsErrOf result StepRefusal.BadLine → self.new ≡ self.old }
    {
        let who = self.identity_of(account, seed, types);
        let answer = self.begin_rogue(name, &who)?;
        Ok(answer)
    }
}
