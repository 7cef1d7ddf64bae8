ghost use Rattle.std.specs.Prelude.{◌≡◌, ◌∷◌, [], false, IfOk, OnOk, OnErr, Some, None, option_map};
ghost use Rattle.plasma_tx.specs.Money.{balance_of};
ghost use Rattle.world_trace.specs.declared.event.LineEvent.{LineEvent};
ghost use Rattle.plasma_tx.specs.declared.call.RootCall.{RootCall};
ghost use Rattle.world_rules.specs.Steps.{called, raw_called, deposit_by, entered, offer_numbered, says};
ghost use Rattle.world_scene.specs.Scenes.{world_of, shown_of};
ghost use Rattle.world_scene.specs.Steps.{answered, NodesStay};
ghost use Rattle.world_scene.specs.Events.{TellsEffect};

use super::answer::LineAnswer;
use super::scene::Scene;
use node_replies::Reply;
use plasma_base::{Bytes, Hash32, NoMemory};
use plasma_tx::{Owner, RootCall};
use std::alloc::Global;
use world_tokens::reply_to;
use world_trace::{LineEvent, event_of_call, fact_asked, fact_told};

// A line is answered so, makes nothing, and is this event. It takes no memory.
pub fn says(alloc: Global, reply: Reply, event: LineEvent) -> LineAnswer
    ensures { result ≡ record { done = false; reply = reply; made = []; event = event } }
{
    LineAnswer {
        done: false,
        reply,
        made: Bytes::from_vec(Vec::new(alloc)),
        event,
    }
}

// A line that is no command and enters no call is answered so, and makes nothing. It takes no memory.
pub fn idles(alloc: Global, reply: Reply) -> LineAnswer
    ensures { result ≡ record { done = false; reply = reply; made = []; event = LineEvent.Idle } }
{
    says(alloc, reply, LineEvent::Idle)
}

impl<H: Hash32 + Copy> Scene<H> {
    // Enters a call, which joins the log where the contract accepts it.
    pub(crate) fn enter_call(&mut self, call: &RootCall) -> Result<LineAnswer, NoMemory>
        ensures shows { IfOk result
            (λ answer. shown_of (called (H.digest_of self.old.hash) (world_of self.old) call.now)
            ≡ answered answer (world_of self.new)) }
        ensures tells { IfOk result (λ answer. TellsEffect (H.digest_of self.old.hash) (world_of self.old) answer.event
            (called (H.digest_of self.old.hash) (world_of self.old) call.now)) }
        ensures nodes { OnOk result (NodesStay self.old self.new) }
    {
        let asked = fact_asked(self.alloc, self.contract.log(), call)?;
        let answer = self.contract.call(&self.hash, call);
        let reply = reply_to(self.alloc, &answer)?;
        let event = event_of_call(fact_told(asked, call, &answer));
        Ok(says(self.alloc, reply, event))
    }

    // Enters a call, and lets it go by its name, which is proved once and not at each way out.
    pub(crate) fn enter_own(&mut self, call: RootCall) -> Result<LineAnswer, NoMemory>
        ensures shows { IfOk result (λ answer. shown_of (called (H.digest_of self.old.hash) (world_of self.old) call)
            ≡ answered answer (world_of self.new)) }
        ensures tells { IfOk result (λ answer. TellsEffect (H.digest_of self.old.hash) (world_of self.old) answer.event
            (called (H.digest_of self.old.hash) (world_of self.old) call)) }
        ensures nodes { OnOk result (NodesStay self.old self.new) }
    {
        let answer = self.enter_call(&call);
        drop(call);
        answer
    }

    // Enters the call of a `call` line, whose account is known from then on.
    pub(crate) fn enter_raw(
        &mut self,
        account: u64,
        call: &RootCall,
    ) -> Result<LineAnswer, NoMemory>
        ensures shows { IfOk result (λ answer.
            shown_of (raw_called (H.digest_of self.old.hash) (world_of self.old) account call.now)
            ≡ answered answer (world_of self.new)) }
        ensures tells { IfOk result (λ answer. TellsEffect (H.digest_of self.old.hash) (world_of self.old) answer.event
            (raw_called (H.digest_of self.old.hash) (world_of self.old) account call.now)) }
        ensures nodes { OnOk result (NodesStay self.old self.new) }
    {
        self.raw_callers.push(account)?;
        self.enter_call(call)
    }

    // The balance of an account.
    pub(crate) fn tell_money(&self, account: u64) -> LineAnswer
        ensures { result ≡ record {
          done = false;
          reply = Reply.Money (balance_of self.now.chain.log account);
          made = [];
          event = LineEvent.Idle;
        } }
    {
        let balance = self.contract.balance(account);
        idles(self.alloc, Reply::Money { balance })
    }
}
