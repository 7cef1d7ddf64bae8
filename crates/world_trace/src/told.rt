ghost use Rattle.std.specs.Prelude.{◌≡◌, List};
ghost use Rattle.plasma_tx.specs.declared.call.RootCall.{RootCall};
ghost use Rattle.plasma_tx.specs.Shown.{Tests, Rules};
ghost use Rattle.plasma_tx.specs.Table.{answer_to, is_accepted};
ghost use Rattle.plasma_tx.specs.RuleLaws.{is_paid};
ghost use Rattle.world_trace.specs.Asked.{IsAsked, IsTold, told, with_paid};

use coin_verdicts::Fact;
use plasma_tx::{Answer, RootCall};

// Whether the contract accepted the call that it answered so.
fn is_accepted(answer: &Answer) -> bool
    ensures { result ≡ is_accepted answer.now }
{
    match answer {
        Answer::Refused(_) | Answer::NoMemory => false,
        _ => true,
    }
}

// The fact of an exit that ended, which was paid or not; another fact stays.
fn with_paid(fact: Fact, is_paid: bool) -> Fact
    ensures { result ≡ with_paid is_paid fact }
{
    match fact {
        Fact::Ends {
            coin,
            block,
            account,
            ..
        } => Fact::Ends {
            coin,
            block,
            account,
            paid: is_paid,
        },
        fact => fact,
    }
}

// The fact of a call that was accepted, and answered so.
fn told(fact: Fact, call: &RootCall, answer: &Answer) -> Fact
    ensures { result ≡ told (is_paid answer.now) call.now fact }
{
    match call {
        RootCall::Finish { .. } => with_paid(fact, matches!(answer, Answer::Paid)),
        _ => fact,
    }
}

/// What verdicts need to know of a call that was answered so, by what `fact_asked` said of it before; nothing of one
/// that was refused.
#[tactic(auto, using(crate::proofs::FactTelling::told_is))]
pub fn fact_told(fact: Fact, call: &RootCall, answer: &Answer) -> Option<Fact>
    ensures { (tests : Tests) (rules : Rules) (log : List RootCall) → IsAsked log call.now fact
        → answer.now ≡ answer_to tests rules log call.now → IsTold tests rules log call.now answer.now result }
{
    if !is_accepted(answer) {
        return None;
    }
    Some(told(fact, call, answer))
}
