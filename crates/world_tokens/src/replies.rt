ghost use Rattle.std.specs.Prelude.{◌≡◌, ◌≢◌, IfOk};
ghost use Rattle.plasma_tx.specs.declared.answer.Answer.{Answer};
ghost use Rattle.world_rules.specs.Steps.{reply_to};

use node_replies::{Reply, contract_cause};
use plasma_base::NoMemory;
use plasma_tx::Answer;
use std::alloc::Global;

/// The reply that says the contract's answer to a call, with the text of the cause where it refuses. It is
/// `NoMemory` where the contract's answer is that memory ran out, and where it runs out here.
pub fn reply_to(alloc: Global, answer: &Answer) -> Result<Reply, NoMemory>
    ensures value { IfOk result (λ reply. reply ≡ reply_to answer.now) }
    ensures told { IfOk result (λ _. answer.now ≢ Answer.NoMemory) }
{
    Ok(match *answer {
        Answer::Funded => Reply::Funded,
        Answer::Ticked => Reply::Ticked,
        Answer::Deposited { coin, block } => Reply::Deposited { coin, block },
        Answer::Committed { block } => Reply::Committed { block },
        Answer::Started { opens } => Reply::Started { opens },
        Answer::Cancelled => Reply::Cancelled,
        Answer::Challenged { until } => Reply::Challenged { until },
        Answer::Responded => Reply::Responded,
        Answer::Paid => Reply::Paid,
        Answer::Dropped => Reply::Dropped,
        Answer::Refused(why) => Reply::Refused {
            cause: contract_cause(alloc, &why)?,
        },
        Answer::NoMemory => return Err(NoMemory),
    })
}
