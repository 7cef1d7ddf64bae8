ghost use Rattle.std.specs.Prelude.{◌≡◌, false, IfOk, OnErr};
ghost use Rattle.node_replies.specs.Orders.{operator_does};
ghost use Rattle.node_answers.specs.Answers.{outcome_of, operator_outcome, IsSaid};
ghost use Rattle.node_answers.specs.Doing.{DidNotes};

use super::said::{put_given, refused};
use crash_disk::Disk;
use node_deeds::run_operator_order;
use node_journal::Stop;
use node_lines::OperatorLine;
use node_replies::OperatorOrder;
use node_sessions::Said;
use operator_core::Operator;
use plasma_base::Hash32;
use plasma_tx::RootLog;
use std::alloc::Global;

/// Runs an order, and puts its answer.
pub fn answer_order<D: Disk, H: Hash32 + Copy>(
    alloc: Global,
    node: &mut Operator<D, H>,
    log: &RootLog,
    order: &OperatorOrder,
    text: &mut Vec<u8>,
) -> Result<Said, Stop>
    requires { node.old.notes.closed ≡ false }
    ensures said { IfOk result (λ said. IsSaid (outcome_of (operator_does (H.digest_of node.old.hash) log.now.log
        node.old.notes.records order.now)).says said text.old.items text.new.items) }
    ensures did { DidNotes D.told D.plan D.faults (operator_does (H.digest_of node.old.hash) log.now.log
        node.old.notes.records order.now).note node.old.notes result node.new.notes }
    ensures untold { OnErr result (text.new.items ≡ text.old.items) }
    ensures hash { node.new.hash ≡ node.old.hash }
{
    let given = run_operator_order(alloc, node, log, order)?;
    Ok(put_given(alloc, given, text)?)
}

/// Answers a command of an operator without a key that no fault closed, behind this log, into the text. It has
/// neither receipts nor a migration, which are refused for that. A refusal is no answer: its
/// cause is given out. Where the command is stopped, by want of memory or a device fault, the text stays; where memory
/// ran out the command may have been done before.
#[tactic(auto, unfolding(crate::specs::Answers::operator_outcome))]
pub fn answer_operator<D: Disk, H: Hash32 + Copy>(
    alloc: Global,
    node: &mut Operator<D, H>,
    log: &RootLog,
    line: OperatorLine,
    text: &mut Vec<u8>,
) -> Result<Said, Stop>
    requires { node.old.notes.closed ≡ false }
    ensures said { IfOk result (λ said. IsSaid (operator_outcome (H.digest_of node.old.hash) log.now.log
        node.old.notes.records line).says said text.old.items text.new.items) }
    ensures did { DidNotes D.told D.plan D.faults (operator_outcome (H.digest_of node.old.hash) log.now.log
        node.old.notes.records line).note node.old.notes result node.new.notes }
    ensures untold { OnErr result (text.new.items ≡ text.old.items) }
    ensures hash { node.new.hash ≡ node.old.hash }
{
    match line {
        OperatorLine::Order { order } => answer_order(alloc, node, log, &order, text),
        OperatorLine::Receipt { .. } | OperatorLine::Migrate => Ok(refused(alloc, b"no-key")?),
    }
}
