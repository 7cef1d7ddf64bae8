ghost use Rattle.std.specs.Prelude.{◌≡◌, false, IfOk};
ghost use Rattle.node_journal.specs.Notes.{Did, stopped_by};
ghost use Rattle.node_replies.specs.Given.{IsGiven};
ghost use Rattle.node_replies.specs.Orders.{operator_does};

use super::adding::{lay, offer, seal};
use super::showing::{absences, bundle, prove};
use crash_disk::Disk;
use node_journal::Stop;
use node_replies::{Given, OperatorOrder};
use operator_core::Operator;
use plasma_base::Hash32;
use plasma_tx::RootLog;
use std::alloc::Global;

/// Runs an order on an operator that is up, and gives out what the definitions say: the answer, the bytes of a
/// bundle or of an opening, and of a seal the commit that it offers. Device calls: those of an append, where the
/// order adds a record.
///
/// A stop comes where a device call failed, which closes the operator, and where memory ran out; nothing changed
/// then. Every other refusal is an answer.
#[tactic(auto, unfolding(node_replies::specs::Orders::operator_does))]
pub fn run_operator_order<D: Disk, H: Hash32 + Copy>(
    alloc: Global,
    node: &mut Operator<D, H>,
    log: &RootLog,
    order: &OperatorOrder,
) -> Result<Given, Stop>
    requires { node.old.notes.closed ≡ false }
    ensures gives { IfOk result (λ given. IsGiven (operator_does (H.digest_of node.old.hash) log.now.log
        node.old.notes.records order.now).response given) }
    ensures did { Did D.told D.plan D.faults (operator_does (H.digest_of node.old.hash) log.now.log
        node.old.notes.records order.now).note node.old.notes (stopped_by result) node.new.notes }
    ensures hash { node.new.hash ≡ node.old.hash }
{
    match order {
        OperatorOrder::Offer { transfer } => offer(alloc, node, log, transfer.as_slice()),
        OperatorOrder::Lay { coin, leaf } => lay(alloc, node, *coin, leaf.as_slice()),
        OperatorOrder::Seal => seal(alloc, node),
        OperatorOrder::Bundle { coin, tip } => bundle(alloc, node, log, *coin, *tip),
        OperatorOrder::Prove { coin, block } => prove(alloc, node, log, *coin, *block),
        OperatorOrder::Absences { coin, after, last } => absences(
            alloc, node, log, *coin, *after, *last,
        ),
    }
}
