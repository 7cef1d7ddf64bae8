ghost use Rattle.std.specs.Prelude.{◌≡◌, false, IfOk, OnErr};
ghost use Rattle.node_answers.specs.Answers.{watcher_outcome, IsSaid};
ghost use Rattle.node_answers.specs.Doing.{DidNotes};

use super::said::put_given;
use crash_disk::Disk;
use node_deeds::run_watcher_order;
use node_journal::Stop;
use node_replies::WatcherOrder;
use node_sessions::Said;
use plasma_base::Hash32;
use plasma_tx::RootLog;
use std::alloc::Global;
use watcher_node::WatcherNode;

/// Answers an order of a watcher that no fault closed, behind this log, into the text. A refusal is no answer: its
/// cause is given out. Where the command is stopped, by want of memory or a device fault, the text stays; where memory
/// ran out the command may have been done before.
#[tactic(auto, unfolding(crate::specs::Answers::watcher_outcome))]
pub fn answer_watcher<D: Disk, H: Hash32 + Copy>(
    alloc: Global,
    node: &mut WatcherNode<D, H>,
    log: &RootLog,
    order: &WatcherOrder,
    text: &mut Vec<u8>,
) -> Result<Said, Stop>
    requires { node.old.notes.closed ≡ false }
    ensures said { IfOk result (λ said. IsSaid (watcher_outcome (H.digest_of node.old.hash) log.now.log
        node.old.notes.records order.now).says said text.old.items text.new.items) }
    ensures did { DidNotes D.told D.plan D.faults (watcher_outcome (H.digest_of node.old.hash) log.now.log
        node.old.notes.records order.now).note node.old.notes result node.new.notes }
    ensures untold { OnErr result (text.new.items ≡ text.old.items) }
    ensures hash { node.new.hash ≡ node.old.hash }
{
    let given = run_watcher_order(alloc, node, log, order)?;
    Ok(put_given(alloc, given, text)?)
}
