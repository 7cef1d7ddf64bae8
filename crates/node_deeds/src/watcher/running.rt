ghost use Rattle.std.specs.Prelude.{◌≡◌, false, None, Err, IfOk, IfErr, IfSome};
ghost use Rattle.node_journal.specs.declared.stop.Stop.{Stop};
ghost use Rattle.node_journal.specs.Notes.{Did, stopped_by};
ghost use Rattle.watcher_node.specs.State.{stop_in};
ghost use Rattle.node_replies.specs.Causes.{watcher_cause};
ghost use Rattle.node_rules.specs.Watcher.{guard_effect, release_effect, watch_answer};
ghost use Rattle.node_replies.specs.Given.{IsGiven};
ghost use Rattle.node_replies.specs.Orders.{refused, answered, on_guarded, on_released, on_watch, watcher_does};

use crash_disk::Disk;
use node_journal::Stop;
use node_replies::{Given, Reply, WatcherOrder, offer_kinds, offers, refused, says, watcher_cause};
use node_rules::{Accepted, WatcherRefusal};
use plasma_base::Hash32;
use plasma_tx::RootLog;
use std::alloc::Global;
use watcher_node::WatcherNode;

// What stopped a command that was refused for this, if anything did.
fn stop_in(why: &WatcherRefusal) -> Option<Stop>
    ensures { result ≡ stop_in why.now }
{
    match why {
        WatcherRefusal::Closed => Some(Stop::Closed),
        WatcherRefusal::NoMemory => Some(Stop::NoMemory),
        WatcherRefusal::DeviceFault => Some(Stop::DeviceFault),
        _ => None,
    }
}

// What is given out for a refusal, or what stopped the command.
fn refusal(alloc: Global, why: &WatcherRefusal) -> Result<Given, Stop>
    ensures gives { IfOk result (λ given. IsGiven (refused (watcher_cause why.now)) given) }
    ensures stop { IfSome (stop_in why.now) (λ stop. result ≡ Err stop) }
    ensures memory { stop_in why.now ≡ None → IfErr result (λ stop. stop ≡ Stop.NoMemory) }
{
    match stop_in(why) {
        Some(stop) => Err(stop),
        None => Ok(refused(alloc, watcher_cause(alloc, why)?)),
    }
}

// Runs a guard.
fn guard<D: Disk, H: Hash32 + Copy>(
    alloc: Global,
    node: &mut WatcherNode<D, H>,
    log: &RootLog,
    bundle: &[u8],
) -> Result<Given, Stop>
    ensures gives { IfOk result (λ given. IsGiven (answered watcher_cause on_guarded (guard_effect
        (H.digest_of node.old.hash) node.old.notes.records log.now.log bundle.now).answer) given) }
    ensures did { Did D.told D.plan D.faults (guard_effect (H.digest_of node.old.hash) node.old.notes.records
        log.now.log bundle.now).note node.old.notes (stopped_by result) node.new.notes }
    ensures hash { node.new.hash ≡ node.old.hash }
{
    match node.guard(log, bundle) {
        Ok(Accepted { coin, tip }) => Ok(says(alloc, Reply::Guarded { coin, tip })),
        Err(why) => refusal(alloc, &why),
    }
}

// Runs a release.
fn release<D: Disk, H: Hash32 + Copy>(
    alloc: Global,
    node: &mut WatcherNode<D, H>,
    coin: u64,
    tip: u64,
) -> Result<Given, Stop>
    ensures gives { IfOk result (λ given. IsGiven (answered watcher_cause on_released (release_effect
        (H.digest_of node.old.hash) node.old.notes.records coin tip).answer) given) }
    ensures did { Did D.told D.plan D.faults (release_effect (H.digest_of node.old.hash) node.old.notes.records
        coin tip).note node.old.notes (stopped_by result) node.new.notes }
    ensures hash { node.new.hash ≡ node.old.hash }
{
    match node.release(coin, tip) {
        Ok(()) => Ok(says(alloc, Reply::Released)),
        Err(why) => refusal(alloc, &why),
    }
}

// Runs a watch, which leaves the watcher.
fn watch<D: Disk, H: Hash32 + Copy>(
    alloc: Global,
    node: &WatcherNode<D, H>,
    log: &RootLog,
) -> Result<Given, Stop>
    ensures gives { IfOk result (λ given. IsGiven (on_watch
        (watch_answer (H.digest_of node.now.hash) node.now.notes.records log.now.log)) given) }
    ensures memory { IfErr result (λ stop. stop ≡ Stop.NoMemory) }
{
    let calls = node.watch(log)?;
    let kinds = offer_kinds(alloc, calls.as_slice())?;
    Ok(offers(alloc, Reply::Offers { kinds }, calls))
}

/// Runs an order on a watcher that is up, and gives out what the definitions say: the answer, and of a watch
/// the calls that it offers. Device calls: those of an append, where the order adds a record.
///
/// A stop comes where a device call failed, which closes the watcher, and where memory ran out; nothing changed
/// then. Every other refusal is an answer.
#[tactic(auto, unfolding(node_replies::specs::Orders::watcher_does))]
pub fn run_watcher_order<D: Disk, H: Hash32 + Copy>(
    alloc: Global,
    node: &mut WatcherNode<D, H>,
    log: &RootLog,
    order: &WatcherOrder,
) -> Result<Given, Stop>
    requires { node.old.notes.closed ≡ false }
    ensures gives { IfOk result (λ given. IsGiven (watcher_does (H.digest_of node.old.hash) log.now.log
        node.old.notes.records order.now).response given) }
    ensures did { Did D.told D.plan D.faults (watcher_does (H.digest_of node.old.hash) log.now.log
        node.old.notes.records order.now).note node.old.notes (stopped_by result) node.new.notes }
    ensures hash { node.new.hash ≡ node.old.hash }
{
    match order {
        WatcherOrder::Guard { bundle } => guard(alloc, node, log, bundle.as_slice()),
        WatcherOrder::Release { coin, tip } => release(alloc, node, *coin, *tip),
        WatcherOrder::Watch => watch(alloc, node, log),
    }
}
