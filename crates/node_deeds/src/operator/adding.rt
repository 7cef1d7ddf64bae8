ghost use Rattle.std.specs.Prelude.{◌≡◌, false, None, Err, IfOk, IfErr, IfSome};
ghost use Rattle.node_journal.specs.declared.stop.Stop.{Stop};
ghost use Rattle.node_journal.specs.Notes.{Did, stopped_by};
ghost use Rattle.operator_rules.specs.Commands.{offer_effect, lay_effect, seal_effect};
ghost use Rattle.operator_core.specs.State.{offer_stop, lay_stop, seal_stop};
ghost use Rattle.node_replies.specs.Causes.{offer_cause, lay_cause, seal_cause};
ghost use Rattle.node_replies.specs.Orders.{refused, answered, on_pooled, on_laid, on_sealed};
ghost use Rattle.node_replies.specs.Given.{IsGiven};

use crash_disk::Disk;
use node_journal::Stop;
use node_replies::{Given, Reply, lay_cause, offer_cause, offers, refused, says};
use operator_core::Operator;
use operator_rules::{LayRefusal, OfferRefusal, SealRefusal, Sealed};
use plasma_base::Hash32;
use plasma_tx::RootLog;
use std::alloc::Global;

// What stopped an offer that was refused for this, if anything did; the same of a lay, and of a seal, which
// nothing else refuses.
fn offer_stop(why: &OfferRefusal) -> Option<Stop>
    ensures { result ≡ offer_stop (Err why.now) }
{
    match why {
        OfferRefusal::Closed => Some(Stop::Closed),
        OfferRefusal::NoMemory => Some(Stop::NoMemory),
        OfferRefusal::DeviceFault => Some(Stop::DeviceFault),
        _ => None,
    }
}

fn lay_stop(why: &LayRefusal) -> Option<Stop>
    ensures { result ≡ lay_stop (Err why.now) }
{
    match why {
        LayRefusal::Closed => Some(Stop::Closed),
        LayRefusal::NoMemory => Some(Stop::NoMemory),
        LayRefusal::DeviceFault => Some(Stop::DeviceFault),
        LayRefusal::LeafTooLong { .. } => None,
    }
}

fn seal_stop(why: SealRefusal) -> Stop
    ensures { seal_stop (Err why) ≡ Some result }
{
    match why {
        SealRefusal::Closed => Stop::Closed,
        SealRefusal::NoMemory => Stop::NoMemory,
        SealRefusal::DeviceFault => Stop::DeviceFault,
    }
}

// What is given out for a refused offer, or what stopped it.
fn offer_refusal(alloc: Global, why: &OfferRefusal) -> Result<Given, Stop>
    ensures gives { IfOk result (λ given. IsGiven (refused (offer_cause why.now)) given) }
    ensures stop { IfSome (offer_stop (Err why.now)) (λ stop. result ≡ Err stop) }
    ensures memory { offer_stop (Err why.now) ≡ None → IfErr result (λ stop. stop ≡ Stop.NoMemory) }
{
    match offer_stop(why) {
        Some(stop) => Err(stop),
        None => Ok(refused(alloc, offer_cause(alloc, why)?)),
    }
}

// The same of a lay.
fn lay_refusal(alloc: Global, why: &LayRefusal) -> Result<Given, Stop>
    ensures gives { IfOk result (λ given. IsGiven (refused (lay_cause why.now)) given) }
    ensures stop { IfSome (lay_stop (Err why.now)) (λ stop. result ≡ Err stop) }
    ensures memory { lay_stop (Err why.now) ≡ None → IfErr result (λ stop. stop ≡ Stop.NoMemory) }
{
    match lay_stop(why) {
        Some(stop) => Err(stop),
        None => Ok(refused(alloc, lay_cause(alloc, why)?)),
    }
}

/// Offers a transfer, as `Operator::offer`.
pub fn offer<D: Disk, H: Hash32 + Copy>(
    alloc: Global,
    node: &mut Operator<D, H>,
    log: &RootLog,
    transfer: &[u8],
) -> Result<Given, Stop>
    ensures gives { IfOk result (λ given. IsGiven (answered offer_cause on_pooled (offer_effect
        (H.digest_of node.old.hash) node.old.notes.records log.now.log transfer.now).answer) given) }
    ensures did { Did D.told D.plan D.faults (offer_effect (H.digest_of node.old.hash) node.old.notes.records
        log.now.log transfer.now).note node.old.notes (stopped_by result) node.new.notes }
    ensures hash { node.new.hash ≡ node.old.hash }
{
    match node.offer(log, transfer) {
        Ok(coin) => Ok(says(alloc, Reply::Pooled { coin })),
        Err(why) => offer_refusal(alloc, &why),
    }
}

/// Lays bytes, as `Operator::lay`.
pub fn lay<D: Disk, H: Hash32 + Copy>(
    alloc: Global,
    node: &mut Operator<D, H>,
    coin: u64,
    leaf: &[u8],
) -> Result<Given, Stop>
    ensures gives { IfOk result (λ given.
        IsGiven (answered lay_cause (on_laid coin) (lay_effect coin leaf.now).answer) given) }
    ensures did { Did D.told D.plan D.faults (lay_effect coin leaf.now).note node.old.notes (stopped_by result)
        node.new.notes }
    ensures hash { node.new.hash ≡ node.old.hash }
{
    match node.lay(coin, leaf) {
        Ok(()) => Ok(says(alloc, Reply::Laid { coin })),
        Err(why) => lay_refusal(alloc, &why),
    }
}

/// Seals the pool, as `Operator::seal`, and offers the commit of its root. The memory for the offer is taken
/// first.
pub fn seal<D: Disk, H: Hash32 + Copy>(
    alloc: Global,
    node: &mut Operator<D, H>,
) -> Result<Given, Stop>
    requires { node.old.notes.closed ≡ false }
    ensures gives { IfOk result (λ given. IsGiven (answered seal_cause on_sealed
        (seal_effect (H.digest_of node.old.hash) node.old.notes.records).answer) given) }
    ensures did { Did D.told D.plan D.faults (seal_effect (H.digest_of node.old.hash) node.old.notes.records).note
        node.old.notes (stopped_by result) node.new.notes }
    ensures hash { node.new.hash ≡ node.old.hash }
{
    let mut calls = Vec::with_capacity(alloc, 1)?;
    match node.seal() {
        Ok(Sealed { leaves, call }) => {
            calls.push(call).unwrap();
            Ok(offers(alloc, Reply::Sealed { leaves }, calls))
        }
        Err(why) => Err(seal_stop(why)),
    }
}
