ghost use Rattle.std.specs.Prelude.{◌≡◌, ◌<◌, ◌^◌, length, Err, IfOk, IfErr};
ghost use Rattle.std.specs.List.{All};
ghost use Rattle.node_journal.specs.declared.stop.Stop.{Stop};
ghost use Rattle.coin_history.specs.Bundles.{AreRising};
ghost use Rattle.operator_rules.specs.Commands.{prove_answer, bundle_answer, absences_answer};
ghost use Rattle.operator_rules.specs.declared.refusal.ProveRefusal.{ProveRefusal};
ghost use Rattle.node_replies.specs.Causes.{prove_cause};
ghost use Rattle.node_replies.specs.Orders.{refused, answered, on_bundled, on_proved};
ghost use Rattle.node_replies.specs.Given.{IsGiven};

use coin_history::Bundle;
use crash_disk::Disk;
use node_journal::Stop;
use node_replies::{Given, Reply, makes, prove_cause, refused};
use operator_core::Operator;
use operator_rules::ProveRefusal;
use plasma_base::{Bytes, Hash32};
use plasma_tx::{RawOpening, RootLog};
use std::alloc::Global;

// What is given out for a refusal, or want of memory.
fn refusal(alloc: Global, why: &ProveRefusal) -> Result<Given, Stop>
    ensures gives { IfOk result (λ given. IsGiven (refused (prove_cause why.now)) given) }
    ensures memory { why.now ≡ ProveRefusal.NoMemory → result ≡ Err Stop.NoMemory }
    ensures stop { IfErr result (λ stop. stop ≡ Stop.NoMemory) }
{
    match why {
        ProveRefusal::NoMemory => Err(Stop::NoMemory),
        _ => Ok(refused(alloc, prove_cause(alloc, why)?)),
    }
}

// What is given out for a bundle.
fn bundled(alloc: Global, bundle: &Bundle) -> Result<Given, Stop>
    requires rising { AreRising bundle.now.openings }
    requires count { length bundle.now.openings < 2 ^ 32 }
    requires lengths { All (λ opening. length opening.bytes < 2 ^ 32) bundle.now.openings }
    ensures gives { IfOk result (λ given. IsGiven (on_bundled bundle.now) given) }
    ensures stop { IfErr result (λ stop. stop ≡ Stop.NoMemory) }
{
    let mut text = Vec::new(alloc);
    bundle.write(&mut text)?;
    Ok(makes(
        alloc,
        Reply::Bundled { tip: bundle.tip },
        Bytes::from_vec(text),
    ))
}

/// Makes a bundle, as `Operator::bundle`, and its bytes. Of the present tip it keeps where the walk ended, so that
/// the next one goes on there.
pub fn bundle<D: Disk, H: Hash32 + Copy>(
    alloc: Global,
    node: &mut Operator<D, H>,
    log: &RootLog,
    coin: u64,
    tip: u64,
) -> Result<Given, Stop>
    ensures gives { IfOk result (λ given. IsGiven (answered prove_cause on_bundled (bundle_answer
        (H.digest_of node.old.hash) node.old.notes.records log.now.log coin tip)) given) }
    ensures stop { IfErr result (λ stop. stop ≡ Stop.NoMemory) }
    ensures same { node.new ≡ node.old }
{
    if tip == 0 {
        node.walk_on(log, coin);
    }
    match node.bundle(log, coin, tip) {
        Ok(bundle) => bundled(alloc, &bundle),
        Err(why) => refusal(alloc, &why),
    }
}

/// Makes a bundle of absences, as `Operator::absences`, and its bytes.
pub fn absences<D: Disk, H: Hash32 + Copy>(
    alloc: Global,
    node: &Operator<D, H>,
    log: &RootLog,
    coin: u64,
    after: u64,
    last: u64,
) -> Result<Given, Stop>
    ensures gives { IfOk result (λ given. IsGiven (answered prove_cause on_bundled (absences_answer
        (H.digest_of node.now.hash) node.now.notes.records log.now.log coin after last)) given) }
    ensures stop { IfErr result (λ stop. stop ≡ Stop.NoMemory) }
{
    match node.absences(log, coin, after, last) {
        Ok(bundle) => bundled(alloc, &bundle),
        Err(why) => refusal(alloc, &why),
    }
}

/// Makes an opening, as `Operator::prove`, and gives its bytes.
pub fn prove<D: Disk, H: Hash32 + Copy>(
    alloc: Global,
    node: &Operator<D, H>,
    log: &RootLog,
    coin: u64,
    block: u64,
) -> Result<Given, Stop>
    ensures gives { IfOk result (λ given. IsGiven (answered prove_cause on_proved (prove_answer
        (H.digest_of node.now.hash) node.now.notes.records log.now.log coin block)) given) }
    ensures stop { IfErr result (λ stop. stop ≡ Stop.NoMemory) }
{
    match node.prove(log, coin, block) {
        Ok(RawOpening { bytes, .. }) => Ok(makes(alloc, Reply::Proved, bytes)),
        Err(why) => refusal(alloc, &why),
    }
}
