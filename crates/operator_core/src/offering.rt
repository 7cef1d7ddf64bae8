ghost use Rattle.std.specs.Prelude.{◌≡◌, ◌≢◌, true, Some, Err};
ghost use Rattle.plasma_tx.specs.Spelling.{signed_in};
ghost use Rattle.operator_rules.specs.Trees.{is_waiting};
ghost use Rattle.operator_rules.specs.Commands.{offer_at, offer_of};
ghost use Rattle.operator_core.specs.Inside.{forest_now};
ghost use Rattle.operator_core.specs.Known.{has_its_coin};

use super::pool::Pool;
use super::trees::Trees;
use super::walk::present;
use operator_rules::OfferRefusal;
use plasma_base::Hash32;
use plasma_tx::{Body, CoinView, RootLog, SignedTx, TxRefusal};
use std::alloc::Global;

// Whether the pool has a leaf of the coin, or a sealed tree has one whose root the log doesn't commit.
fn is_waiting<H: Hash32 + Copy>(pool: &Pool<H>, trees: &Trees<H>, log: &RootLog, coin: u64) -> bool
    ensures { result ≡ is_waiting (H.digest_of trees.now.hash) log.now.log (forest_now pool.now trees.now) coin }
{
    pool.has(coin) || trees.has_outside(coin, log)
}

// The coin of an offered transfer that isn't refused, where the log has the coin.
fn offer_at<H: Hash32 + Copy>(
    alloc: Global,
    pool: &Pool<H>,
    trees: &Trees<H>,
    log: &RootLog,
    tag: &[u8; 32],
    bytes: &[u8],
    tx: &SignedTx,
    made: &CoinView,
) -> Result<u64, OfferRefusal>
    ensures { result ≢ Err OfferRefusal.NoMemory → result ≡ (offer_at (H.digest_of trees.now.hash) tag.now log.now.log
        (forest_now pool.now trees.now) bytes.now tx.now (Some made.now)).answer }
{
    let Ok(tip) = present(alloc, trees, log, tag, tx.body.coin, made) else {
        return Err(OfferRefusal::NoMemory);
    };
    if tx.body.parent != tip.block {
        return Err(OfferRefusal::WrongParent { tip: tip.block });
    }
    if !log.signed_by(tx, &tip.owner) {
        return Err(OfferRefusal::BadSignature);
    }
    if let Some(last) = tx.body.last {
        if last <= log.blocks() {
            return Err(OfferRefusal::TooLate { last });
        }
    }
    if is_waiting(pool, trees, log, tx.body.coin) {
        return Err(OfferRefusal::PoolHasCoin);
    }
    Ok(tx.body.coin)
}

/// The coin of an offered transfer, or why it is refused.
#[tactic(auto, unfolding(plasma_tx::specs::Spelling::signed_in))]
pub fn offer_of<H: Hash32 + Copy>(
    alloc: Global,
    pool: &Pool<H>,
    trees: &Trees<H>,
    log: &RootLog,
    tag: &[u8; 32],
    bytes: &[u8],
) -> Result<u64, OfferRefusal>
    ensures value { result ≢ Err OfferRefusal.NoMemory → result
        ≡ (offer_of (H.digest_of trees.now.hash) tag.now log.now.log
        (forest_now pool.now trees.now) bytes.now (signed_in tag.now bytes.now)).answer }
    ensures memory { result ≡ Err OfferRefusal.NoMemory
        → has_its_coin log.now.log (signed_in tag.now bytes.now) ≡ true }
{
    let Ok(body) = Body::read(tag, bytes) else {
        return Err(OfferRefusal::NotTransfer);
    };
    let Some(made) = log.coin(body.coin) else {
        return Err(OfferRefusal::NoCoin);
    };
    match SignedTx::read(alloc, tag, bytes) {
        Ok(tx) => offer_at(alloc, pool, trees, log, tag, bytes, &tx, &made),
        Err(TxRefusal::NoMemory) => Err(OfferRefusal::NoMemory),
        Err(_) => Err(OfferRefusal::NotTransfer),
    }
}
