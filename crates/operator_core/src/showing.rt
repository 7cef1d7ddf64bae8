ghost use Rattle.std.specs.Prelude.{◌≡◌, ◌≢◌, ◌<◌, ◌≤◌, ◌^◌, ◌+◌, ◌++◌, ◌∷◌, [], true, false, length, IfOk, IfErr, OnOk, OnErr, Ok, Err};
ghost use Rattle.std.specs.List.{All};
ghost use Rattle.gate_journal.specs.Image.{most};
ghost use Rattle.sparse_merkle.specs.TreeDigest.{leaf_of};
ghost use Rattle.plasma_tx.specs.Views.{blocks, coin_at};
ghost use Rattle.coin_history.specs.History.{committed_blocks};
ghost use Rattle.coin_history.specs.Bundles.{AreRising};
ghost use Rattle.coin_history.specs.Checking.{may_be_tip};
ghost use Rattle.operator_rules.specs.Walk.{present};
ghost use Rattle.operator_rules.specs.Trees.{opening_in_tree, tree_at};
ghost use Rattle.operator_rules.specs.Commands.{prove_by, openings_of, bundle_between, tip_asked, bundle_of};
ghost use Rattle.operator_core.specs.Inside.{AreShortTrees};
ghost use Rattle.operator_core.specs.Known.{is_known, first_is_known, one_is_known, is_begun};

use super::pool::copy_of;
use super::trees::{Trees, leaf_in};
use super::walk::{is_committed, present, tree_at};
use coin_history::{Bundle, Openings};
use merkle_pages::{Defaults, SharedTree};
use operator_rules::ProveRefusal;
use plasma_base::{Hash32, NoMemory};
use plasma_tx::{CoinView, Opening, RawOpening, RootLog};
use std::alloc::Global;

// The most openings that a bundle's count tells.
const MOST_OPENINGS: usize = 4_294_967_295;

// What a tree has at a coin, as the opening of block n.
fn opening_in_tree<H: Hash32 + Copy>(
    alloc: Global,
    defaults: &Defaults<H>,
    tree: &SharedTree<H>,
    coin: u64,
    n: u64,
) -> Result<RawOpening, NoMemory>
    requires defaults { defaults.now ≡ tree.now.hash }
    requires short { length (leaf_of tree.now.entries coin) ≤ most }
    ensures is { IfOk result (λ raw. raw ≡ opening_in_tree (H.digest_of tree.now.hash) coin n tree.now.entries) }
    ensures short { IfOk result (λ raw. length raw.bytes < 2 ^ 32) }
{
    let opening = Opening {
        block: n,
        leaf: copy_of(alloc, leaf_in(tree, coin))?,
        proof: tree.prove(defaults, coin)?,
    };
    Ok(opening.write()?)
}

/// What the tree of block n has at a coin.
#[tactic(auto, using(crate::proofs::Short::short_found))]
pub fn opening_at<H: Hash32 + Copy>(
    alloc: Global,
    trees: &Trees<H>,
    log: &RootLog,
    coin: u64,
    n: u64,
) -> Result<RawOpening, ProveRefusal>
    requires { AreShortTrees trees.now.sealed }
    ensures value { result ≢ Err ProveRefusal.NoMemory → result ≡ prove_by (H.digest_of trees.now.hash) coin n
        (tree_at (H.digest_of trees.now.hash) log.now.log trees.now.sealed n) }
    ensures memory { result ≡ Err ProveRefusal.NoMemory
        → is_known (H.digest_of trees.now.hash) log.now.log trees.now.sealed n ≡ true }
    ensures short { IfOk result (λ raw. length raw.bytes < 2 ^ 32) }
{
    match tree_at(trees, log, n) {
        Some(tree) => match opening_in_tree(alloc, trees.defaults(), tree, coin, n) {
            Ok(opening) => Ok(opening),
            Err(_) => Err(ProveRefusal::NoMemory),
        },
        None => Err(ProveRefusal::UnknownBlock { n }),
    }
}

// Adds an opening at the end. A bundle's count has 32 bits: the 2^32nd opening is no bundle's, and is told as
// want of memory. So many take hundreds of gigabytes, and a log within the limits of a chain has fewer blocks.
fn push(openings: &mut Vec<RawOpening>, opening: RawOpening) -> Result<(), ProveRefusal>
    ensures ok { OnOk result (openings.new.items ≡ openings.old.items ++ opening ∷ []) }
    ensures count { OnOk result (length openings.new.items < 2 ^ 32) }
    ensures err { OnErr result (result ≡ Err ProveRefusal.NoMemory) }
{
    if openings.len() >= MOST_OPENINGS {
        return Err(ProveRefusal::NoMemory);
    }
    match openings.push(opening) {
        Ok(()) => Ok(()),
        Err(_) => Err(ProveRefusal::NoMemory),
    }
}

// The openings of the committed blocks after a block and up to the last.
#[tactic(auto, using(crate::proofs::Ways::openings_steps, crate::proofs::Ways::lengths_more, crate::proofs::Ways::openings_begun))]
fn openings_between<H: Hash32 + Copy>(
    alloc: Global,
    trees: &Trees<H>,
    log: &RootLog,
    coin: u64,
    after: u64,
    last: u64,
) -> Result<Vec<RawOpening>, ProveRefusal>
    requires short { AreShortTrees trees.now.sealed }
    ensures count { IfOk result (λ openings. length openings.items < 2 ^ 32) }
    ensures lengths { IfOk result (λ openings. All (λ opening. length opening.bytes < 2 ^ 32) openings.items) }
    ensures made { IfOk result (λ openings.
        openings_of (H.digest_of trees.now.hash) log.now.log trees.now.sealed coin
        (committed_blocks log.now.log after last) ≡ Ok openings.items) }
    ensures refused { IfErr result (λ why. why ≢ ProveRefusal.NoMemory →
        openings_of (H.digest_of trees.now.hash) log.now.log trees.now.sealed coin
        (committed_blocks log.now.log after last) ≡ Err why) }
    ensures memory { IfErr result (λ why. why ≡ ProveRefusal.NoMemory → first_is_known (H.digest_of trees.now.hash)
        log.now.log trees.now.sealed (committed_blocks log.now.log after last) ≡ true) }
{
    let mut openings = Vec::new(alloc);
    'way: for before in after..last {
        let n = before + 1;
        if is_committed(log, n) {
            match opening_at(alloc, trees, log, coin, n) {
                Ok(opening) => push(&mut openings, opening)?,
                Err(why) => return Err(why),
            }
        }
    }
    Ok(openings)
}

/// The bundle of the committed blocks after a block and up to the last.
pub fn bundle_between<H: Hash32 + Copy>(
    alloc: Global,
    trees: &Trees<H>,
    log: &RootLog,
    coin: u64,
    after: u64,
    last: u64,
) -> Result<Bundle, ProveRefusal>
    requires short { AreShortTrees trees.now.sealed }
    ensures value { result ≢ Err ProveRefusal.NoMemory → result
        ≡ bundle_between (H.digest_of trees.now.hash) log.now.log trees.now.sealed coin after last }
    ensures memory { result ≡ Err ProveRefusal.NoMemory → first_is_known (H.digest_of trees.now.hash) log.now.log
        trees.now.sealed (committed_blocks log.now.log after last) ≡ true }
    ensures rising { IfOk result (λ bundle. AreRising bundle.openings) }
    ensures count { IfOk result (λ bundle. length bundle.openings < 2 ^ 32) }
    ensures lengths { IfOk result (λ bundle. All (λ opening. length opening.bytes < 2 ^ 32) bundle.openings) }
{
    match openings_between(alloc, trees, log, coin, after, last) {
        Ok(openings) => Ok(Bundle {
            coin,
            tip: last,
            openings: Openings::from_vec(openings),
        }),
        Err(why) => Err(why),
    }
}

// Whether a bundle may have the tip: it is the deposit block, or a committed one after it.
fn may_be_tip(log: &RootLog, deposit: u64, tip: u64) -> bool
    ensures { result ≡ may_be_tip log.now.log deposit tip }
{
    tip == deposit || (is_committed(log, tip) && deposit < tip)
}

// The tip that is asked for: 0 asks for the present tip.
fn tip_asked<H: Hash32 + Copy>(
    alloc: Global,
    trees: &Trees<H>,
    log: &RootLog,
    tag: &[u8; 32],
    coin: u64,
    made: &CoinView,
    tip: u64,
) -> Result<u64, NoMemory>
    ensures value { IfOk result (λ asked. asked ≡ tip_asked tip
        (present (H.digest_of trees.now.hash) tag.now log.now.log trees.now.sealed coin made.now)) }
    ensures asked { OnErr result (tip ≡ 0) }
    ensures memory { OnErr result (one_is_known (H.digest_of trees.now.hash) log.now.log trees.now.sealed
        (committed_blocks log.now.log made.now.deposit (blocks log.now.log)) ≡ true) }
{
    if tip != 0 {
        return Ok(tip);
    }
    match present(alloc, trees, log, tag, coin, made) {
        Ok(place) => Ok(place.block),
        Err(why) => Err(why),
    }
}

/// The history of a coin up to a tip, or up to the present tip where 0 is asked for.
#[tactic(auto, using(crate::proofs::Ways::begun_walking, crate::proofs::Ways::begun))]
pub fn bundle_of<H: Hash32 + Copy>(
    alloc: Global,
    trees: &Trees<H>,
    log: &RootLog,
    tag: &[u8; 32],
    coin: u64,
    tip: u64,
) -> Result<Bundle, ProveRefusal>
    requires short { AreShortTrees trees.now.sealed }
    ensures value { result ≢ Err ProveRefusal.NoMemory → result
        ≡ bundle_of (H.digest_of trees.now.hash) tag.now log.now.log trees.now.sealed coin tip
        (coin_at log.now.log coin) }
    ensures memory { result ≡ Err ProveRefusal.NoMemory → is_begun (H.digest_of trees.now.hash) log.now.log
        trees.now.sealed tip (coin_at log.now.log coin) ≡ true }
    ensures rising { IfOk result (λ bundle. AreRising bundle.openings) }
    ensures count { IfOk result (λ bundle. length bundle.openings < 2 ^ 32) }
    ensures lengths { IfOk result (λ bundle. All (λ opening. length opening.bytes < 2 ^ 32) bundle.openings) }
{
    let Some(made) = log.coin(coin) else {
        return Err(ProveRefusal::NoCoin);
    };
    let tip = match tip_asked(alloc, trees, log, tag, coin, &made, tip) {
        Ok(tip) => tip,
        Err(_) => return Err(ProveRefusal::NoMemory),
    };
    if !may_be_tip(log, made.deposit, tip) {
        return Err(ProveRefusal::UnknownBlock { n: tip });
    }
    bundle_between(alloc, trees, log, coin, made.deposit, tip)
}
