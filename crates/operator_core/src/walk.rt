ghost use Rattle.std.specs.Prelude.{◌≡◌, ℕ, List, true, IfOk, IfSome, OnErr, option_map, is_some};
ghost use Rattle.std.specs.Option.{option_and_then};
ghost use Rattle.sparse_merkle.specs.declared.tree.Entry.{Entry};
ghost use Rattle.sparse_merkle.specs.TreeDigest.{leaf_of};
ghost use Rattle.plasma_tx.specs.declared.call.RootCall.{RootCall};
ghost use Rattle.plasma_tx.specs.Shown.{root_at};
ghost use Rattle.plasma_tx.specs.Transfer.{transfer_in};
ghost use Rattle.plasma_tx.specs.Views.{blocks};
ghost use Rattle.coin_history.specs.History.{is_committed, committed_blocks};
ghost use Rattle.operator_rules.specs.Trees.{tree_at, tree_of};
ghost use Rattle.operator_rules.specs.Walk.{moved_by, present};
ghost use Rattle.operator_core.specs.Tips.{place_of_tip};
ghost use Rattle.operator_core.specs.Known.{one_is_known};
ghost use Rattle.operator_core.specs.Walked.{Follows, IsOnWay};

use super::ends::{End, Tip, root_at};
use super::trees::{Trees, leaf_in};
use merkle_pages::SharedTree;
use plasma_base::{Hash32, NoMemory};
use plasma_tx::{CoinView, RootLog, SignedTx, leaf_tx};
use std::alloc::Global;

/// Whether block n was committed.
pub fn is_committed(log: &RootLog, n: u64) -> bool
    ensures { result ≡ is_committed log.now.log n }
{
    root_at(log, n).is_some()
}

/// The tree of block n: the first sealed one with its root.
pub fn tree_at<'a, H: Hash32 + Copy>(
    trees: &'a Trees<H>,
    log: &RootLog,
    n: u64,
) -> Option<&'a SharedTree<H>>
    ensures found { option_map (λ tree. tree.now.entries) result
        ≡ tree_at (H.digest_of trees.now.hash) log.now.log trees.now.sealed n }
    ensures hash { IfSome result (λ tree. tree.now.hash ≡ trees.now.hash) }
{
    match root_at(log, n) {
        Some(root) => trees.find(&root),
        None => None,
    }
}

// The place after block n with this transfer of the coin. A signature is tested only where the transfer
// spends the place.
fn moved_by(log: &RootLog, n: u64, last: Tip, tx: Option<SignedTx>) -> Tip
    ensures { place_of_tip result ≡ moved_by n (place_of_tip last) tx }
{
    match tx {
        Some(tx) if tx.body.parent == last.block && log.signed_by(&tx, &last.owner) => Tip {
            block: n,
            owner: tx.body.to,
        },
        _ => last,
    }
}

// The place after block n, whose root has this tree.
fn after_tree<H: Hash32 + Copy>(
    alloc: Global,
    log: &RootLog,
    tag: &[u8; 32],
    coin: u64,
    n: u64,
    last: Tip,
    tree: Option<&SharedTree<H>>,
) -> Result<Tip, NoMemory>
    ensures value { IfOk result (λ tip. place_of_tip tip ≡ moved_by n (place_of_tip last)
        (option_and_then (λ tree. transfer_in tag.now coin n (leaf_of tree coin))
        (option_map (λ tree. tree.now.entries) tree.entry))) }
    ensures memory { OnErr result (is_some (option_map (λ tree. tree.now.entries) tree.entry) ≡ true) }
{
    let Some(tree) = tree else {
        return Ok(last);
    };
    let leaf = leaf_in(tree, coin);
    if leaf.is_empty() {
        return Ok(last);
    }
    Ok(moved_by(log, n, last, leaf_tx(alloc, tag, coin, n, leaf)?))
}

// The root that a tree was looked for by, and what was found. Many blocks in a row may have one root.
#[derive(Drop)]
struct Sought<'a, H: Hash32 + Copy> {
    root: [u8; 32],
    tree: Option<&'a SharedTree<H>>,
}

// What is found by a root, which isn't looked for again where it was looked for last.
fn look_again<'a, H: Hash32 + Copy>(
    trees: &'a Trees<H>,
    last: Sought<'a, H>,
    root: [u8; 32],
) -> Sought<'a, H>
    requires { option_map (λ tree. tree.now.entries) last.tree
        ≡ tree_of (H.digest_of trees.now.hash) trees.now.sealed last.root }
    ensures tree { option_map (λ tree. tree.now.entries) result.tree
        ≡ tree_of (H.digest_of trees.now.hash) trees.now.sealed root }
    ensures root { result.root ≡ root }
{
    if last.root == root {
        return last;
    }
    Sought {
        root,
        tree: trees.find(&root),
    }
}

// The deposit, as the end of a walk over no block behind it.
fn begun(tag: &[u8; 32], made: &CoinView) -> End
    ensures { (dig : List ℕ → List ℕ) (log : List RootCall) (sealed : List (List Entry)) (coin : ℕ)
        → IsOnWay dig tag.now log sealed coin made.now result }
{
    End {
        tag: *tag,
        made: *made,
        upto: made.deposit,
        tip: Tip {
            block: made.deposit,
            owner: made.owner,
        },
    }
}

// From where a walk of the coin goes on.
fn start<H: Hash32 + Copy>(
    trees: &Trees<H>,
    log: &RootLog,
    tag: &[u8; 32],
    coin: u64,
    made: &CoinView,
) -> End
    requires { Follows log.now.log trees.now.walked }
    ensures { IsOnWay (H.digest_of trees.now.hash) tag.now log.now.log trees.now.sealed coin made.now result }
{
    match trees.end_of(log, tag, coin, made) {
        Some(end) => end,
        None => begun(tag, made),
    }
}

// The coin's present tip and its owner: on from there over the committed blocks.
fn walk<H: Hash32 + Copy>(
    alloc: Global,
    trees: &Trees<H>,
    log: &RootLog,
    tag: &[u8; 32],
    coin: u64,
    made: &CoinView,
    from: &End,
) -> Result<Tip, NoMemory>
    requires { IsOnWay (H.digest_of trees.now.hash) tag.now log.now.log trees.now.sealed coin made.now from.now }
    ensures value { IfOk result (λ tip. place_of_tip tip
        ≡ present (H.digest_of trees.now.hash) tag.now log.now.log trees.now.sealed coin made.now) }
    ensures memory { OnErr result (one_is_known (H.digest_of trees.now.hash) log.now.log trees.now.sealed
        (committed_blocks log.now.log made.now.deposit (blocks log.now.log)) ≡ true) }
{
    let mut tip = from.tip;
    let mut found = Sought {
        root: [0; 32],
        tree: trees.find(&[0; 32]),
    };
    'way: for before in from.upto..log.blocks() {
        let n = before + 1;
        if let Some(root) = root_at(log, n) {
            found = look_again(trees, found, root);
            tip = after_tree(alloc, log, tag, coin, n, tip, found.tree)?;
        }
    }
    Ok(tip)
}

/// The coin's present tip and its owner: once over the committed blocks after the deposit, or on from where the last
/// walk over them ended.
pub fn present<H: Hash32 + Copy>(
    alloc: Global,
    trees: &Trees<H>,
    log: &RootLog,
    tag: &[u8; 32],
    coin: u64,
    made: &CoinView,
) -> Result<Tip, NoMemory>
    ensures value { IfOk result (λ tip. place_of_tip tip
        ≡ present (H.digest_of trees.now.hash) tag.now log.now.log trees.now.sealed coin made.now) }
    ensures memory { OnErr result (one_is_known (H.digest_of trees.now.hash) log.now.log trees.now.sealed
        (committed_blocks log.now.log made.now.deposit (blocks log.now.log)) ≡ true) }
{
    if trees.is_followed(log) {
        let from = start(trees, log, tag, coin, made);
        return walk(alloc, trees, log, tag, coin, made, &from);
    }
    walk(alloc, trees, log, tag, coin, made, &begun(tag, made))
}

/// Walks on to the coin's present tip, and keeps where the walk ended, if there is memory.
pub fn walk_on<H: Hash32 + Copy>(
    alloc: Global,
    trees: &mut Trees<H>,
    log: &RootLog,
    tag: &[u8; 32],
    coin: u64,
    made: &CoinView,
)
    ensures sealed { trees.new.sealed ≡ trees.old.sealed }
    ensures hash { trees.new.hash ≡ trees.old.hash }
{
    trees.follow(log);
    let from = start(trees, log, tag, coin, made);
    if let Ok(tip) = walk(alloc, trees, log, tag, coin, made, &from) {
        let end = End {
            tag: *tag,
            made: *made,
            upto: log.blocks(),
            tip,
        };
        trees.keep(log, coin, end);
    }
}
