ghost use Rattle.std.specs.Prelude.{◌≡◌, ◌+◌, ◌≤◌, ◌<◌, [], not, IfOk, OnOk, None};
ghost use Rattle.std.specs.List.{filter};
ghost use Rattle.std.specs.List.Sorted.{IsPartitionedBy};
ghost use Rattle.sparse_merkle.specs.TreeDigest.{bit_of, subtree_digest, IsMap};
ghost use Rattle.merkle_pages.specs.Leaves.{coins_of, near_coins, far_coins};
ghost use Rattle.merkle_pages.specs.Nodes.{part_at, KeepsNodes, KeepsNode, AddsPart, IsClear};
ghost use Rattle.merkle_pages.specs.Pages.{node_at};

use super::defaults::Defaults;
use super::leaves::Leaves;
use super::pages::{Pages, keep_node, sibling_coin};
use plasma_base::{Hash32, NoMemory};
use sparse_merkle::{bit, leaf_digest, parent_bytes};
use std::alloc::Global;

/// Adds the nodes of a map to pages that keep none, and gives the root. Each node of a part with a leaf
/// is digested once. Where memory runs out some nodes may stay.
pub fn add_nodes<H: Hash32 + Copy>(
    alloc: Global,
    defaults: &Defaults<H>,
    leaves: &Leaves,
    pages: &mut Pages,
) -> Result<[u8; 32], NoMemory>
    requires { pages.old.entries ≡ [] }
    ensures { IfOk result (λ root. KeepsNodes (H.digest_of defaults.now) leaves.now root pages.new) }
{
    let coins = leaves.coins()?;
    add_part(alloc, defaults, leaves, pages, 64, 0, coins.as_slice())
}

// Adds the nodes of the part of a map at a level on the way up from a coin, which has these coins, and
// gives the digest of the part.
fn add_part<H: Hash32 + Copy>(
    alloc: Global,
    defaults: &Defaults<H>,
    leaves: &Leaves,
    pages: &mut Pages,
    level: usize,
    coin: u64,
    coins: &[u64],
) -> Result<[u8; 32], NoMemory>
    requires in_tree { level ≤ 64 }
    requires map { IsMap leaves.now }
    requires part { coins.now ≡ coins_of (part_at level coin leaves.now) }
    requires clear { IsClear level coin pages.old }
    ensures digest { IfOk result (λ digest. digest
        ≡ subtree_digest (H.digest_of defaults.now) level (part_at level coin leaves.now)) }
    ensures added { OnOk result (AddsPart (H.digest_of defaults.now) leaves.now level coin pages.old pages.new) }
{
    if coins.is_empty() {
        return Ok(*defaults.of_level(level));
    }
    if level == 0 {
        let leaf = leaf_digest(&defaults.hash(), leaves.leaf(coin));
        keep_part(alloc, defaults, pages, level, coin, &leaf)?;
        return Ok(leaf);
    }
    let below = level - 1;
    let (near, far) = sides(coins, coin, below);
    let near = add_part(alloc, defaults, leaves, pages, below, coin, near)?;
    let other = sibling_coin(coin, below);
    let far = add_part(alloc, defaults, leaves, pages, below, other, far)?;
    let string = parent_bytes(bit(coin, below), &near, &far);
    let node = defaults.hash().digest(&string);
    keep_part(alloc, defaults, pages, level, coin, &node)?;
    Ok(node)
}

// Keeps the digest of a part in its page; that of the whole map stands in none.
fn keep_part<H: Hash32 + Copy>(
    alloc: Global,
    defaults: &Defaults<H>,
    pages: &mut Pages,
    level: usize,
    coin: u64,
    digest: &[u8; 32],
) -> Result<(), NoMemory>
    requires in_tree { level ≤ 64 }
    requires clear { level < 64 → node_at level coin pages.old ≡ None }
    ensures { OnOk result (KeepsNode (H.digest_of defaults.now) level coin digest.now pages.old pages.new) }
{
    if level == 64 {
        return Ok(());
    }
    keep_node(alloc, pages, level, coin, digest, defaults.of_level(level))?;
    Ok(())
}

// The coins with a 0 at that bit, and those with a 1.
fn split(coins: &[u64], level: usize) -> (&[u64], &[u64])
    requires in_tree { level < 64 }
    requires parted { IsPartitionedBy (λ coin. not (bit_of coin level)) coins.now }
    ensures left { result.0.now ≡ filter (λ coin. not (bit_of coin level)) coins.now }
    ensures right { result.1.now ≡ filter (λ coin. bit_of coin level) coins.now }
{
    coins.split_at(coins.partition_point(|coin| !bit(*coin, level)))
}

// The coins on the side of the coin at that bit, and those on the other side.
fn sides(coins: &[u64], coin: u64, level: usize) -> (&[u64], &[u64])
    requires in_tree { level < 64 }
    requires parted { IsPartitionedBy (λ coin. not (bit_of coin level)) coins.now }
    ensures near { result.0.now ≡ near_coins coin level coins.now }
    ensures far { result.1.now ≡ far_coins coin level coins.now }
{
    let (left, right) = split(coins, level);
    if bit(coin, level) {
        (right, left)
    } else {
        (left, right)
    }
}
