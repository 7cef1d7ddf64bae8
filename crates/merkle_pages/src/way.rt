ghost use Rattle.std.specs.Prelude.{◌≡◌, ◌<◌, ℕ, OnOk, OnErr, IsSome, IsTrue, Some};
ghost use Rattle.sparse_merkle.specs.TreeDigest.{with_leaf};
ghost use Rattle.merkle_pages.specs.Pages.{node_at, ReadsSame, SetsWay};

use super::leaves::Leaves;
use super::pages::{Pages, kept_node, put_node, remove_node};
use plasma_base::NoMemory;
use std::alloc::Global;

/// Puts a leaf, and the digests of its coin's way up in place of the nodes there. Where memory runs out
/// neither a leaf nor a node changes.
pub fn put_on_way(
    alloc: Global,
    leaves: &mut Leaves,
    pages: &mut Pages,
    coin: u64,
    leaf: &[u8],
    digests: &[[u8; 32]; 65],
    defaults: &[[u8; 32]; 64],
) -> Result<(), NoMemory>
    ensures put { OnOk result (leaves.new ≡ with_leaf leaves.old coin leaf.now) }
    ensures set { OnOk result (SetsWay coin 64 digests.now defaults.now pages.old pages.new) }
    ensures leaves_stay { OnErr result (leaves.new ≡ leaves.old) }
    ensures nodes_stay { OnErr result (ReadsSame defaults.now pages.old pages.new) }
{
    match put_in_room(alloc, leaves, pages, coin, leaf, defaults) {
        Ok(()) => {
            write_way(alloc, pages, coin, digests, defaults);
            sweep_way(pages, coin, defaults);
            Ok(())
        }
        Err(why) => {
            sweep_way(pages, coin, defaults);
            Err(why)
        }
    }
}

// Makes room for the nodes of a coin's way up, and puts its leaf.
fn put_in_room(
    alloc: Global,
    leaves: &mut Leaves,
    pages: &mut Pages,
    coin: u64,
    leaf: &[u8],
    defaults: &[[u8; 32]; 64],
) -> Result<(), NoMemory>
    ensures put { OnOk result (leaves.new ≡ with_leaf leaves.old coin leaf.now) }
    ensures room { OnOk result ((level : ℕ) → level < 64 → IsSome (node_at level coin pages.new)) }
    ensures leaves_stay { OnErr result (leaves.new ≡ leaves.old) }
    ensures nodes_stay { ReadsSame defaults.now pages.old pages.new }
{
    make_rooms(alloc, pages, coin, defaults)?;
    leaves.put(coin, leaf)
}

// Keeps a node at each level of a coin's way up: the default, where none is kept. So no node changes, and a
// node in its place then takes no memory.
fn make_rooms(
    alloc: Global,
    pages: &mut Pages,
    coin: u64,
    defaults: &[[u8; 32]; 64],
) -> Result<(), NoMemory>
    ensures same { ReadsSame defaults.now pages.old pages.new }
    ensures room { OnOk result ((level : ℕ) → level < 64 → IsSome (node_at level coin pages.new)) }
{
    for level in 0..64 {
        make_room(alloc, pages, level, coin, defaults)?;
    }
    Ok(())
}

// The same at one level.
fn make_room(
    alloc: Global,
    pages: &mut Pages,
    level: usize,
    coin: u64,
    defaults: &[[u8; 32]; 64],
) -> Result<(), NoMemory>
    requires { level < 64 }
    ensures same { ReadsSame defaults.now pages.old pages.new }
    ensures room { OnOk result (IsSome (node_at level coin pages.new)) }
    ensures stays { (k : ℕ) → IsSome (node_at k coin pages.old) → IsSome (node_at k coin pages.new) }
{
    if kept_node(pages, level, coin).is_some() {
        return Ok(());
    }
    put_node(alloc, pages, level, coin, defaults[level])
}

// Puts the digests of a coin's way up in place of the nodes that are kept there.
fn write_way(
    alloc: Global,
    pages: &mut Pages,
    coin: u64,
    digests: &[[u8; 32]; 65],
    defaults: &[[u8; 32]; 64],
)
    requires { (level : ℕ) → level < 64 → IsSome (node_at level coin pages.old) }
    ensures { SetsWay coin 64 digests.now defaults.now pages.old pages.new }
{
    for level in 0..64 {
        if put_node(alloc, pages, level, coin, digests[level]).is_err() {
            unreachable!()
        }
    }
}

// Takes the nodes of a coin's way up that are the default of their level out of the pages.
fn sweep_way(pages: &mut Pages, coin: u64, defaults: &[[u8; 32]; 64])
    ensures { ReadsSame defaults.now pages.old pages.new }
{
    for level in 0..64 {
        sweep_node(pages, level, coin, defaults);
    }
}

// The same at one level.
fn sweep_node(pages: &mut Pages, level: usize, coin: u64, defaults: &[[u8; 32]; 64])
    requires { level < 64 }
    ensures { ReadsSame defaults.now pages.old pages.new }
{
    if keeps(pages, level, coin, &defaults[level]) {
        remove_node(pages, level, coin);
    }
}

// Whether that digest is kept at a level of a coin's way up.
fn keeps(pages: &Pages, level: usize, coin: u64, digest: &[u8; 32]) -> bool
    requires { level < 64 }
    ensures { IsTrue result → node_at level coin pages.now ≡ Some digest.now }
{
    match kept_node(pages, level, coin) {
        Some(kept) => kept == digest,
        None => false,
    }
}
