ghost use Rattle.std.specs.Prelude.{◌≡◌, [], length, IfOk, OnOk, OnErr};
ghost use Rattle.std.specs.BTreeMap.{keys};
ghost use Rattle.sparse_merkle.specs.TreeDigest.{leaf_of, with_leaf, IsMap};
ghost use Rattle.merkle_pages.specs.Leaves.{entries_in, coins_of};

use plasma_base::{Bytes, NoMemory};
use std::alloc::Global;
use std::collections::BTreeMap;
use std::marker::Model;

/// A finite map from coins to leaves that aren't empty, in which a put costs as much at any coin.
/// Contracts see its entries in rising order of coins.
#[derive(Drop)]
pub struct Leaves {
    alloc: Global,
    map: BTreeMap<u64, Bytes>,
}

impl Model for Leaves {
    ghost use Rattle.std.specs.Prelude.{List};
    ghost use Rattle.sparse_merkle.specs.declared.tree.Entry.{Entry};
    ghost use Rattle.sparse_merkle.specs.TreeDigest.{IsMap};
    ghost use Rattle.merkle_pages.specs.Leaves.{entries_in};

    ghost Value = { List Entry };

    ghost view = { λ l. entries_in l.map.entries };

    ghost invariant = { λ l. IsMap (entries_in l.map.entries) };
}

impl Leaves {
    /// The map without a leaf. It takes no memory.
    pub fn new(alloc: Global) -> Leaves
        ensures { result ≡ [] }
    {
        Leaves {
            alloc,
            map: BTreeMap::new(alloc),
        }
    }

    /// The number of coins that have a leaf.
    pub fn len(&self) -> usize
        ensures { result ≡ length self.now }
    {
        self.map.len()
    }

    /// The leaf of the coin, lent, which is empty where the coin has none.
    pub fn leaf(&self, coin: u64) -> &[u8]
        ensures leaf { result.now ≡ leaf_of self.now coin }
        ensures map { IsMap self.now }
    {
        match self.map.get(&coin) {
            Some(leaf) => leaf.as_slice(),
            None => &[],
        }
    }

    /// Puts the leaf at the coin in place of the one before, and changes no other coin. An empty leaf
    /// removes. Where memory runs out nothing changes.
    pub fn put(&mut self, coin: u64, leaf: &[u8]) -> Result<(), NoMemory>
        ensures ok { OnOk result (self.new ≡ with_leaf self.old coin leaf.now) }
        ensures err { OnErr result (self.new ≡ self.old) }
    {
        put_leaf(self.alloc, &mut self.map, coin, leaf)
    }

    /// The coins that have a leaf, rising.
    pub fn coins(&self) -> Result<Vec<u64>, NoMemory>
        ensures coins { IfOk result (λ coins. coins.items ≡ coins_of self.now) }
        ensures map { IsMap self.now }
    {
        keys_of(self.alloc, &self.map)
    }
}

// As `put`.
fn put_leaf(
    alloc: Global,
    map: &mut BTreeMap<u64, Bytes>,
    coin: u64,
    leaf: &[u8],
) -> Result<(), NoMemory>
    requires { IsMap (entries_in map.old.entries) }
    ensures ok { OnOk result (entries_in map.new.entries ≡ with_leaf (entries_in map.old.entries) coin leaf.now) }
    ensures err { OnErr result (entries_in map.new.entries ≡ entries_in map.old.entries) }
{
    if leaf.is_empty() {
        map.remove(&coin);
        return Ok(());
    }
    let leaf = Bytes::from_vec(Vec::from_slice(alloc, leaf)?);
    map.insert(coin, leaf)?;
    Ok(())
}

// The keys of a map, rising.
fn keys_of(alloc: Global, map: &BTreeMap<u64, Bytes>) -> Result<Vec<u64>, NoMemory>
    ensures { IfOk result (λ coins. coins.items ≡ keys map.now) }
{
    Ok(map.keys().copied().collect(alloc)?)
}
