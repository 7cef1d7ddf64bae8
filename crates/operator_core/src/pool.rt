ghost use Rattle.std.specs.Prelude.{◌≡◌, [], IfOk, OnOk, OnErr};
ghost use Rattle.sparse_merkle.specs.TreeDigest.{with_leaf};
ghost use Rattle.operator_rules.specs.Trees.{has_leaf};

use merkle_pages::{Defaults, Leaves, SharedTree};
use plasma_base::{Bytes, Hash32, NoMemory};
use std::alloc::Global;
use std::marker::Model;
use std::mem;

// A leaf that a coin had before it was put another.
#[derive(Drop)]
struct Before {
    coin: u64,
    leaf: Bytes,
}

/// The leaves of the next tree, none of which is digested before that tree is made. A put counts only
/// once it is kept, so that it may be made before it is known whether its note is durable: keeping it
/// takes no memory, and what isn't kept is undone by the next put.
#[derive(Drop)]
pub struct Pool<H: Hash32 + Copy> {
    alloc: Global,
    hash: H,
    leaves: Leaves,
    before: Option<Before>,
}

impl<H: Hash32 + Copy> Model for Pool<H> {
    ghost use Rattle.operator_core.specs.Inside.{PoolState};

    ghost Value = { PoolState H };

    ghost use Rattle.operator_core.specs.Undone.{put_back};

    ghost view = { λ p. record {
      hash = p.hash;
      entries = put_back p.before p.leaves;
      ahead = p.leaves;
    } };
}

impl<H: Hash32 + Copy> Pool<H> {
    /// No leaf. It takes no memory and makes no digest.
    pub fn new(alloc: Global, hash: H) -> Pool<H>
        ensures { result ≡ record { hash = hash; entries = []; ahead = [] } }
    {
        Pool {
            alloc,
            hash,
            leaves: Leaves::new(alloc),
            before: None,
        }
    }

    /// Undoes a put that wasn't kept. Where memory runs out nothing changes.
    pub fn undo(&mut self) -> Result<(), NoMemory>
        ensures same { self.new.entries ≡ self.old.entries }
        ensures undone { OnOk result (self.new.ahead ≡ self.old.entries) }
        ensures hash { self.new.hash ≡ self.old.hash }
    {
        if let Some(before) = &self.before {
            self.leaves.put(before.coin, before.leaf.as_slice())?;
            self.before = None;
        }
        Ok(())
    }

    /// Makes the map with the leaf at the coin, which counts once it is kept. An empty leaf removes.
    /// Where memory runs out nothing changes. It makes no digest.
    #[tactic(auto, using(crate::proofs::Undone::put_back_is))]
    pub fn put(&mut self, coin: u64, leaf: &[u8]) -> Result<(), NoMemory>
        ensures made { OnOk result (self.new.ahead ≡ with_leaf self.old.entries coin leaf.now) }
        ensures same { self.new.entries ≡ self.old.entries }
        ensures hash { self.new.hash ≡ self.old.hash }
    {
        self.undo()?;
        let leaf_before = copy_of(self.alloc, self.leaves.leaf(coin))?;
        self.leaves.put(coin, leaf)?;
        self.before = Some(Before {
            coin,
            leaf: leaf_before,
        });
        Ok(())
    }

    /// Whether the coin has a leaf.
    #[tactic(auto, using(crate::proofs::Undone::leaf_back, crate::proofs::Undone::leaf_stays))]
    pub fn has(&self, coin: u64) -> bool
        ensures { result ≡ has_leaf self.now.entries coin }
    {
        if let Some(before) = &self.before {
            if before.coin == coin {
                return !before.leaf.is_empty();
            }
        }
        !self.leaves.leaf(coin).is_empty()
    }

    /// Makes the map a tree, with the last put, and leaves none. Each of the tree's nodes is digested
    /// once. The defaults are those of the pool's digest. Where memory runs out nothing changes.
    pub fn take(&mut self, defaults: &Defaults<H>) -> Result<SharedTree<H>, NoMemory>
        requires { defaults.now ≡ self.old.hash }
        ensures tree { IfOk result (λ tree. tree ≡ record { hash = self.old.hash; entries = self.old.ahead }) }
        ensures empty { OnOk result (self.new ≡ record { hash = self.old.hash; entries = []; ahead = [] }) }
        ensures same { OnErr result (self.new ≡ self.old) }
    {
        let leaves = mem::replace(&mut self.leaves, Leaves::new(self.alloc));
        match SharedTree::of_leaves(self.alloc, defaults, leaves) {
            Ok(tree) => {
                self.before = None;
                Ok(tree)
            }
            Err(leaves) => {
                self.leaves = leaves;
                Err(NoMemory)
            }
        }
    }

    /// Takes a tree's leaves back in place of those that are here. It takes no memory.
    pub fn give_back(&mut self, tree: SharedTree<H>)
        ensures { self.new ≡ record { hash = self.old.hash; entries = tree.entries; ahead = tree.entries } }
    {
        self.leaves = tree.into_leaves();
        self.before = None;
    }

    /// Keeps the last put.
    pub fn keep(&mut self)
        ensures kept { self.new.entries ≡ self.old.ahead }
        ensures hash { self.new.hash ≡ self.old.hash }
    {
        self.before = None;
    }
}

/// Equal bytes.
pub fn copy_of(alloc: Global, bytes: &[u8]) -> Result<Bytes, NoMemory>
    ensures { IfOk result (λ copied. copied ≡ bytes.now) }
{
    Ok(Bytes::from_vec(Vec::from_slice(alloc, bytes)?))
}
