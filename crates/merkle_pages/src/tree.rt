ghost use Rattle.std.specs.Prelude.{◌≡◌, ◌≢◌, ◌≤◌, ℕ, [], length, slice_index_or, IfOk, IfErr, OnOk, OnErr, MatchOption, IsTrue};
ghost use Rattle.sparse_merkle.specs.MaskedPath.{proof_path, is_canonical};
ghost use Rattle.sparse_merkle.specs.Opening.{is_opening};
ghost use Rattle.sparse_merkle.specs.PathProof.{proof_of_path};
ghost use Rattle.sparse_merkle.specs.TreeDigest.{leaf_of, with_leaf, root_of, path_to, subtree_digest};
ghost use Rattle.merkle_pages.specs.Nodes.{part_at, KeepsNodes};

use super::defaults::Defaults;
use super::leaves::Leaves;
use super::nodes::add_nodes;
use super::pages::{Pages, kept_node, sibling_coin, siblings};
use super::way::put_on_way;
use plasma_base::{Hash32, NoMemory};
use sparse_merkle::{Proof, bit, leaf_digest, parent_bytes};
use std::alloc::Global;
use std::collections::BTreeMap;
use std::marker::Model;

/// A finite map from coins to leaves that aren't empty, with the nodes of its tree under one digest, whose
/// defaults it holds itself. Contracts see that digest and the entries in rising order of coins.
///
/// A page keeps no node that is the default of its level. It may be the node of a part of the map with
/// leaves, where the digest collides: a node that isn't kept is read as the default, which it then is.
#[derive(Drop)]
pub struct PagedTree<H: Hash32 + Copy> {
    defaults: Defaults<H>,
    tree: SharedTree<H>,
}

impl<H: Hash32 + Copy> Model for PagedTree<H> {
    ghost use Rattle.std.specs.Prelude.{◌≡◌};
    ghost use Rattle.merkle_pages.specs.Nodes.{HashedMap};

    ghost Value = { HashedMap H };

    ghost view = { λ t. t.tree };

    ghost invariant = { λ t. t.tree.hash ≡ t.defaults };
}

/// The same tree without the defaults of its digest, which each call that needs them is lent: so many trees
/// share them, and a tree without a leaf takes no memory.
#[derive(Drop)]
pub struct SharedTree<H: Hash32 + Copy> {
    alloc: Global,
    hash: H,
    root: [u8; 32],
    leaves: Leaves,
    pages: Pages,
}

impl<H: Hash32 + Copy> Model for SharedTree<H> {
    ghost use Rattle.merkle_pages.specs.Nodes.{HashedMap, KeepsNodes};

    ghost Value = { HashedMap H };

    ghost view = { λ t. record { hash = t.hash; entries = t.leaves } };

    ghost invariant = { λ t. KeepsNodes (H.digest_of t.hash) t.leaves t.root t.pages };
}

// The root of a tree, and the pages of its other nodes.
#[derive(Drop)]
struct TreeNodes {
    root: [u8; 32],
    pages: Pages,
}

// The nodes of the tree of a map.
fn nodes_of<H: Hash32 + Copy>(
    alloc: Global,
    defaults: &Defaults<H>,
    leaves: &Leaves,
) -> Result<TreeNodes, NoMemory>
    ensures { IfOk result (λ nodes. KeepsNodes (H.digest_of defaults.now) leaves.now nodes.root nodes.pages) }
{
    let mut pages = BTreeMap::new(alloc);
    let root = add_nodes(alloc, defaults, leaves, &mut pages)?;
    Ok(TreeNodes { root, pages })
}

impl<H: Hash32 + Copy> PagedTree<H> {
    /// The map without a leaf. It takes no memory and makes 65 digests.
    pub fn new(alloc: Global, h: H) -> PagedTree<H>
        ensures { result ≡ record { hash = h; entries = [] } }
    {
        let defaults = Defaults::new(h);
        let tree = SharedTree::new(alloc, &defaults);
        PagedTree { defaults, tree }
    }

    /// The tree of a map, as `SharedTree::of_leaves`.
    pub fn of_leaves(
        alloc: Global,
        defaults: Defaults<H>,
        leaves: Leaves,
    ) -> Result<PagedTree<H>, Leaves>
        ensures made { IfOk result (λ tree. tree ≡ record { hash = defaults; entries = leaves }) }
        ensures returned { IfErr result (λ returned. returned ≡ leaves) }
        ensures memory { OnErr result (leaves ≢ []) }
    {
        match SharedTree::of_leaves(alloc, &defaults, leaves) {
            Ok(tree) => Ok(PagedTree { defaults, tree }),
            Err(leaves) => Err(leaves),
        }
    }

    /// The map, without the nodes. It takes no memory.
    pub fn into_leaves(self) -> Leaves
        ensures { result ≡ self.entries }
    {
        let PagedTree { tree, .. } = self;
        tree.into_leaves()
    }

    /// The number of coins that have a leaf.
    pub fn len(&self) -> usize
        ensures { result ≡ length self.now.entries }
    {
        self.tree.len()
    }

    /// Puts the leaf at the coin in place of the one before, and changes no other coin. An empty leaf
    /// removes. Where memory runs out nothing changes. It makes 65 digests.
    pub fn put(&mut self, coin: u64, leaf: &[u8]) -> Result<(), NoMemory>
        ensures ok { OnOk result (self.new.entries ≡ with_leaf self.old.entries coin leaf.now) }
        ensures err { OnErr result (self.new.entries ≡ self.old.entries) }
        ensures hash { self.new.hash ≡ self.old.hash }
    {
        self.tree.put(&self.defaults, coin, leaf)
    }

    /// The leaf of the coin, lent; `None` exactly where the coin has none.
    pub fn leaf(&self, coin: u64) -> Option<&[u8]>
        ensures { MatchOption result (leaf_of self.now.entries coin ≡ [])
            (λ leaf. (leaf.now ≡ leaf_of self.now.entries coin) × (leaf.now ≢ [])) }
    {
        self.tree.leaf(coin)
    }

    /// The root, lent. It makes no digest.
    pub fn root(&self) -> &[u8; 32]
        ensures { result.now ≡ root_of (H.digest_of self.now.hash) self.now.entries }
    {
        self.tree.root()
    }

    /// The node at that level on the way up from the coin, lent: the digest of the part of the map whose
    /// coins agree with this one in the bit of the level and in every higher bit. It takes no memory and
    /// makes no digest.
    pub fn node(&self, level: u32, coin: u64) -> &[u8; 32]
        requires { level ≤ 64 }
        ensures { result.now ≡ subtree_digest (H.digest_of self.now.hash) level (part_at level coin self.now.entries) }
    {
        self.tree.node(&self.defaults, level, coin)
    }

    /// The proof of what the map has at the coin, a leaf or none. It makes no digest.
    pub fn prove(&self, coin: u64) -> Result<Proof, NoMemory>
        ensures path { IfOk result
            (λ proof. proof_path (H.digest_of self.now.hash) proof
            ≡ path_to (H.digest_of self.now.hash) coin self.now.entries) }
        ensures opens { IfOk result (λ proof. IsTrue
            (is_opening (H.digest_of self.now.hash) (root_of (H.digest_of self.now.hash) self.now.entries) coin
            (leaf_of self.now.entries coin) (proof_path (H.digest_of self.now.hash) proof))) }
        ensures canonical { IfOk result (λ proof. IsTrue (is_canonical (H.digest_of self.now.hash) proof)) }
        ensures is { IfOk result
            (λ proof. proof ≡ proof_of_path (H.digest_of self.now.hash)
            (path_to (H.digest_of self.now.hash) coin self.now.entries)) }
    {
        self.tree.prove(&self.defaults, coin)
    }
}

impl<H: Hash32 + Copy> SharedTree<H> {
    /// The tree of the map without a leaf, under the digest of the defaults. It takes no memory and makes no
    /// digest.
    pub fn new(alloc: Global, defaults: &Defaults<H>) -> SharedTree<H>
        ensures { result ≡ record { hash = defaults.now; entries = [] } }
    {
        SharedTree {
            alloc,
            hash: defaults.hash(),
            root: *defaults.of_level(64),
            leaves: Leaves::new(alloc),
            pages: BTreeMap::new(alloc),
        }
    }

    /// The tree of a map, under the digest of the defaults. It makes a digest for each node of a part with a
    /// leaf: at most 65 for a leaf, and for coins that stand in a row about two. Where memory runs out the map
    /// is handed back; a map without a leaf takes none.
    pub fn of_leaves(
        alloc: Global,
        defaults: &Defaults<H>,
        leaves: Leaves,
    ) -> Result<SharedTree<H>, Leaves>
        ensures made { IfOk result (λ tree. tree ≡ record { hash = defaults.now; entries = leaves }) }
        ensures returned { IfErr result (λ returned. returned ≡ leaves) }
        ensures memory { OnErr result (leaves ≢ []) }
    {
        if leaves.len() == 0 {
            return Ok(SharedTree::new(alloc, defaults));
        }
        match nodes_of(alloc, defaults, &leaves) {
            Ok(nodes) => {
                let TreeNodes { root, pages } = nodes;
                Ok(SharedTree {
                    alloc,
                    hash: defaults.hash(),
                    root,
                    leaves,
                    pages,
                })
            }
            Err(_) => Err(leaves),
        }
    }

    /// The map, without the nodes. It takes no memory.
    pub fn into_leaves(self) -> Leaves
        ensures { result ≡ self.entries }
    {
        let SharedTree { leaves, .. } = self;
        leaves
    }

    /// The number of coins that have a leaf.
    pub fn len(&self) -> usize
        ensures { result ≡ length self.now.entries }
    {
        self.leaves.len()
    }

    /// Puts the leaf at the coin in place of the one before, and changes no other coin. An empty leaf
    /// removes. Where memory runs out nothing changes. It makes 65 digests.
    fn put(&mut self, defaults: &Defaults<H>, coin: u64, leaf: &[u8]) -> Result<(), NoMemory>
        requires { defaults.now ≡ self.old.hash }
        ensures ok { OnOk result (self.new.entries ≡ with_leaf self.old.entries coin leaf.now) }
        ensures err { OnErr result (self.new.entries ≡ self.old.entries) }
        ensures hash { self.new.hash ≡ self.old.hash }
    {
        let digests = self.digests_with(defaults, coin, leaf);
        put_on_way(
            self.alloc,
            &mut self.leaves,
            &mut self.pages,
            coin,
            leaf,
            &digests,
            defaults.below(),
        )?;
        self.root = digests[64];
        Ok(())
    }

    /// The leaf of the coin, lent; `None` exactly where the coin has none.
    pub fn leaf(&self, coin: u64) -> Option<&[u8]>
        ensures { MatchOption result (leaf_of self.now.entries coin ≡ [])
            (λ leaf. (leaf.now ≡ leaf_of self.now.entries coin) × (leaf.now ≢ [])) }
    {
        let leaf = self.leaves.leaf(coin);
        if leaf.is_empty() {
            return None;
        }
        Some(leaf)
    }

    /// The root, lent. It makes no digest.
    pub fn root(&self) -> &[u8; 32]
        ensures { result.now ≡ root_of (H.digest_of self.now.hash) self.now.entries }
    {
        &self.root
    }

    /// The node at that level on the way up from the coin, lent: the digest of the part of the map whose
    /// coins agree with this one in the bit of the level and in every higher bit. It takes no memory and
    /// makes no digest.
    fn node<'a>(&'a self, defaults: &'a Defaults<H>, level: u32, coin: u64) -> &'a [u8; 32]
        requires level { level ≤ 64 }
        requires defaults { defaults.now ≡ self.now.hash }
        ensures { result.now ≡ subtree_digest (H.digest_of self.now.hash) level (part_at level coin self.now.entries) }
    {
        let level = level as usize;
        if level == 64 {
            return &self.root;
        }
        match kept_node(&self.pages, level, coin) {
            Some(digest) => digest,
            None => defaults.of_level(level),
        }
    }

    /// The proof of what the map has at the coin, a leaf or none. It makes no digest.
    pub fn prove(&self, defaults: &Defaults<H>, coin: u64) -> Result<Proof, NoMemory>
        requires { defaults.now ≡ self.now.hash }
        ensures path { IfOk result
            (λ proof. proof_path (H.digest_of self.now.hash) proof
            ≡ path_to (H.digest_of self.now.hash) coin self.now.entries) }
        ensures opens { IfOk result (λ proof. IsTrue
            (is_opening (H.digest_of self.now.hash) (root_of (H.digest_of self.now.hash) self.now.entries) coin
            (leaf_of self.now.entries coin) (proof_path (H.digest_of self.now.hash) proof))) }
        ensures canonical { IfOk result (λ proof. IsTrue (is_canonical (H.digest_of self.now.hash) proof)) }
        ensures is { IfOk result
            (λ proof. proof ≡ proof_of_path (H.digest_of self.now.hash)
            (path_to (H.digest_of self.now.hash) coin self.now.entries)) }
    {
        let below = defaults.below();
        let siblings = siblings(&self.pages, coin, below);
        Proof::of_path(self.alloc, below, &siblings)
    }

    // The digests on the way up from a coin, from its leaf to the root, once it has that leaf.
    fn digests_with(&self, defaults: &Defaults<H>, coin: u64, leaf: &[u8]) -> [[u8; 32]; 65]
        requires { defaults.now ≡ self.now.hash }
        ensures { (level : ℕ) → level ≤ 64 → slice_index_or result level []
            ≡ subtree_digest (H.digest_of self.now.hash) level
            (part_at level coin (with_leaf self.now.entries coin leaf.now)) }
    {
        let mut digests = [[0; 32]; 65];
        digests[0] = leaf_digest(&self.hash, leaf);
        for level in 0..64 {
            let sibling = self.node(defaults, level as u32, sibling_coin(coin, level));
            let string = parent_bytes(bit(coin, level), &digests[level], sibling);
            digests[level + 1] = self.hash.digest(&string);
        }
        digests
    }
}
