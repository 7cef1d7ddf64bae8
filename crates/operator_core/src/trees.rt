ghost use Rattle.std.specs.Prelude.{◌≡◌, ◌<◌, ◌++◌, ◌∷◌, [], ℕ, List, true, is_some, length, IfOk, IfSome, OnOk, option_map, slice_get};
ghost use Rattle.std.specs.List.{list_any};
ghost use Rattle.operator_rules.specs.Trees.{tree_of};
ghost use Rattle.sparse_merkle.specs.TreeDigest.{leaf_of};
ghost use Rattle.sparse_merkle.specs.TreeDigest.{root_of};
ghost use Rattle.sparse_merkle.specs.declared.tree.Entry.{Entry};
ghost use Rattle.operator_rules.specs.Walk.{place_at};
ghost use Rattle.operator_core.specs.Inside.{with_place, is_outside};
ghost use Rattle.operator_core.specs.Tips.{place_of_tip};
ghost use Rattle.operator_core.specs.Walked.{Follows, IsOnWay, KeepsEnds};
ghost use Rattle.std.specs.HashMap.{get, spare};
ghost use Rattle.std.specs.Str.{bytes_eq};

use super::ends::{End, Ends};
use merkle_pages::{Defaults, SharedTree};
use plasma_base::{Hash32, NoMemory};
use plasma_tx::{CoinView, RootLog};
use std::alloc::Global;
use std::collections::HashMap;
use std::marker::Model;

/// The sealed trees in the order of their seals, for each root the place of the first tree with it, the
/// defaults of the digest, which all of them share, and where walks over the trees ended.
#[derive(Drop)]
pub struct Trees<H: Hash32 + Copy> {
    defaults: Box<Defaults<H>>,
    trees: Vec<SharedTree<H>>,
    index: HashMap<[u8; 32], usize>,
    ends: Ends,
}

impl<H: Hash32 + Copy> Model for Trees<H> {
    ghost use Rattle.std.specs.Prelude.{◌&&◌, nat_lt, length};
    ghost use Rattle.std.specs.Vec.{vec_capacity};
    ghost use Rattle.std.specs.HashMap.{spare};
    ghost use Rattle.operator_core.specs.Inside.{TreesState, KeepsWalks, entries_of};

    ghost Value = { TreesState H };

    ghost view = { λ t. record {
      hash = t.defaults.value;
      sealed = entries_of t.trees.items;
      has_room = nat_lt (length t.trees.items) (vec_capacity t.trees) && nat_lt 0 (spare t.index);
      walked = t.ends.roots.items;
    } };

    ghost invariant = { λ t.
        KeepsWalks t.defaults.value (H.digest_of t.defaults.value) t.trees.items t.index t.ends };
}

impl<H: Hash32 + Copy> Trees<H> {
    /// No tree. The defaults take memory, and 65 digests.
    pub fn new(alloc: Global, hash: H) -> Result<Trees<H>, NoMemory>
        ensures hash { IfOk result (λ trees. trees.hash ≡ hash) }
        ensures none { IfOk result (λ trees. trees.sealed ≡ []) }
    {
        Ok(Trees {
            defaults: Box::new(alloc, Defaults::new(hash))?,
            trees: Vec::new(alloc),
            index: HashMap::new(alloc),
            ends: Ends::new(alloc),
        })
    }

    /// The defaults of the digest, lent.
    pub fn defaults(&self) -> &Defaults<H>
        ensures { result.now ≡ self.now.hash }
    {
        &self.defaults
    }

    /// Makes room for one more tree. No tree changes.
    pub fn make_room(&mut self) -> Result<(), NoMemory>
        ensures room { OnOk result (self.new.has_room ≡ true) }
        ensures same { self.new.sealed ≡ self.old.sealed }
        ensures hash { self.new.hash ≡ self.old.hash }
    {
        self.trees.reserve(1)?;
        self.index.reserve(1)?;
        Ok(())
    }

    /// Adds a tree at the end, where there is room.
    pub fn push(&mut self, tree: SharedTree<H>)
        requires room { self.old.has_room ≡ true }
        requires hash { tree.hash ≡ self.old.hash }
        ensures added { self.new.sealed ≡ self.old.sealed ++ tree.entries ∷ [] }
        ensures hash { self.new.hash ≡ self.old.hash }
    {
        let root = *tree.root();
        let place = self.trees.as_slice().len();
        seal_ends(&mut self.ends, &self.index, root);
        index_root(&mut self.index, root, place);
        self.trees.push(tree).unwrap();
    }

    /// Whether a tree has a leaf of the coin, and a root that the log doesn't commit.
    pub fn has_outside(&self, coin: u64, log: &RootLog) -> bool
        ensures { result
            ≡ list_any (is_outside log.now.log coin (H.digest_of self.now.hash)) self.now.sealed }
    {
        any_outside(self.trees.as_slice(), coin, log)
    }

    /// The first tree with the root.
    pub fn find(&self, root: &[u8; 32]) -> Option<&SharedTree<H>>
        ensures found { option_map (λ tree. tree.now.entries) result
            ≡ tree_of (H.digest_of self.now.hash) self.now.sealed root.now }
        ensures hash { IfSome result (λ tree. tree.now.hash ≡ self.now.hash) }
    {
        let place = *self.index.get(root)?;
        tree_at(self.trees.as_slice(), place)
    }

    /// Takes the roots of this log's blocks, as far as there is memory, so that the ends of walks over them can be
    /// kept. Those over other blocks are let go.
    pub fn follow(&mut self, log: &RootLog)
        ensures follows { Follows log.now.log self.new.walked }
        ensures sealed { self.new.sealed ≡ self.old.sealed }
        ensures hash { self.new.hash ≡ self.old.hash }
    {
        self.ends.follow(log);
    }

    /// Whether the log's first blocks are those over which walks ended.
    pub fn is_followed(&self, log: &RootLog) -> bool
        ensures { result ≡ true → Follows log.now.log self.now.walked }
    {
        self.ends.is_followed(log)
    }

    /// Where the last walk of the coin ended, if it is kept and within the log's blocks.
    pub fn end_of(&self, log: &RootLog, tag: &[u8; 32], coin: u64, made: &CoinView) -> Option<End>
        requires { Follows log.now.log self.now.walked }
        ensures { IfSome result (λ end. IsOnWay (H.digest_of self.now.hash) tag.now log.now.log self.now.sealed coin
            made.now end) }
    {
        self.ends.end_of(log, tag, coin, made)
    }

    /// Keeps where a walk of the coin ended, where it went over blocks whose roots were taken.
    pub fn keep(&mut self, log: &RootLog, coin: u64, end: End)
        requires follows { Follows log.now.log self.old.walked }
        requires placed { place_of_tip end.tip ≡ place_at (H.digest_of self.old.hash) end.tag log.now.log
            self.old.sealed coin end.made end.upto }
        ensures sealed { self.new.sealed ≡ self.old.sealed }
        ensures hash { self.new.hash ≡ self.old.hash }
    {
        self.ends.keep(coin, end);
    }
}

// Lets go where walks ended, where the tree that is sealed with this root is the first with it, and a block has it.
fn seal_ends(ends: &mut Ends, index: &HashMap<[u8; 32], usize>, root: [u8; 32])
    ensures roots { ends.new.roots.items ≡ ends.old.roots.items }
    ensures keeps { (dig : List ℕ → List ℕ) (sealed : List (List Entry)) (tree : List Entry)
        → KeepsEnds dig sealed ends.old → root ≡ root_of dig tree
        → (is_some (get bytes_eq index.now root) ≡ true → is_some (tree_of dig sealed root) ≡ true)
        → KeepsEnds dig (sealed ++ tree ∷ []) ends.new }
{
    if index.contains_key(&root) {
        return;
    }
    ends.seal(&root);
}

// Adds a root's place to an index with room, where the index has none for it.
#[tactic(auto, using(crate::proofs::Places::root_known, crate::proofs::Places::root_added))]
fn index_root(index: &mut HashMap<[u8; 32], usize>, root: [u8; 32], place: usize)
    requires { 0 < spare index.old }
    ensures { (other : List ℕ) → get bytes_eq index.new other
        ≡ with_place root place other (get bytes_eq index.old other) }
{
    if index.contains_key(&root) {
        return;
    }
    if index.insert(root, place).is_err() {
        unreachable!()
    }
}

// The tree at a place.
fn tree_at<H: Hash32 + Copy>(trees: &[SharedTree<H>], place: usize) -> Option<&SharedTree<H>>
    ensures { option_map (λ tree. tree.now) result ≡ slice_get trees.now place }
{
    trees.get(place)
}

/// The leaf of a coin in a tree, lent, which is empty where the coin has none.
pub fn leaf_in<H: Hash32 + Copy>(tree: &SharedTree<H>, coin: u64) -> &[u8]
    ensures { result.now ≡ leaf_of tree.now.entries coin }
{
    match tree.leaf(coin) {
        Some(leaf) => leaf,
        None => &[],
    }
}

// Whether a tree has a leaf of the coin, and a root that the log doesn't commit.
fn is_outside<H: Hash32 + Copy>(tree: &SharedTree<H>, coin: u64, log: &RootLog) -> bool
    ensures { result ≡ is_outside log.now.log coin (H.digest_of tree.now.hash) tree.now.entries }
{
    !leaf_in(tree, coin).is_empty() && !log.commits(tree.root())
}

// Whether one of the trees is so.
fn any_outside<H: Hash32 + Copy>(trees: &[SharedTree<H>], coin: u64, log: &RootLog) -> bool
    ensures { result
        ≡ list_any (λ tree. is_outside log.now.log coin (H.digest_of tree.hash) tree.entries) trees.now }
{
    trees.iter().any(|tree| is_outside(tree, coin, log))
}
