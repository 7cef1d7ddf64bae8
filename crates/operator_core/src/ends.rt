ghost use Rattle.std.specs.Prelude.{◌≡◌, ◌≢◌, ◌<◌, ◌≤◌, ◌++◌, ◌∷◌, [], ℕ, List, true, false, length, get_or, None, Some, IfSome};
ghost use Rattle.sparse_merkle.specs.declared.tree.Entry.{Entry};
ghost use Rattle.sparse_merkle.specs.TreeDigest.{root_of};
ghost use Rattle.plasma_tx.specs.Shown.{root_at};
ghost use Rattle.operator_core.specs.Walked.{Follows, IsEnd, IsOnWay, KeepsEnds};

use plasma_tx::{BlockView, CoinView, Owner, RootLog};
use std::alloc::Global;
use std::collections::BTreeMap;

/// A block that a coin came to, and its owner there.
#[derive(Clone, Copy)]
pub struct Tip {
    pub block: u64,
    pub owner: Owner,
}

/// Where a walk ended: the chain's tag, the coin as it was made, how many blocks it went over, and the tip there.
#[derive(Clone, Copy)]
pub struct End {
    pub tag: [u8; 32],
    pub made: CoinView,
    pub upto: u64,
    pub tip: Tip,
}

/// The roots of a log's first blocks, and by coin where the last walk over them ended. A call may be given any
/// log: what is kept serves a log whose first blocks have these roots.
#[derive(Drop)]
pub struct Ends {
    pub roots: Vec<Option<[u8; 32]>>,
    pub ends: BTreeMap<u64, End>,
}

/// The root of block n, where it was committed.
pub fn root_at(log: &RootLog, n: u64) -> Option<[u8; 32]>
    ensures { result ≡ root_at log.now.log n }
{
    match log.block(n) {
        Some(BlockView::Root { root }) => Some(root),
        _ => None,
    }
}

// Whether they aren't the same.
fn are_apart(one: Option<[u8; 32]>, other: Option<[u8; 32]>) -> bool
    ensures { result ≡ false → one ≡ other }
{
    match (one, other) {
        (Some(one), Some(other)) => one != other,
        (None, None) => false,
        _ => true,
    }
}

// Whether the log's first blocks have these roots.
fn are_followed(log: &RootLog, roots: &[Option<[u8; 32]>]) -> bool
    ensures { result ≡ true → Follows log.now.log roots.now }
{
    'way: for i in 0..roots.len() {
        if are_apart(root_at(log, i as u64 + 1), roots[i]) {
            return false;
        }
    }
    true
}

// Whether it is this root.
fn is_root(one: Option<[u8; 32]>, root: &[u8; 32]) -> bool
    ensures { result ≡ false → one ≢ Some root.now }
{
    match one {
        Some(one) => one == *root,
        None => false,
    }
}

// Whether this is one of the roots.
fn is_among(root: &[u8; 32], roots: &[Option<[u8; 32]>]) -> bool
    ensures { result ≡ false → (m : ℕ) → m < length roots.now → get_or roots.now m None ≢ Some root.now }
{
    'way: for i in 0..roots.len() {
        if is_root(roots[i], root) {
            return true;
        }
    }
    false
}

// Whether there was no memory for the root of one more block.
fn is_full_for(ends: &mut Ends, root: Option<[u8; 32]>) -> bool
    ensures ends { ends.new.ends ≡ ends.old.ends }
    ensures full { result ≡ true → ends.new.roots.items ≡ ends.old.roots.items }
    ensures pushed { result ≡ false → ends.new.roots.items ≡ ends.old.roots.items ++ root ∷ [] }
{
    ends.roots.push(root).is_err()
}

// Takes the roots of the log's further blocks.
fn extend(ends: &mut Ends, log: &RootLog)
    requires { Follows log.now.log ends.old.roots.items }
    ensures follows { Follows log.now.log ends.new.roots.items }
    ensures keeps { (dig : List ℕ → List ℕ) (sealed : List (List Entry)) → KeepsEnds dig sealed ends.old
        → KeepsEnds dig sealed ends.new }
{
    let first = ends.roots.len() as u64;
    'way: for before in first..log.blocks() {
        if is_full_for(ends, root_at(log, before + 1)) {
            return;
        }
    }
}

// Whether it is of that tag and of a coin that was so made, and lies within so many blocks.
fn serves(end: &End, tag: &[u8; 32], made: &CoinView, blocks: u64) -> bool
    ensures tag { result ≡ true → end.now.tag ≡ tag.now }
    ensures made { result ≡ true → end.now.made ≡ made.now }
    ensures low { result ≡ true → made.now.deposit ≤ end.now.upto }
    ensures high { result ≡ true → end.now.upto ≤ blocks }
{
    end.tag == *tag && end.made == *made && made.deposit <= end.upto && end.upto <= blocks
}

impl Ends {
    /// Nothing is kept. It takes no memory.
    pub fn new(alloc: Global) -> Ends
        ensures { (dig : List ℕ → List ℕ) (sealed : List (List Entry)) → KeepsEnds dig sealed result }
    {
        let ends = BTreeMap::new(alloc);
        Ends {
            roots: Vec::new(alloc),
            ends,
        }
    }

    /// Whether the log's first blocks have the roots.
    pub fn is_followed(&self, log: &RootLog) -> bool
        ensures { result ≡ true → Follows log.now.log self.now.roots.items }
    {
        are_followed(log, self.roots.as_slice())
    }

    /// Takes the roots of this log's blocks, as far as there is memory. Where its first blocks have others than were
    /// taken, all that was kept is let go.
    pub fn follow(&mut self, log: &RootLog)
        ensures follows { Follows log.now.log self.new.roots.items }
        ensures keeps { (dig : List ℕ → List ℕ) (sealed : List (List Entry)) → KeepsEnds dig sealed self.old
            → KeepsEnds dig sealed self.new }
    {
        self.restart(log);
        extend(self, log);
    }

    // Lets go what was kept, where the log's first blocks have other roots.
    fn restart(&mut self, log: &RootLog)
        ensures follows { Follows log.now.log self.new.roots.items }
        ensures keeps { (dig : List ℕ → List ℕ) (sealed : List (List Entry)) → KeepsEnds dig sealed self.old
            → KeepsEnds dig sealed self.new }
    {
        if self.is_followed(log) {
            return;
        }
        self.roots.clear();
        self.ends.clear();
    }

    /// Where the last walk of the coin ended, if it serves a walk under this log with that tag and the coin so made.
    pub fn end_of(&self, log: &RootLog, tag: &[u8; 32], coin: u64, made: &CoinView) -> Option<End>
        requires { Follows log.now.log self.now.roots.items }
        ensures { (dig : List ℕ → List ℕ) (sealed : List (List Entry)) → KeepsEnds dig sealed self.now
            → IfSome result (λ end. IsOnWay dig tag.now log.now.log sealed coin made.now end) }
    {
        let end = *self.ends.get(&coin)?;
        let count = log.blocks();
        if serves(&end, tag, made, count) {
            return Some(end);
        }
        None
    }

    /// Keeps where a walk of the coin ended, where it went over blocks whose roots were taken, if there is memory.
    pub fn keep(&mut self, coin: u64, end: End)
        ensures roots { self.new.roots.items ≡ self.old.roots.items }
        ensures keeps { (dig : List ℕ → List ℕ) (sealed : List (List Entry)) → KeepsEnds dig sealed self.old
            → (end.upto ≤ length self.old.roots.items → IsEnd dig sealed self.old.roots.items coin end)
            → KeepsEnds dig sealed self.new }
    {
        if end.upto > self.roots.len() as u64 {
            return;
        }
        let _ = self.ends.insert(coin, end);
    }

    /// Lets go where walks ended, unless no block has the root of the tree that is sealed now.
    pub fn seal(&mut self, root: &[u8; 32])
        ensures roots { self.new.roots.items ≡ self.old.roots.items }
        ensures keeps { (dig : List ℕ → List ℕ) (sealed : List (List Entry)) (tree : List Entry)
            → KeepsEnds dig sealed self.old → root.now ≡ root_of dig tree
            → KeepsEnds dig (sealed ++ tree ∷ []) self.new }
    {
        if is_among(root, self.roots.as_slice()) {
            self.ends.clear();
            return;
        }
    }
}
