ghost use Rattle.std.specs.Prelude.{◌≡◌, ◌==◌, ◌||◌, ◌∷◌, ◌++◌, ◌-◌, [], ℕ, length, take, IfOk, OnOk, OnErr};
ghost use Rattle.std.specs.List.{list_any};
ghost use Rattle.std.specs.Ordering.{nat_cmp};
ghost use Rattle.std.specs.BTreeSet.{insert_key};
ghost use Rattle.wallet_core.specs.State.{greatest, noted_tips, is_noted};

use plasma_base::NoMemory;
use plasma_tx::{Body, Owner};
use std::alloc::Global;
use std::collections::BTreeSet;
use std::marker::Model;

/// A coin and a block at which its history ended when it was noted.
#[derive(Clone, Copy, PartialEq, Eq)]
pub struct CoinTip {
    pub coin: u64,
    pub tip: u64,
}

/// Coins with tips in the order in which they were noted, which contracts see as a list.
#[derive(Drop)]
pub struct Tips {
    items: Vec<CoinTip>,
}

impl Model for Tips {
    ghost use Rattle.std.specs.Prelude.{List};
    ghost use Rattle.wallet_core.specs.declared.notes.CoinTip.{CoinTip};

    ghost Value = { List CoinTip };

    ghost view = { λ t. t.items.items };
}

impl Tips {
    /// No tips. It takes no memory.
    pub fn new(alloc: Global) -> Tips
        ensures { result ≡ [] }
    {
        Tips {
            items: Vec::new(alloc),
        }
    }

    /// Adds a tip at the end. `NoMemory` changes nothing.
    pub fn push(&mut self, note: CoinTip) -> Result<(), NoMemory>
        ensures ok { OnOk result (self.new ≡ self.old ++ note ∷ []) }
        ensures err { OnErr result (self.new ≡ self.old) }
    {
        self.items.push(note)?;
        Ok(())
    }

    /// Takes the last tip away, where there is one.
    pub fn pop(&mut self)
        ensures { self.new ≡ take (length self.old - 1) self.old }
    {
        self.items.pop();
    }

    /// The tips, in the order in which they were noted.
    pub fn as_slice(&self) -> &[CoinTip]
        ensures { result.now ≡ self.now }
    {
        self.items.as_slice()
    }

    /// Whether a tip of the coin is noted at the block.
    pub fn has(&self, coin: u64, tip: u64) -> bool
        ensures { result ≡ is_noted coin tip self.now }
    {
        self.items
            .iter()
            .any(|note| note.coin == coin && note.tip == tip)
    }

    /// The greatest block of the coin's tips; `None` where it has none.
    pub(crate) fn greatest(&self, coin: u64) -> Option<u64>
        ensures { result ≡ greatest (noted_tips coin self.now) }
    {
        self.items
            .iter()
            .filter(|note| note.coin == coin)
            .map(|note| note.tip)
            .max()
    }
}

/// Numbers of leaves, which contracts see as a rising list without repetitions.
#[derive(Drop)]
pub struct LeafNumbers {
    numbers: BTreeSet<u32>,
}

impl Model for LeafNumbers {
    ghost use Rattle.std.specs.Prelude.{List, ℕ};

    ghost Value = { List ℕ };

    ghost view = { λ n. n.numbers.keys };
}

impl LeafNumbers {
    /// No numbers. It takes no memory.
    pub fn new(alloc: Global) -> LeafNumbers
        ensures { result ≡ [] }
    {
        LeafNumbers {
            numbers: BTreeSet::new(alloc),
        }
    }

    /// Whether the number is one of them.
    pub fn contains(&self, q: u32) -> bool
        ensures { result ≡ list_any (λ other. other == q) self.now }
    {
        self.numbers.contains(&q)
    }

    /// These numbers and one more, which is the same where it is one of them. `NoMemory` is its one refusal.
    pub fn with(&self, q: u32) -> Result<LeafNumbers, NoMemory>
        ensures { IfOk result (λ numbers. numbers ≡ insert_key nat_cmp self.now q) }
    {
        let mut numbers = self.numbers.clone()?;
        numbers.insert(q)?;
        Ok(LeafNumbers { numbers })
    }

    /// Adds a number, which changes nothing where it is one of them. `NoMemory` changes nothing.
    pub fn insert(&mut self, q: u32) -> Result<(), NoMemory>
        ensures ok { OnOk result (self.new ≡ insert_key nat_cmp self.old q) }
        ensures numbers { OnOk result ((n : ℕ) → list_any (λ other. other == n) self.new
            ≡ ((n == q) || list_any (λ other. other == n) self.old)) }
        ensures err { OnErr result (self.new ≡ self.old) }
    {
        self.numbers.insert(q)?;
        Ok(())
    }
}

/// What a wallet has noted.
#[derive(Drop)]
pub struct Notes {
    /// The wallet's owner.
    pub me: Owner,
    /// The coins that it accepted.
    pub accepted: Tips,
    /// The coins that it is leaving with.
    pub leaving: Tips,
    /// The leaves that it took back.
    pub reclaimed: LeafNumbers,
}

/// What a leaf of the wallet's key binds. Its number is its place, from 0.
#[derive(Clone, Copy, PartialEq, Eq)]
pub struct LeafRecord {
    pub body: Body,
}
