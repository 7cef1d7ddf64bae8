ghost use Rattle.std.specs.Prelude.{◌≡◌, IfOk};
ghost use Rattle.coin_verdicts.specs.Facts.{has};

use plasma_base::NoMemory;
use plasma_tx::Owner;
use std::alloc::Global;
use std::marker::Model;

/// What verdicts need to know of a line of a run. Nodes have the numbers of the world: the operator is 0, and
/// those that are declared follow in order.
#[derive(Drop)]
pub enum Fact {
    /// This wallet was declared, which is this owner.
    Declares {
        wallet: u64,
        owner: KeptOwner,
    },
    /// An accepted deposit made this coin in this block, to this owner.
    Deposits {
        coin: u64,
        block: u64,
        owner: KeptOwner,
    },
    /// An accepted tick met a deadline of each of these coins, and of no other.
    Ticks {
        met: Numbers,
    },
    /// An accepted `after`, `between` or `finish` ended the standing exit of the coin at the block, which this account
    /// had started. It was paid, or not.
    Ends {
        coin: u64,
        block: u64,
        account: u64,
        paid: bool,
    },
    /// Any other call was accepted.
    Joins,
    /// A wallet accepted a bundle of this coin and this tip.
    Accepts {
        wallet: u64,
        coin: u64,
        tip: u64,
    },
    /// A watcher guards the coin at the tip.
    Guards {
        watcher: u64,
        coin: u64,
        tip: u64,
    },
    /// A watcher let the coin at the tip go.
    Releases {
        watcher: u64,
        coin: u64,
        tip: u64,
    },
    /// The next leaf of a wallet's key binds a transfer of the coin from this parent.
    Binds {
        wallet: u64,
        coin: u64,
        parent: u64,
    },
    /// A wallet took back what this leaf binds.
    TakesBack {
        wallet: u64,
        leaf: u32,
    },
    /// A node watched, and offers calls of each of these coins, and of no other.
    Watches {
        node: u64,
        coins: Numbers,
    },
    /// Any other command of a node.
    Other {
        node: u64,
    },
    /// Any other line.
    Idle,
}

/// An owner in memory of its own, since a fact is kept of each line, and few have an owner. Contracts see the owner.
#[derive(Drop)]
pub struct KeptOwner {
    owner: Box<Owner>,
}

impl Model for KeptOwner {
    ghost use Rattle.plasma_tx.specs.declared.owner.Owner.{Owner};

    ghost Value = { Owner };

    ghost view = { λ k. k.owner.value };
}

impl KeptOwner {
    /// Keeps an owner.
    pub fn new(alloc: Global, owner: Owner) -> Result<KeptOwner, NoMemory>
        ensures { IfOk result (λ kept. kept ≡ owner) }
    {
        Ok(KeptOwner {
            owner: Box::new(alloc, owner)?,
        })
    }

    /// The owner.
    pub fn get(&self) -> Owner
        ensures { result ≡ self.now }
    {
        *self.owner
    }
}

/// Numbers, which contracts see as a list.
#[derive(Drop)]
pub struct Numbers {
    items: Vec<u64>,
}

impl Model for Numbers {
    ghost use Rattle.std.specs.Prelude.{List, ℕ};

    ghost Value = { List ℕ };

    ghost view = { λ n. n.items.items };
}

impl Numbers {
    /// The numbers of a vector. It takes no memory.
    pub fn from_vec(items: Vec<u64>) -> Numbers
        ensures { result ≡ items.items }
    {
        Numbers { items }
    }

    /// The numbers, lent.
    pub fn as_slice(&self) -> &[u64]
        ensures { result.now ≡ self.now }
    {
        self.items.as_slice()
    }

    /// Equal numbers, or `NoMemory`.
    pub fn copy(&self, alloc: Global) -> Result<Numbers, NoMemory>
        ensures { IfOk result (λ copied. copied ≡ self.now) }
    {
        Ok(Numbers {
            items: Vec::from_slice(alloc, &self.items)?,
        })
    }

    /// Whether the number is one of them.
    pub(crate) fn has(&self, number: u64) -> bool
        ensures { result ≡ has self.now number }
    {
        self.items.iter().any(|item| *item == number)
    }
}
