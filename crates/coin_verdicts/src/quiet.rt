ghost use Rattle.std.specs.Prelude.{◌≡◌, ◌==◌, ℕ, not, false, if◌then◌else◌, OnOk};
ghost use Rattle.coin_verdicts.specs.Facts.{has};
ghost use Rattle.coin_verdicts.specs.Notes.{stays_quiet};
ghost use Rattle.coin_verdicts.specs.Quiet.{is_quiet_at};

use super::fact::Numbers;
use plasma_base::NoMemory;
use std::alloc::Global;
use std::collections::HashMap;

/// The nodes whose last command was a watch, after which no call was accepted, each with the coins of the calls that
/// it offers.
#[derive(Drop)]
pub struct QuietNodes {
    offers: HashMap<u64, Numbers>,
}

impl QuietNodes {
    /// No nodes. It takes no memory.
    pub fn new(alloc: Global) -> QuietNodes
        ensures { (c n : ℕ) → is_quiet_at result c n ≡ false }
    {
        QuietNodes {
            offers: HashMap::new(alloc),
        }
    }

    /// A call was accepted: no node is quiet.
    pub fn clear(&mut self)
        ensures { (c n : ℕ) → is_quiet_at self.new c n ≡ false }
    {
        self.offers.clear();
    }

    /// A node had a command: it isn't quiet.
    pub fn remove(&mut self, node: u64)
        ensures { (c n : ℕ) → is_quiet_at self.new c n ≡ stays_quiet node n (is_quiet_at self.old c n) }
    {
        let _ = self.offers.remove(&node);
    }

    /// A node watched, and offers calls of these coins.
    pub fn watch(&mut self, node: u64, coins: Numbers) -> Result<(), NoMemory>
        ensures { OnOk result ((c n : ℕ) → is_quiet_at self.new c n
            ≡ (if node == n then not (has coins c) else is_quiet_at self.old c n)) }
    {
        self.offers.insert(node, coins)?;
        Ok(())
    }

    /// Whether the node is quiet and offers no call of the coin.
    pub fn is_at(&self, node: u64, coin: u64) -> bool
        ensures { result ≡ is_quiet_at self.now coin node }
    {
        match self.offers.get(&node) {
            None => false,
            Some(coins) => !coins.has(coin),
        }
    }
}
