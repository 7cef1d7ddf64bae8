ghost use Rattle.std.specs.Prelude.{◌≡◌, ◌<◌, ◌^◌, [], find, length, OnOk, OnErr, IfOk};
ghost use Rattle.std.specs.Option.{option_map_or};
ghost use Rattle.std.specs.Ordering.{nat_cmp};
ghost use Rattle.std.specs.BTreeSet.{insert_key};
ghost use Rattle.wallet_core.specs.State.{state_of};
ghost use Rattle.wallet_node.specs.Inside.{changed, undone, is_kept_at};

use super::change::Change;
use super::kept_coins::KeptCoins;
use node_rules::KeptCoin;
use plasma_base::NoMemory;
use plasma_tx::{Link, Owner, RootLog};
use std::alloc::Global;
use std::marker::Model;
use std::mem;
use wallet_core::{CoinState, CoinTip, LeafNumbers, LeafRecord, Notes, Tips, state};

// What a wallet keeps of its notes in memory.
#[derive(Drop)]
pub struct Memory {
    noted: Notes,
    kept: KeptCoins,
}

impl Model for Memory {
    ghost use Rattle.wallet_node.specs.Inside.{MemoryState};

    ghost Value = { MemoryState };

    ghost view = { λ m. record { noted = m.noted; kept = m.kept } };
}

// How a change is taken back that was just taken over.
#[derive(Drop)]
pub enum Undo {
    // the coin that was taken up last is forgotten
    Coin,
    // the coin that was left with last is forgotten
    Leaving,
    // these leaves were taken back before
    Reclaimed { numbers: LeafNumbers },
}

impl Memory {
    // That of no notes.
    pub fn new(alloc: Global, me: Owner) -> Memory
        ensures { result ≡ record {
          noted = record { me = me; accepted = []; leaving = []; reclaimed = [] };
          kept = [];
        } }
    {
        Memory {
            noted: Notes {
                me,
                accepted: Tips::new(alloc),
                leaving: Tips::new(alloc),
                reclaimed: LeafNumbers::new(alloc),
            },
            kept: KeptCoins::new(alloc),
        }
    }

    // What a coin's state asks for.
    pub fn noted(&self) -> &Notes
        ensures { result.now ≡ self.now.noted }
    {
        &self.noted
    }

    // What a coin is to the wallet, whose leaves' numbers have 32 bits.
    pub fn state(&self, leaves: &[LeafRecord], log: &RootLog, coin: u64) -> CoinState
        requires { length leaves.now < 2 ^ 32 }
        ensures { result ≡ state_of self.now.noted leaves.now log.now.log coin }
    {
        state(&self.noted, leaves, log, coin)
    }

    // The links of the first that was taken up of the coin with this tip; none where there is none.
    pub fn spends_at(&self, coin: u64, tip: u64) -> &[Link]
        ensures { result.now ≡ option_map_or (λ kept. kept.spends) (find (is_kept_at coin tip) self.now.kept) [] }
    {
        self.kept.spends_at(coin, tip)
    }

    // A coin is taken up.
    fn take_up(&mut self, coin: KeptCoin) -> Result<(), NoMemory>
        ensures ok { OnOk result (self.new ≡ changed (Change.Accepts coin) self.old) }
        ensures err { OnErr result (self.new ≡ self.old) }
    {
        let noted = CoinTip {
            coin: coin.coin,
            tip: coin.tip,
        };
        self.kept.add(coin)?;
        let pushed = self.noted.accepted.push(noted);
        if pushed.is_err() {
            self.kept.pop();
        }
        pushed
    }

    // A coin is left with.
    fn leave(&mut self, coin: u64, tip: u64) -> Result<(), NoMemory>
        ensures ok { OnOk result (self.new ≡ changed (Change.LeavesWith coin tip) self.old) }
        ensures err { OnErr result (self.new ≡ self.old) }
    {
        self.noted.leaving.push(CoinTip { coin, tip })?;
        Ok(())
    }

    // Takes a change over.
    pub fn take_over(&mut self, change: Change) -> Result<(), NoMemory>
        ensures { OnOk result (self.new ≡ changed change self.old) }
    {
        match change {
            Change::Accepts { coin } => self.take_up(coin),
            Change::LeavesWith { coin, tip } => self.leave(coin, tip),
            Change::Reclaims { q, .. } => self.noted.reclaimed.insert(q),
        }
    }

    // A leaf is taken back; those that were before.
    fn take_back(&mut self, q: u32) -> Result<LeafNumbers, NoMemory>
        ensures ok { IfOk result (λ numbers. self.new ≡ record self.old {
          noted = record self.old.noted { reclaimed = insert_key nat_cmp self.old.noted.reclaimed q };
        }) }
        ensures before { IfOk result (λ numbers. numbers ≡ self.old.noted.reclaimed) }
        ensures err { OnErr result (self.new ≡ self.old) }
    {
        let with = self.noted.reclaimed.with(q)?;
        Ok(mem::replace(&mut self.noted.reclaimed, with))
    }

    // Takes a change over, and says how it is taken back.
    pub fn try_over(&mut self, change: Change) -> Result<Undo, NoMemory>
        ensures ok { OnOk result (self.new ≡ changed change self.old) }
        ensures back { IfOk result (λ undo. undone undo self.new ≡ self.old) }
        ensures err { OnErr result (self.new ≡ self.old) }
    {
        match change {
            Change::Accepts { coin } => {
                self.take_up(coin)?;
                Ok(Undo::Coin)
            }
            Change::LeavesWith { coin, tip } => {
                self.leave(coin, tip)?;
                Ok(Undo::Leaving)
            }
            Change::Reclaims { q, .. } => {
                let numbers = self.take_back(q)?;
                Ok(Undo::Reclaimed { numbers })
            }
        }
    }

    // Takes a change back that was just taken over.
    pub fn undo(&mut self, undo: Undo)
        ensures { self.new ≡ undone undo self.old }
    {
        match undo {
            Undo::Coin => {
                self.noted.accepted.pop();
                self.kept.pop();
            }
            Undo::Leaving => self.noted.leaving.pop(),
            Undo::Reclaimed { numbers } => {
                self.noted.reclaimed = numbers;
            }
        }
    }
}
