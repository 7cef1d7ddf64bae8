ghost use Rattle.std.specs.Prelude.{◌≡◌, ◌<◌, ◌≤◌, ◌+◌, ◌==◌, ℕ, Some, length, vec_len, vec_capacity, unwrap_or, IfSome, IfNone, IsSome, OnOk, OnErr, if◌then◌else◌};
ghost use Rattle.std.specs.Option.{option_copied};
ghost use Rattle.std.specs.Ordering.{nat_cmp};
ghost use Rattle.std.specs.BTreeMap.{get};
ghost use Rattle.plasma_tx.specs.Standing.{no_standing, standing_after};
ghost use Rattle.plasma_tx.specs.Keeps.{item_at, other_in, standing_in};

use super::exits::push_reserved;
use super::standing::{Change, CoinState};
use plasma_base::NoMemory;
use std::alloc::Global;
use std::collections::BTreeMap;

/// What the exits of each coin are: of a coin that a Deposit made at its place, and of others, which calls of a
/// log that no contract accepted may name, by number.
#[derive(Drop)]
pub struct States {
    pub made: Vec<CoinState>,
    pub others: BTreeMap<u64, CoinState>,
}

impl States {
    /// What is kept of no calls.
    pub fn new(alloc: Global) -> States
        ensures { (c : ℕ) → standing_in result c ≡ no_standing }
    {
        States {
            made: Vec::new(alloc),
            others: BTreeMap::new(alloc),
        }
    }

    /// Where the coin's is kept, if a Deposit made it.
    fn place(&self, coin: u64) -> Option<usize>
        ensures some { IfSome result (λ place. (place + 1 ≡ coin) × (place < length self.now.made.items)) }
        ensures none { IfNone result (item_at self.now.made.items coin ≡ None) }
    {
        if coin == 0 || coin > self.made.len() as u64 {
            return None;
        }
        Some(coin as usize - 1)
    }

    /// What is kept of the coin; `None` says nothing of it.
    pub fn state(&self, coin: u64) -> Option<&CoinState>
        ensures { unwrap_or (option_copied result) no_standing ≡ standing_in self.now coin }
    {
        match self.place(coin) {
            Some(place) => Some(&self.made[place]),
            None => self.others.get(&coin),
        }
    }

    /// Gives the next coin its place, with what calls said of it before it was made. It may want memory.
    pub fn add(&mut self) -> Result<(), NoMemory>
        ensures same { (c : ℕ) → standing_in self.new c ≡ standing_in self.old c }
    {
        let alloc = *self.made.allocator();
        self.made.reserve(1)?;
        let coin = self.made.len() as u64 + 1;
        let state = match self.others.remove(&coin) {
            Some(state) => state,
            None => CoinState::new(alloc),
        };
        push_reserved(&mut self.made, state);
        Ok(())
    }

    /// Carries the change of the coin out. `NoMemory` changes nothing.
    pub fn change(&mut self, coin: u64, change: Change) -> Result<(), NoMemory>
        ensures ok { OnOk result ((c : ℕ) → standing_in self.new c
            ≡ (if c == coin then standing_after coin change (standing_in self.old coin) else standing_in self.old c)) }
        ensures err { OnErr result ((c : ℕ) → standing_in self.new c ≡ standing_in self.old c) }
    {
        match self.place(coin) {
            Some(place) => self.made[place].apply(coin, change),
            None => {
                let alloc = *self.made.allocator();
                change_other(&mut self.others, alloc, coin, change)
            }
        }
    }
}

/// What is kept of the coin after the change. `NoMemory` changes nothing.
fn change_other(
    others: &mut BTreeMap<u64, CoinState>,
    alloc: Global,
    coin: u64,
    change: Change,
) -> Result<(), NoMemory>
    ensures ok { OnOk result ((c : ℕ) → other_in others.new c
        ≡ (if c == coin then standing_after coin change (other_in others.old coin) else other_in others.old c)) }
    ensures err { OnErr result ((c : ℕ) → other_in others.new c ≡ other_in others.old c) }
{
    know(others, alloc, coin)?;
    match others.get_mut(&coin) {
        Some(state) => state.apply(coin, change),
        None => unreachable!(),
    }
}

/// Makes the coin's entry, which says nothing where there was none.
fn know(others: &mut BTreeMap<u64, CoinState>, alloc: Global, coin: u64) -> Result<(), NoMemory>
    ensures same { (c : ℕ) → other_in others.new c ≡ other_in others.old c }
    ensures known { OnOk result (IsSome (get nat_cmp others.new coin)) }
{
    if others.contains_key(&coin) {
        return Ok(());
    }
    others.insert(coin, CoinState::new(alloc))?;
    Ok(())
}
