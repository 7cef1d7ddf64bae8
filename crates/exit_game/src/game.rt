ghost use Rattle.exit_game.specs.SlotMaps.{slots_of};
ghost use Rattle.std.specs.Prelude.{◌≡◌, ◌≤◌, ℕ, ◌==◌, ◌++◌, ◌∷◌, [], None, Some, IsSome, if◌then◌else◌, OnOk, OnErr};
ghost use Rattle.std.specs.Option.{option_copied};
ghost use Rattle.std.specs.Ordering.{nat_cmp};
ghost use Rattle.std.specs.BTreeMap.{get};
ghost use Rattle.exit_game.specs.Slots.{slot_at, without_slot, with_slot_changed, with_challenge, with_answer, without_last, IsUnchallengedAt, IsOpenAt};

use super::challenges::Challenge;
use super::slot::Slot;
use super::slots::Slots;
use plasma_base::NoMemory;
use std::alloc::Global;
use std::collections::BTreeMap;

/// The slots of all coins, found by coin and block. A slot is there from the start of its exit until it is
/// cancelled or finished.
#[derive(Drop)]
pub struct Game {
    alloc: Global,
    coins: BTreeMap<u64, Slots>,
}

impl Game {
    ghost use Rattle.exit_game.specs.Games.{slots_in, HasSlots};

    /// A game without slots. It takes no memory.
    pub fn new(alloc: Global) -> Game
        ensures { (coin : ℕ) → slots_in result coin ≡ [] }
    {
        Game {
            alloc,
            coins: BTreeMap::new(alloc),
        }
    }

    /// The slot of the coin's exit at the block, lent; `None` exactly where no such exit stands.
    pub fn slot(&self, coin: u64, block: u64) -> Option<&Slot>
        ensures { option_copied result ≡ slot_at block (slots_in self.now coin) }
    {
        self.coins.get(&coin)?.at(block)
    }

    /// Adds a slot behind the coin's others. No exit of the coin stands at its block. `NoMemory` changes
    /// nothing.
    pub fn start(&mut self, slot: Slot) -> Result<(), NoMemory>
        requires { slot_at slot.block (slots_in self.old slot.coin) ≡ None }
        ensures ok { OnOk result (HasSlots self.old self.new slot.coin (slots_in self.old slot.coin ++ slot ∷ [])) }
        ensures err { OnErr result ((coin : ℕ) → slots_in self.new coin ≡ slots_in self.old coin) }
    {
        know(&mut self.coins, self.alloc, slot.coin)?;
        match self.coins.get_mut(&slot.coin) {
            Some(slots) => slots.start(slot),
            None => unreachable!(),
        }
    }

    /// Puts a challenge last in the list of the exit's slot, which has none at that block. `NoMemory`
    /// changes nothing.
    pub fn before(&mut self, coin: u64, block: u64, challenge: Challenge) -> Result<(), NoMemory>
        requires { IsUnchallengedAt challenge.block (slot_at block (slots_in self.old coin)) }
        ensures ok { OnOk result (HasSlots self.old self.new coin
            (with_slot_changed block (with_challenge challenge) (slots_in self.old coin))) }
        ensures err { OnErr result ((c : ℕ) → slots_in self.new c ≡ slots_in self.old c) }
    {
        match self.coins.get_mut(&coin) {
            Some(slots) => slots.challenge(block, challenge),
            None => unreachable!(),
        }
    }

    /// Takes the last challenge of the exit's slot back, for a caller that put one and then couldn't go on;
    /// a slot without challenges stays as it is. It takes no memory.
    pub fn unchallenge(&mut self, coin: u64, block: u64)
        requires { IsSome (slot_at block (slots_in self.old coin)) }
        ensures { HasSlots self.old self.new coin
            (with_slot_changed block without_last (slots_in self.old coin)) }
    {
        match self.coins.get_mut(&coin) {
            Some(slots) => slots.unchallenge(block),
            None => unreachable!(),
        }
    }

    /// Makes the open challenge of the exit at the block `challenged` answered.
    pub fn respond(&mut self, coin: u64, block: u64, challenged: u64)
        requires { IsOpenAt challenged (slot_at block (slots_in self.old coin)) }
        ensures { HasSlots self.old self.new coin
            (with_slot_changed block (with_answer challenged) (slots_in self.old coin)) }
    {
        match self.coins.get_mut(&coin) {
            Some(slots) => slots.answer(block, challenged),
            None => unreachable!(),
        }
    }

    /// Takes the slot of an exit out that a later spend cancels.
    pub fn after(&mut self, coin: u64, block: u64) -> Slot
        requires { IsSome (slot_at block (slots_in self.old coin)) }
        ensures slot { slot_at block (slots_in self.old coin) ≡ Some result }
        ensures others { HasSlots self.old self.new coin (without_slot block (slots_in self.old coin)) }
    {
        self.take(coin, block)
    }

    /// Takes the slot of an exit out that a spend of its parent cancels.
    pub fn between(&mut self, coin: u64, block: u64) -> Slot
        requires { IsSome (slot_at block (slots_in self.old coin)) }
        ensures slot { slot_at block (slots_in self.old coin) ≡ Some result }
        ensures others { HasSlots self.old self.new coin (without_slot block (slots_in self.old coin)) }
    {
        self.take(coin, block)
    }

    /// Takes the slot of an exit out that is finished.
    pub fn finish(&mut self, coin: u64, block: u64) -> Slot
        requires { IsSome (slot_at block (slots_in self.old coin)) }
        ensures slot { slot_at block (slots_in self.old coin) ≡ Some result }
        ensures others { HasSlots self.old self.new coin (without_slot block (slots_in self.old coin)) }
    {
        self.take(coin, block)
    }

    // Takes the slot out.
    fn take(&mut self, coin: u64, block: u64) -> Slot
        requires { IsSome (slot_at block (slots_in self.old coin)) }
        ensures slot { slot_at block (slots_in self.old coin) ≡ Some result }
        ensures others { HasSlots self.old self.new coin (without_slot block (slots_in self.old coin)) }
    {
        match self.coins.get_mut(&coin) {
            Some(slots) => slots.take(block),
            None => unreachable!(),
        }
    }
}

// Makes the coin's entry, which has no slot where there was none.
fn know(coins: &mut BTreeMap<u64, Slots>, alloc: Global, coin: u64) -> Result<(), NoMemory>
    ensures same { (c : ℕ) → slots_of coins.new c ≡ slots_of coins.old c }
    ensures known { OnOk result (IsSome (get nat_cmp coins.new coin)) }
{
    if coins.contains_key(&coin) {
        return Ok(());
    }
    coins.insert(coin, Slots::new(alloc))?;
    Ok(())
}
