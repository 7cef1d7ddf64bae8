ghost use Rattle.std.specs.Prelude.{◌≡◌, ◌≤◌, ◌<◌, ◌==◌, ◌++◌, ◌∷◌, [], None, Some, IsSome, position, OnOk, OnErr};
ghost use Rattle.std.specs.Option.{option_copied};
ghost use Rattle.exit_game.specs.Slots.{AreDistinct, slot_at, without_slot, with_slot_changed, with_challenge, with_answer, without_last};

use super::challenges::Challenge;
use super::slot::Slot;
use plasma_base::NoMemory;
use std::alloc::Global;
use std::marker::Model;

// The slots of one coin, in the order of their starts, at most one at a block.
#[derive(Drop)]
pub struct Slots {
    items: Vec<Slot>,
}

impl Model for Slots {
    ghost use Rattle.std.specs.Prelude.{List};
    ghost use Rattle.exit_game.specs.declared.slot.Slot.{Slot};
    ghost use Rattle.exit_game.specs.Slots.{AreDistinct};

    ghost Value = { List Slot };

    ghost view = { λ s. s.items.items };

    ghost invariant = { λ s. AreDistinct s.items.items };
}

impl Slots {
    pub fn new(alloc: Global) -> Slots
        ensures { result ≡ [] }
    {
        Slots {
            items: Vec::new(alloc),
        }
    }

    // The slot at the block, lent.
    pub fn at(&self, block: u64) -> Option<&Slot>
        ensures { option_copied result ≡ slot_at block self.now }
    {
        self.items.iter().find(|slot| slot.block == block)
    }

    // Adds a slot at a block where none is. `NoMemory` changes nothing.
    pub fn start(&mut self, slot: Slot) -> Result<(), NoMemory>
        requires { slot_at slot.block self.old ≡ None }
        ensures ok { OnOk result (self.new ≡ self.old ++ slot ∷ []) }
        ensures err { OnErr result (self.new ≡ self.old) }
    {
        self.items.push(slot)?;
        Ok(())
    }

    // Adds a challenge to the slot at the block. `NoMemory` changes nothing.
    pub fn challenge(&mut self, block: u64, challenge: Challenge) -> Result<(), NoMemory>
        requires { IsSome (slot_at block self.old) }
        ensures ok { OnOk result (self.new ≡ with_slot_changed block (with_challenge challenge) self.old) }
        ensures err { OnErr result (self.new ≡ self.old) }
    {
        challenge_slot(&mut self.items, block, challenge)
    }

    // Answers the challenge at a block of the slot at the block.
    pub fn answer(&mut self, block: u64, challenged: u64)
        requires { IsSome (slot_at block self.old) }
        ensures { self.new ≡ with_slot_changed block (with_answer challenged) self.old }
    {
        answer_slot(&mut self.items, block, challenged);
    }

    // Takes the last challenge of the slot at the block back.
    pub fn unchallenge(&mut self, block: u64)
        requires { IsSome (slot_at block self.old) }
        ensures { self.new ≡ with_slot_changed block without_last self.old }
    {
        unchallenge_slot(&mut self.items, block);
    }

    // Takes the slot at the block out.
    pub fn take(&mut self, block: u64) -> Slot
        requires { IsSome (slot_at block self.old) }
        ensures slot { slot_at block self.old ≡ Some result }
        ensures others { self.new ≡ without_slot block self.old }
    {
        take_slot(&mut self.items, block)
    }
}

// Where the slot at the block stands.
fn place_of(slots: &[Slot], block: u64) -> Option<usize>
    ensures { result ≡ position (λ slot. slot.block == block) slots.now }
{
    slots.iter().position(|slot| slot.block == block)
}

fn challenge_slot(slots: &mut Vec<Slot>, block: u64, challenge: Challenge) -> Result<(), NoMemory>
    requires { AreDistinct slots.old.items }
    ensures ok { OnOk result (slots.new.items ≡ with_slot_changed block (with_challenge challenge) slots.old.items) }
    ensures err { OnErr result (slots.new.items ≡ slots.old.items) }
{
    let Some(place) = place_of(slots.as_slice(), block) else {
        return Ok(());
    };
    let slot = &mut slots[place];
    slot.challenges.push(challenge)?;
    Ok(())
}

fn answer_slot(slots: &mut Vec<Slot>, block: u64, challenged: u64)
    requires { AreDistinct slots.old.items }
    ensures { slots.new.items ≡ with_slot_changed block (with_answer challenged) slots.old.items }
{
    if let Some(place) = place_of(slots.as_slice(), block) {
        let slot = &mut slots[place];
        slot.challenges.answer(challenged);
    }
}

fn unchallenge_slot(slots: &mut Vec<Slot>, block: u64)
    requires { AreDistinct slots.old.items }
    ensures { slots.new.items ≡ with_slot_changed block without_last slots.old.items }
{
    if let Some(place) = place_of(slots.as_slice(), block) {
        let slot = &mut slots[place];
        slot.challenges.take_back();
    }
}

fn take_slot(slots: &mut Vec<Slot>, block: u64) -> Slot
    requires distinct { AreDistinct slots.old.items }
    requires there { IsSome (slot_at block slots.old.items) }
    ensures slot { slot_at block slots.old.items ≡ Some result }
    ensures others { slots.new.items ≡ without_slot block slots.old.items }
{
    match place_of(slots.as_slice(), block) {
        Some(place) => slots.remove(place),
        None => unreachable!(),
    }
}
