ghost use Rattle.std.specs.Prelude.{◌≡◌, ◌-◌, ◌++◌, ◌∷◌, [], length, take, map, OnOk, OnErr};
ghost use Rattle.std.specs.List.{list_all};
ghost use Rattle.exit_game.specs.Challenges.{answered_at, challenge_at};

use plasma_base::NoMemory;
use plasma_tx::Owner;
use std::alloc::Global;
use std::marker::Model;

/// A challenge of an exit at a block: who owned the coin after that block, the account that made it, when
/// it was made, in seconds, and whether it is answered.
#[derive(Clone, Copy, PartialEq, Eq)]
pub struct Challenge {
    pub block: u64,
    pub owner: Owner,
    pub by: u64,
    pub at: u64,
    pub answered: bool,
}

/// Challenges in the order in which they were made, which contracts see as a list.
#[derive(Drop)]
pub struct Challenges {
    items: Vec<Challenge>,
}

impl Model for Challenges {
    ghost use Rattle.std.specs.Prelude.{List};
    ghost use Rattle.exit_game.specs.declared.challenges.Challenge.{Challenge};

    ghost Value = { List Challenge };

    ghost view = { λ c. c.items.items };
}

impl Challenges {
    /// No challenge. It takes no memory.
    pub fn new(alloc: Global) -> Challenges
        ensures { result ≡ [] }
    {
        Challenges {
            items: Vec::new(alloc),
        }
    }

    /// The challenges of a vector, in its order. It takes no memory.
    pub fn from_vec(items: Vec<Challenge>) -> Challenges
        ensures { result ≡ items.items }
    {
        Challenges { items }
    }

    /// The challenges, lent.
    pub fn as_slice(&self) -> &[Challenge]
        ensures { result.now ≡ self.now }
    {
        self.items.as_slice()
    }

    /// The challenge at the block; `None` exactly where there is none. It takes no memory.
    pub fn at(&self, block: u64) -> Option<Challenge>
        ensures { result ≡ challenge_at block self.now }
    {
        self.items
            .iter()
            .copied()
            .find(|challenge| challenge.block == block)
    }

    /// Whether each is answered. It takes no memory.
    pub fn are_answered(&self) -> bool
        ensures { result ≡ list_all (λ challenge. challenge.answered) self.now }
    {
        self.items.iter().all(|challenge| challenge.answered)
    }

    // Adds a challenge. `NoMemory` changes nothing.
    pub(crate) fn push(&mut self, challenge: Challenge) -> Result<(), NoMemory>
        ensures ok { OnOk result (self.new ≡ self.old ++ challenge ∷ []) }
        ensures err { OnErr result (self.new ≡ self.old) }
    {
        self.items.push(challenge)?;
        Ok(())
    }

    // Answers the challenge at the block.
    pub(crate) fn answer(&mut self, block: u64)
        ensures { self.new ≡ map (answered_at block) self.old }
    {
        answer_all(&mut self.items, block);
    }

    // Takes the last challenge back; where there is none, nothing changes.
    pub(crate) fn take_back(&mut self)
        ensures { self.new ≡ take (length self.old - 1) self.old }
    {
        let _ = self.items.pop();
    }
}

// Answers each challenge at the block.
fn answer_all(challenges: &mut Vec<Challenge>, block: u64)
    ensures { challenges.new.items ≡ map (answered_at block) challenges.old.items }
{
    for challenge in challenges.iter_mut() {
        if challenge.block == block {
            challenge.answered = true;
        }
    }
}
