ghost use Rattle.std.specs.Prelude.{◌≡◌, ◌++◌, ◌∷◌, [], map, IfOk, OnOk, OnErr};
ghost use Rattle.std.specs.List.{list_all};
ghost use Rattle.plasma_tx.specs.ChallengeLists.{view_with_answer_at, is_challenged};

use super::owner::Owner;
use plasma_base::NoMemory;
use std::alloc::Global;
use std::marker::Model;

/// A block: the coin of its deposit, or a committed root.
#[derive(Clone, Copy, PartialEq, Eq)]
pub enum BlockView {
    DepositOf { coin: u64 },
    Root { root: [u8; 32] },
}

/// A coin: its deposit block, its amount and the depositor.
#[derive(Clone, Copy, PartialEq, Eq)]
pub struct CoinView {
    pub deposit: u64,
    pub amount: u64,
    pub owner: Owner,
}

/// A challenge of an exit at a block: when and by whom it was made, and whether it is answered.
#[derive(Clone, Copy, PartialEq, Eq)]
pub struct ChallengeView {
    pub block: u64,
    /// The time, in seconds.
    pub at: u64,
    /// The account.
    pub by: u64,
    pub answered: bool,
}

/// Challenges in the order in which they were made, which contracts see as a list.
#[derive(Drop)]
pub struct Challenges {
    items: Vec<ChallengeView>,
}

impl Model for Challenges {
    ghost use Rattle.std.specs.Prelude.{List};
    ghost use Rattle.plasma_tx.specs.declared.views.ChallengeView.{ChallengeView};

    ghost Value = { List ChallengeView };

    ghost view = { λ c. c.items.items };
}

impl Challenges {
    /// No challenge. It takes no memory.
    pub(crate) fn new(alloc: Global) -> Challenges
        ensures { result ≡ [] }
    {
        Challenges {
            items: Vec::new(alloc),
        }
    }

    /// The challenges of a vector, in its order. It takes no memory.
    pub fn from_vec(items: Vec<ChallengeView>) -> Challenges
        ensures { result ≡ items.items }
    {
        Challenges { items }
    }

    /// The challenges, lent.
    pub fn as_slice(&self) -> &[ChallengeView]
        ensures { result.now ≡ self.now }
    {
        self.items.as_slice()
    }

    /// Equal challenges, or `NoMemory`.
    pub fn copy(&self) -> Result<Challenges, NoMemory>
        ensures { IfOk result (λ copied. copied ≡ self.now) }
    {
        Ok(Challenges {
            items: Vec::from_slice(*self.items.allocator(), self.items.as_slice())?,
        })
    }

    /// Whether there is one at the block.
    pub(crate) fn has(&self, block: u64) -> bool
        ensures { result ≡ is_challenged block self.now }
    {
        self.items.iter().any(|challenge| challenge.block == block)
    }

    /// Whether all are answered.
    pub(crate) fn are_answered(&self) -> bool
        ensures { result ≡ list_all (λ challenge. challenge.answered) self.now }
    {
        self.items.iter().all(|challenge| challenge.answered)
    }

    /// Adds a challenge. `NoMemory` changes nothing.
    pub(crate) fn push(&mut self, challenge: ChallengeView) -> Result<(), NoMemory>
        ensures ok { OnOk result (self.new ≡ self.old ++ challenge ∷ []) }
        ensures err { OnErr result (self.new ≡ self.old) }
    {
        self.items.push(challenge)?;
        Ok(())
    }

    /// Answers the challenge at the block.
    pub(crate) fn answer(&mut self, block: u64)
        ensures { self.new ≡ map (view_with_answer_at block) self.old }
    {
        answer_all(&mut self.items, block);
    }
}

/// Answers each challenge at the block.
fn answer_all(challenges: &mut Vec<ChallengeView>, block: u64)
    ensures { challenges.new.items ≡ map (view_with_answer_at block) challenges.old.items }
{
    for challenge in challenges.iter_mut() {
        if challenge.block == block {
            challenge.answered = true;
        }
    }
}

/// A standing exit of a coin.
#[derive(Drop)]
pub struct ExitView {
    pub block: u64,
    /// The parent's block, 0 for an exit of the deposit.
    pub parent: u64,
    /// When it was started, in seconds.
    pub start: u64,
    /// By whom it was started.
    pub account: u64,
    pub challenges: Challenges,
}

impl ExitView {
    /// An equal exit, or `NoMemory`.
    pub fn copy(&self) -> Result<ExitView, NoMemory>
        ensures { IfOk result (λ copied. copied ≡ self.now) }
    {
        Ok(ExitView {
            block: self.block,
            parent: self.parent,
            start: self.start,
            account: self.account,
            challenges: self.challenges.copy()?,
        })
    }
}

/// A response to an exit of a coin, with the block of the challenge that it names.
#[derive(Clone, Copy, PartialEq, Eq)]
pub struct Response {
    pub coin: u64,
    pub exit: u64,
    pub block: u64,
}
