ghost use Rattle.std.specs.Prelude.{◌≡◌, ◌^◌, ◌<◌, ◌≤◌, Some, IfSome};
ghost use Rattle.std.specs.Option.{option_copied, option_map};
ghost use Rattle.plasma_tx.specs.Views.{now, blocks, coins, coin_at, exit_at, challenge_at, has_no_open_challenge, is_withdrawn};
ghost use Rattle.plasma_tx.specs.Shown.{rules_of, root_at};
ghost use Rattle.plasma_tx.specs.Money.{balance_of, funded};
ghost use Rattle.plasma_tx.specs.Table.{is_key, is_full, is_committed_between, is_committed_after, is_over, is_parent_of, is_before_parent};
ghost use Rattle.root_contract.specs.Exits.{as_challenge, as_exit, IsDated};

use super::contract::Contract;
use exit_game::{Challenge, Slot};
use lms_sign::PublicKey;
use plasma_tx::{BlockView, CoinView, EXIT_PERIOD, LAST_TIME, MOST_MONEY, Shown};

// What the log, the game and the ledger say, for those that judge a call.
impl Contract {
    pub(crate) fn clock(&self) -> u64
        ensures is { result ≡ now self.now.log }
        ensures limit { result ≤ LAST_TIME }
    {
        self.log.now()
    }

    pub(crate) fn funded(&self) -> u64
        ensures is { result ≡ funded self.now.log }
        ensures limit { result ≤ MOST_MONEY }
    {
        self.ledger.funded()
    }

    pub(crate) fn block_count(&self) -> u64
        ensures is { result ≡ blocks self.now.log }
        ensures limit { result < 2 ^ 63 }
    {
        self.log.blocks()
    }

    pub(crate) fn coin_count(&self) -> u64
        ensures is { result ≡ coins self.now.log }
        ensures limit { result < 2 ^ 63 }
    {
        self.log.coins()
    }

    pub(crate) fn coin_at(&self, coin: u64) -> Option<CoinView>
        ensures { result ≡ coin_at self.now.log coin }
    {
        self.log.coin(coin)
    }

    pub(crate) fn is_withdrawn(&self, coin: u64) -> bool
        ensures { result ≡ is_withdrawn self.now.log coin }
    {
        self.log.withdrawn(coin)
    }

    // The root of a block that was committed.
    pub(crate) fn root_at(&self, block: u64) -> Option<[u8; 32]>
        ensures { result ≡ root_at self.now.log block }
    {
        match self.log.block(block)? {
            BlockView::Root { root } => Some(root),
            BlockView::DepositOf { coin: _ } => None,
        }
    }

    pub(crate) fn exit_at(&self, coin: u64, block: u64) -> Option<&Slot>
        ensures is { option_map as_exit (option_copied result) ≡ exit_at self.now.log coin block }
        ensures dated { IfSome result (λ slot. IsDated slot.now) }
    {
        self.game.slot(coin, block)
    }

    pub(crate) fn is_full(&self) -> bool
        ensures { result ≡ is_full (rules_of self.now) self.now.log }
    {
        self.log.most_blocks() <= self.block_count()
    }

    pub(crate) fn is_committed_between(&self, low: u64, high: u64, block: u64) -> bool
        ensures { result ≡ is_committed_between self.now.log low high block }
    {
        self.root_at(block).is_some() && low < block && block < high
    }

    pub(crate) fn is_committed_after(&self, low: u64, block: u64) -> bool
        ensures { result ≡ is_committed_after self.now.log low block }
    {
        self.root_at(block).is_some() && low < block
    }

    // Whether a window that was opened at a time, and is so many seconds long, is over.
    pub(crate) fn is_over(&self, time: u64, window: u64) -> bool
        requires time { time ≤ LAST_TIME }
        requires window { window ≤ EXIT_PERIOD }
        ensures { result ≡ is_over self.now.log time window }
    {
        time + window <= self.clock()
    }

    // Whether what is shown may be the parent of an exit of the coin at the block.
    pub(crate) fn is_parent_of(&self, made: &CoinView, exit_block: u64, parent: &Shown) -> bool
        ensures { result ≡ is_parent_of self.now.log made.now exit_block parent.now }
    {
        match parent {
            Shown::Deposit { block } => *block == made.deposit,
            Shown::Spend { opening } => {
                self.is_committed_between(made.deposit, exit_block, opening.block)
            }
        }
    }

    // Whether what is shown may challenge an exit of the coin whose parent is at the block.
    pub(crate) fn is_before_parent(&self, coin: u64, slot: &Slot, shown: &Shown) -> bool
        ensures { result
            ≡ is_before_parent self.now.log (coin_at self.now.log coin) (as_exit slot.now) shown.now }
    {
        let Some(made) = self.coin_at(coin) else {
            return false;
        };
        match shown {
            Shown::Deposit { block } => *block == made.deposit && made.deposit < slot.parent,
            Shown::Spend { opening } => {
                self.is_committed_between(made.deposit, slot.parent, opening.block)
            }
        }
    }
}

// Whether a key reads.
pub fn is_key(key: &[u8; 56]) -> bool
    ensures { result ≡ is_key key.now }
{
    PublicKey::read(key).is_ok()
}

// The challenge of an exit at the block.
pub fn challenge_at(slot: &Slot, block: u64) -> Option<Challenge>
    requires { IsDated slot.now }
    ensures is { option_map as_challenge result ≡ challenge_at block (as_exit slot.now).challenges }
    ensures dated { IfSome result (λ challenge. challenge.at ≤ LAST_TIME) }
{
    slot.challenges.at(block)
}

// Whether no challenge of an exit is open.
pub fn has_no_open_challenge(slot: &Slot) -> bool
    ensures { result ≡ has_no_open_challenge (Some (as_exit slot.now)) }
{
    slot.challenges.are_answered()
}
