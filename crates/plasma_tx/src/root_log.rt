ghost use Rattle.std.specs.Prelude.{◌≡◌, ◌<◌, ◌^◌, ◌∷◌, [], ℕ, IfOk, OnOk, OnErr, reverse};
ghost use Rattle.std.specs.Ordering.{nat_cmp};
ghost use Rattle.std.specs.BTreeSet.{contains, IsOrdered};
ghost use Rattle.plasma_tx.specs.Chain.{with_log};
ghost use Rattle.sparse_merkle.specs.TreeDigest.{AreDefaults};
ghost use Rattle.plasma_tx.specs.Keeps.{item_at};
ghost use Rattle.plasma_tx.specs.Openings.{HasOpeningLength, opening_in};
ghost use Rattle.plasma_tx.specs.Shown.{opens_root};
ghost use Rattle.plasma_tx.specs.Transfer.{is_signed_by};
ghost use Rattle.plasma_tx.specs.Views.{now, blocks, coins, block_at, coin_at, is_withdrawn, exits_of, is_exiting, is_root_committed, deposits_of};

use super::call::RootCall;
use super::deposits::deposits_in;
use super::exits::push_reserved;
use super::kept::Kept;
use super::opening::RawOpening;
use super::opening_tests::OpeningTests;
use super::owner::Owner;
use super::signatures::Signatures;
use super::signed_tx::SignedTx;
use super::views::{BlockView, CoinView, ExitView};
use plasma_base::{Hash32, NoMemory};
use std::alloc::Global;
use std::collections::BTreeSet;
use std::marker::Model;

/// The log of a root contract: what it was made with, and the accepted calls in order. Beside them it
/// keeps what they say, for every list of calls, also one that no contract accepted, and the signatures
/// and openings that were tested for those who read it, of which callers see nothing.
#[derive(Drop)]
pub struct RootLog {
    tag: [u8; 32],
    operator: u64,
    most_blocks: u64,
    events: Vec<RootCall>,
    kept: Kept,
    signatures: Signatures,
    opening_tests: OpeningTests,
}

impl Model for RootLog {
    ghost use Rattle.plasma_tx.specs.Chain.{Chain};

    ghost Value = { Chain };

    ghost use Rattle.std.specs.Prelude.{reverse};
    ghost use Rattle.plasma_tx.specs.Keeps.{Keeps};

    ghost view = { λ a. record {
      tag = a.tag;
      operator = a.operator;
      most_blocks = a.most_blocks;
      log = reverse a.events.items;
    } };

    ghost invariant = { λ a. Keeps (reverse a.events.items) a.kept };
}

impl RootLog {
    /// A log without calls of the chain with this tag, this operator's account and at most so many
    /// blocks. It takes no memory.
    pub fn make(alloc: Global, tag: [u8; 32], operator: u64, most_blocks: u64) -> RootLog
        ensures { result ≡ record { tag = tag; operator = operator; most_blocks = most_blocks; log = [] } }
    {
        RootLog {
            tag,
            operator,
            most_blocks,
            events: Vec::new(alloc),
            kept: Kept::new(alloc),
            signatures: Signatures::new(alloc),
            opening_tests: OpeningTests::new(alloc),
        }
    }

    /// Appends a call, which is taken at its word. `NoMemory` leaves the log as it was.
    pub fn push(&mut self, call: RootCall) -> Result<(), NoMemory>
        ensures ok { OnOk result (self.new ≡ with_log self.old (call ∷ self.old.log)) }
        ensures err { OnErr result (self.new ≡ self.old) }
    {
        self.events.reserve(1)?;
        self.kept.apply(&call)?;
        push_reserved(&mut self.events, call);
        Ok(())
    }

    /// The calls in order, the oldest first.
    pub fn events(&self) -> &[RootCall]
        ensures { result.now ≡ reverse self.now.log }
    {
        self.events.as_slice()
    }

    /// The chain's tag.
    pub fn tag(&self) -> [u8; 32]
        ensures { result ≡ self.now.tag }
    {
        self.tag
    }

    /// The operator's account.
    pub fn operator(&self) -> u64
        ensures { result ≡ self.now.operator }
    {
        self.operator
    }

    /// The most blocks that the contract takes.
    pub fn most_blocks(&self) -> u64
        ensures { result ≡ self.now.most_blocks }
    {
        self.most_blocks
    }

    /// The number of blocks: each Deposit and each Commit made one.
    pub fn blocks(&self) -> u64
        ensures is { result ≡ blocks self.now.log }
        ensures limit { result < 2 ^ 63 }
    {
        self.kept.blocks.len() as u64
    }

    /// The number of coins: each Deposit made one.
    pub fn coins(&self) -> u64
        ensures is { result ≡ coins self.now.log }
        ensures limit { result < 2 ^ 63 }
    {
        self.kept.coins.len() as u64
    }

    /// Block `n`, counted from 1; `None` exactly where there is no such block.
    pub fn block(&self, n: u64) -> Option<BlockView>
        ensures { result ≡ block_at self.now.log n }
    {
        item_at(&self.kept.blocks, n)
    }

    /// Coin `c`, counted from 1; `None` exactly where there is no such coin.
    pub fn coin(&self, c: u64) -> Option<CoinView>
        ensures { result ≡ coin_at self.now.log c }
    {
        item_at(&self.kept.coins, c)
    }

    /// The clock in seconds: the time of the last Tick, or 0.
    pub fn now(&self) -> u64
        ensures { result ≡ now self.now.log }
    {
        self.kept.clock
    }

    /// Whether coin `c` is withdrawn: there was a Finish of it whose exit had no open challenge.
    pub fn withdrawn(&self, c: u64) -> bool
        ensures { result ≡ is_withdrawn self.now.log c }
    {
        match self.kept.states.state(c) {
            None => false,
            Some(state) => state.is_withdrawn(),
        }
    }

    /// The standing exits of the coin, in the order of their starts; empty exactly where none stands.
    /// It takes no memory.
    pub fn exits(&self, coin: u64) -> &[ExitView]
        ensures { result.now ≡ exits_of self.now.log coin }
    {
        match self.kept.states.state(coin) {
            None => &[],
            Some(state) => state.exits(),
        }
    }

    /// The coins of which an exit stands, rising. It takes no memory. In a log that no contract accepted
    /// there may be ones that no Deposit made.
    pub fn exiting(&self) -> &BTreeSet<u64>
        ensures exactly { (c : ℕ) → contains nat_cmp result.now c ≡ is_exiting self.now.log c }
        ensures rising { IsOrdered nat_cmp result.now }
    {
        &self.kept.exiting
    }

    /// The coins that an account deposited, rising; none exactly where it deposited none. It takes no memory.
    pub fn deposits(&self, account: u64) -> &[u64]
        ensures { result.now ≡ deposits_of self.now.log account }
    {
        deposits_in(&self.kept.deposits, account)
    }

    /// Whether a block has this root.
    pub fn commits(&self, root: &[u8; 32]) -> bool
        ensures { result ≡ is_root_committed self.now.log root.now }
    {
        self.kept.roots.contains(root)
    }

    /// Whether the owner signed the transfer. What a test found is remembered beside the log, for at most
    /// 8,192 signatures in 24 MB at most, so that a transfer isn't tested anew in each history that has it.
    /// Where there is no memory it tests again.
    pub fn signed_by(&self, tx: &SignedTx, owner: &Owner) -> bool
        ensures { result ≡ is_signed_by tx.now owner.now }
    {
        self.signatures.signed_by(tx, owner)
    }

    /// Whether the opening is read and opens the root at the coin, where the caller has the defaults of levels 0 to 63
    /// already. What a test under SHA-256 found is remembered beside the log, so that an opening isn't tested anew in
    /// each history that has it: for at most 8,192 openings of at most 3,000 bytes, in 27 MB, and for 256 of at most
    /// 68,000, in 18 MB. Where there is no memory for that it tests again; `NoMemory` is of the test, and comes only
    /// where the bytes are as long as an opening.
    pub fn opens<H: Hash32>(
        &self,
        h: &H,
        defaults: &[[u8; 32]; 64],
        root: &[u8; 32],
        coin: u64,
        opening: &RawOpening,
    ) -> Result<bool, NoMemory>
        requires { AreDefaults (H.digest_of h.now) defaults.now }
        ensures opens { IfOk result (λ opens. opens
            ≡ opens_root (H.digest_of h.now) root.now coin (opening_in (H.digest_of h.now) opening.now)) }
        ensures memory { OnErr result (HasOpeningLength opening.now.bytes) }
    {
        let alloc = *self.events.allocator();
        self.opening_tests
            .opens(alloc, h, defaults, root, coin, opening)
    }

    /// As `exits`, as values of their own.
    pub fn standing(&self, c: u64) -> Result<Vec<ExitView>, NoMemory>
        ensures { IfOk result (λ exits. exits.items ≡ exits_of self.now.log c) }
    {
        copies(*self.events.allocator(), self.exits(c))
    }
}

/// Item `n`, counted from 1.
fn item_at<T: Copy>(items: &[T], n: u64) -> Option<T>
    ensures { result ≡ item_at items.now n }
{
    if n == 0 || n > items.len() as u64 {
        return None;
    }
    Some(items[n as usize - 1])
}

/// Equal exits.
fn copies(alloc: Global, exits: &[ExitView]) -> Result<Vec<ExitView>, NoMemory>
    ensures { IfOk result (λ copied. copied.items ≡ exits.now) }
{
    let mut copied = Vec::with_capacity(alloc, exits.len())?;
    for exit in exits {
        copied.push(exit.copy()?)?;
    }
    Ok(copied)
}
