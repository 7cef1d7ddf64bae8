ghost use Rattle.std.specs.Prelude.{◌≡◌, ◌∷◌, [], List, ℕ, true, false, OnOk, OnErr, if◌then◌else◌, ◌==◌};
ghost use Rattle.std.specs.Ordering.{nat_cmp};
ghost use Rattle.std.specs.BTreeMap.{is_at};
ghost use Rattle.std.specs.BTreeSet.{contains, IsOrdered};
ghost use Rattle.plasma_tx.specs.Views.{has_exits};
ghost use Rattle.plasma_tx.specs.Standing.{change_of, standing_after, new_exit};
ghost use Rattle.plasma_tx.specs.Keeps.{Keeps, AreExiting, standing_in};

use super::call::RootCall;
use super::coin_states::States;
use super::deposits::{Deposited, add_deposit};
use super::exits::push_reserved;
use super::owner::Owner;
use super::standing::Change;
use super::views::{BlockView, Challenges, CoinView, ExitView};
use plasma_base::NoMemory;
use std::alloc::Global;
use std::collections::{BTreeMap, BTreeSet};

/// What a log keeps beside its calls: the clock, the blocks, the coins, by coin what its exits are, the
/// coins of which an exit stands, the roots of the blocks, and by account the coins that it deposited.
#[derive(Drop)]
pub struct Kept {
    pub clock: u64,
    pub blocks: Vec<BlockView>,
    pub coins: Vec<CoinView>,
    pub states: States,
    pub exiting: BTreeSet<u64>,
    pub roots: BTreeSet<[u8; 32]>,
    pub deposits: BTreeMap<u64, Deposited>,
}

impl Kept {
    /// What is kept of no calls.
    pub fn new(alloc: Global) -> Kept
        ensures { Keeps [] result }
    {
        Kept {
            clock: 0,
            blocks: Vec::new(alloc),
            coins: Vec::new(alloc),
            states: States::new(alloc),
            exiting: BTreeSet::new(alloc),
            roots: BTreeSet::new(alloc),
            deposits: BTreeMap::new(alloc),
        }
    }

    /// Keeps one more call. `NoMemory` changes nothing that the views have.
    pub fn apply(&mut self, call: &RootCall) -> Result<(), NoMemory>
        ensures ok { OnOk result ((log : List RootCall) → Keeps log self.old → Keeps (call.now ∷ log) self.new) }
        ensures err { OnErr result ((log : List RootCall) → Keeps log self.old → Keeps log self.new) }
    {
        match call {
            RootCall::Tick { now } => {
                self.clock = *now;
                Ok(())
            }
            RootCall::Deposit {
                account,
                amount,
                key,
            } => {
                let owner = Owner {
                    account: *account,
                    key: *key,
                };
                self.deposit(*amount, owner)
            }
            RootCall::Commit { account, root } => self.commit(*account, *root),
            _ => {
                let alloc = *self.blocks.allocator();
                match change_of(alloc, self.clock, call) {
                    None => Ok(()),
                    Some((coin, change)) => {
                        change_coin(&mut self.states, &mut self.exiting, coin, change)?;
                        Ok(())
                    }
                }
            }
        }
    }

    /// Keeps a Deposit.
    fn deposit(&mut self, amount: u64, owner: Owner) -> Result<(), NoMemory>
        ensures ok { OnOk result ((log : List RootCall) → Keeps log self.old
            → Keeps (RootCall.Deposit owner.account amount owner.key ∷ log) self.new) }
        ensures err { OnErr result ((log : List RootCall) → Keeps log self.old → Keeps log self.new) }
    {
        let alloc = *self.blocks.allocator();
        self.blocks.reserve(1)?;
        self.coins.reserve(1)?;
        self.states.add()?;
        let coin = self.coins.len() as u64 + 1;
        add_deposit(&mut self.deposits, alloc, owner.account, coin)?;
        let view = CoinView {
            deposit: self.blocks.len() as u64 + 1,
            amount,
            owner,
        };
        push_reserved(&mut self.coins, view);
        push_reserved(&mut self.blocks, BlockView::DepositOf { coin });
        Ok(())
    }

    /// Keeps a Commit.
    fn commit(&mut self, account: u64, root: [u8; 32]) -> Result<(), NoMemory>
        ensures ok { OnOk result ((log : List RootCall) → Keeps log self.old
            → Keeps (RootCall.Commit account root ∷ log) self.new) }
        ensures err { OnErr result ((log : List RootCall) → Keeps log self.old → Keeps log self.new) }
    {
        self.blocks.reserve(1)?;
        self.roots.insert(root)?;
        push_reserved(&mut self.blocks, BlockView::Root { root });
        Ok(())
    }
}

/// What is kept of the coin after the change, and whether it is one of those of which an exit stands.
/// `NoMemory` changes nothing.
fn change_coin(
    states: &mut States,
    exiting: &mut BTreeSet<u64>,
    coin: u64,
    change: Change,
) -> Result<(), NoMemory>
    ensures ok { OnOk result ((c : ℕ) → standing_in states.new c
        ≡ (if c == coin then standing_after coin change (standing_in states.old coin) else standing_in states.old c)) }
    ensures err { OnErr result ((c : ℕ) → standing_in states.new c ≡ standing_in states.old c) }
    ensures exiting { AreExiting states.old exiting.old → AreExiting states.new exiting.new }
    ensures rising { IsOrdered nat_cmp exiting.new }
{
    // First, so that no memory is wanted once the state is changed.
    exiting.insert(coin)?;
    let changed = states.change(coin, change);
    let stands = has_exits(states, coin);
    keep_if(exiting, coin, stands);
    changed
}

/// Takes the coin out of those of which an exit stands, where none does.
fn keep_if(exiting: &mut BTreeSet<u64>, coin: u64, stands: bool)
    ensures coin { contains nat_cmp exiting.old coin ≡ true → contains nat_cmp exiting.new coin ≡ stands }
    ensures others { (c : ℕ) → is_at (nat_cmp coin) c ≡ false
        → contains nat_cmp exiting.new c ≡ contains nat_cmp exiting.old c }
    ensures rising { IsOrdered nat_cmp exiting.old → IsOrdered nat_cmp exiting.new }
{
    if stands {
        return;
    }
    exiting.remove(&coin);
}

/// Whether an exit of the coin is kept.
fn has_exits(states: &States, coin: u64) -> bool
    ensures { result ≡ has_exits (standing_in states.now coin).exits }
{
    match states.state(coin) {
        None => false,
        Some(state) => !state.exits().is_empty(),
    }
}

/// The coin whose exits the call changes at that time, and how; `None` where it changes none.
fn change_of(alloc: Global, time: u64, call: &RootCall) -> Option<(u64, Change)>
    ensures { result ≡ change_of time call.now }
{
    match call {
        RootCall::StartDeposit {
            account,
            coin,
            block,
        } => Some((*coin, start(alloc, *block, 0, time, *account))),
        RootCall::StartSpend {
            account,
            coin,
            parent,
            exit,
        } => Some((
            *coin,
            start(alloc, exit.block, parent.block(), time, *account),
        )),
        RootCall::After { coin, exit, .. } => Some((*coin, Change::Cancel { block: *exit })),
        RootCall::Between { coin, exit, .. } => Some((*coin, Change::Cancel { block: *exit })),
        RootCall::Before {
            account,
            coin,
            exit,
            shown,
        } => Some((
            *coin,
            Change::Challenge {
                exit: *exit,
                block: shown.block(),
                by: *account,
                at: time,
            },
        )),
        RootCall::Respond {
            coin,
            exit,
            challenged,
            ..
        } => Some((
            *coin,
            Change::Respond {
                exit: *exit,
                block: *challenged,
            },
        )),
        RootCall::Finish { coin, exit, .. } => Some((*coin, Change::Finish { block: *exit })),
        _ => None,
    }
}

/// The start of an exit.
fn start(alloc: Global, block: u64, parent: u64, time: u64, account: u64) -> Change
    ensures { result ≡ Change.Start (new_exit block parent time account) }
{
    let challenges = Challenges::new(alloc);
    Change::Start {
        exit: ExitView {
            block,
            parent,
            start: time,
            account,
            challenges,
        },
    }
}
