ghost use Rattle.std.specs.Prelude.{◌≡◌, ℕ, ◌==◌, Some, min, IfOk, OnOk, if◌then◌else◌, unwrap_or};
ghost use Rattle.std.specs.Option.{option_copied, option_map_or};
ghost use Rattle.std.specs.Ordering.{nat_cmp};
ghost use Rattle.std.specs.BTreeMap.{get};
ghost use Rattle.plasma_tx.specs.Views.{exits_of};
ghost use Rattle.coin_safety.specs.Advice.{exit_in, start_shown, earlier_spend};
ghost use Rattle.coin_safety.specs.Index.{ArePlaces, AreLowest, AreStarts, IsIndex, spend_in, spend_at};

use super::windows::lesser;
use plasma_base::NoMemory;
use plasma_tx::{ExitView, RawOpening, RootCall, RootLog};
use std::alloc::Global;
use std::collections::BTreeMap;

/// What is kept of a coin's exits for one look: where the exit at a block stands among them, the lowest block of the
/// exits of a parent, and where the last start of the exit at a block stands among the log's calls.
#[derive(Drop)]
pub(crate) struct Index {
    pub(crate) places: BTreeMap<u64, usize>,
    pub(crate) lowest: BTreeMap<u64, u64>,
    pub(crate) starts: BTreeMap<u64, usize>,
}

impl Index {
    /// One pass over the log.
    pub(crate) fn new(alloc: Global, log: &RootLog, coin: u64) -> Result<Index, NoMemory>
        ensures { IfOk result (IsIndex log.now.log coin) }
    {
        let exits = log.exits(coin);
        let places = places(alloc, exits)?;
        let lowest = lowest_blocks(alloc, exits)?;
        let starts = starts(alloc, log, coin)?;
        Ok(Index {
            places,
            lowest,
            starts,
        })
    }

    /// The exit at the block.
    pub(crate) fn exit<'a>(&self, log: &'a RootLog, coin: u64, block: u64) -> Option<&'a ExitView>
        requires { IsIndex log.now.log coin self.now }
        ensures { option_copied result ≡ exit_in (exits_of log.now.log coin) block }
    {
        let place = *self.places.get(&block)?;
        log.exits(coin).get(place)
    }

    /// What shows an earlier spend of the exit's parent.
    pub(crate) fn earlier_spend<'a>(
        &self,
        log: &'a RootLog,
        coin: u64,
        exit: &ExitView,
    ) -> Option<&'a RawOpening>
        requires { IsIndex log.now.log coin self.now }
        ensures { option_copied result ≡ earlier_spend log.now.log coin exit.now }
    {
        let block = *self.lowest.get(&exit.parent)?;
        if block >= exit.block {
            return None;
        }
        self.start_shown(log, coin, block)
    }

    /// The opening of the exit's block that the last start of the exit there showed.
    fn start_shown<'a>(&self, log: &'a RootLog, coin: u64, block: u64) -> Option<&'a RawOpening>
        requires { IsIndex log.now.log coin self.now }
        ensures { option_copied result ≡ start_shown log.now.log coin block }
    {
        let place = *self.starts.get(&block)?;
        spend_at(log, coin, place)
    }
}

/// Where the exit at a block stands. The last are put in first, so that the first of a block counts.
fn places(alloc: Global, exits: &[ExitView]) -> Result<BTreeMap<u64, usize>, NoMemory>
    ensures { IfOk result (ArePlaces exits.now) }
{
    let mut places = BTreeMap::new(alloc);
    for place in (0..exits.len()).rev() {
        places.insert(exits[place].block, place)?;
    }
    Ok(places)
}

/// By parent, the lowest block of the exits that have it.
fn lowest_blocks(alloc: Global, exits: &[ExitView]) -> Result<BTreeMap<u64, u64>, NoMemory>
    ensures { IfOk result (AreLowest exits.now) }
{
    let mut blocks = BTreeMap::new(alloc);
    for exit in exits {
        lower(&mut blocks, exit.parent, exit.block)?;
    }
    Ok(blocks)
}

/// The block counts for the parent, where none that is lower does.
fn lower(blocks: &mut BTreeMap<u64, u64>, parent: u64, block: u64) -> Result<(), NoMemory>
    ensures { OnOk result ((p : ℕ) → get nat_cmp blocks.new p ≡ (if p == parent
        then Some (option_map_or (min block) (get nat_cmp blocks.old parent) block)
        else get nat_cmp blocks.old p)) }
{
    let known = blocks.get(&parent).copied();
    blocks.insert(parent, lesser(known, block))?;
    Ok(())
}

/// Where the last start of the coin's exit at a block stands among the log's calls: one pass over them.
fn starts(alloc: Global, log: &RootLog, coin: u64) -> Result<BTreeMap<u64, usize>, NoMemory>
    ensures { IfOk result (AreStarts log.now.log coin) }
{
    let events = log.events();
    let mut places = BTreeMap::new(alloc);
    for (place, call) in events.iter().enumerate() {
        if let Some(exit) = spend_in(coin, call) {
            places.insert(exit.block, place)?;
        }
    }
    Ok(places)
}

/// The opening of the exit's block that the call shows, where it starts a transfer's exit of the coin.
fn spend_in(coin: u64, call: &RootCall) -> Option<&RawOpening>
    ensures { option_copied result ≡ spend_in coin call.now }
{
    match call {
        RootCall::StartSpend { coin: of, exit, .. } if *of == coin => Some(exit),
        _ => None,
    }
}

/// What the call at the place shows.
fn spend_at(log: &RootLog, coin: u64, place: usize) -> Option<&RawOpening>
    ensures { option_copied result ≡ spend_at log.now.log coin place }
{
    spend_in(coin, log.events().get(place)?)
}
