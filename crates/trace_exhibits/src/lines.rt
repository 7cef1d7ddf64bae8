ghost use Rattle.std.specs.Prelude.{◌≡◌, ◌++◌, map, OnOk, IfOk};
ghost use Rattle.watch_duty.specs.Laws.{openings_of_call, shown_openings};
ghost use Rattle.world_rules.specs.Events.{coin_of_call};
ghost use Rattle.trace_exhibits.specs.Told.{opened, shown_of};
ghost use Rattle.trace_exhibits.specs.Lines.{event_of};

use super::shown::ShownOpening;
use plasma_base::NoMemory;
use plasma_tx::{Body, Owner, RawOpening, RootCall, Shown};
use std::alloc::Global;

/// What a line of a trace is to its exhibit.
#[derive(Drop)]
pub enum ExhibitLine<'a> {
    /// A wallet was declared, which is this owner.
    Declares {
        wallet: u64,
        owner: &'a Owner,
    },
    /// The next leaf of a wallet's key binds a body.
    Binds {
        wallet: u64,
        body: &'a Body,
    },
    /// The contract accepted a call.
    Joins {
        call: &'a RootCall,
    },
    /// A node accepted openings of a coin.
    Shows {
        coin: u64,
        openings: &'a [RawOpening],
    },
    /// None of these.
    Other,
}

/// The openings that a line shows, in their order.
pub(crate) fn shown_of<'a>(
    alloc: Global,
    line: &ExhibitLine<'a>,
) -> Result<Vec<ShownOpening<'a>>, NoMemory>
    ensures { IfOk result (λ shown. shown.items ≡ shown_of (event_of line.now)) }
{
    let mut shown = Vec::new(alloc);
    push_shown(line, &mut shown)?;
    Ok(shown)
}

// Adds the openings that a line shows. `NoMemory` may leave some of them added.
fn push_shown<'a>(line: &ExhibitLine<'a>, shown: &mut Vec<ShownOpening<'a>>) -> Result<(), NoMemory>
    ensures { OnOk result (shown.new.items ≡ shown.old.items ++ shown_of (event_of line.now)) }
{
    match line {
        ExhibitLine::Joins { call } => push_call(call, shown),
        ExhibitLine::Shows { coin, openings } => push_openings(*coin, openings, shown),
        _ => Ok(()),
    }
}

// Adds openings of a coin.
fn push_openings<'a>(
    coin: u64,
    openings: &'a [RawOpening],
    shown: &mut Vec<ShownOpening<'a>>,
) -> Result<(), NoMemory>
    ensures { OnOk result (shown.new.items ≡ shown.old.items ++ map (opened coin) openings.now) }
{
    for opening in openings {
        shown.push(ShownOpening::of(coin, opening))?;
    }
    Ok(())
}

// Adds the openings that a call shows of its coin, the parent's first.
fn push_call<'a>(call: &'a RootCall, shown: &mut Vec<ShownOpening<'a>>) -> Result<(), NoMemory>
    ensures { let coin = coin_of_call call.now in OnOk result (shown.new.items
        ≡ shown.old.items ++ map (opened coin) (openings_of_call coin call.now)) }
{
    match call {
        RootCall::StartSpend {
            coin,
            parent,
            exit,
            ..
        } => {
            push_view(*coin, parent, shown)?;
            shown.push(ShownOpening::of(*coin, exit))?;
        }
        RootCall::After { coin, spend, .. }
        | RootCall::Between { coin, spend, .. }
        | RootCall::Respond { coin, spend, .. } => {
            shown.push(ShownOpening::of(*coin, spend))?;
        }
        RootCall::Before {
            coin,
            shown: view,
            ..
        } => push_view(*coin, view, shown)?,
        _ => {}
    }
    Ok(())
}

// Adds the opening of a transfer that is shown; a deposit has none.
fn push_view<'a>(
    coin: u64,
    view: &'a Shown,
    shown: &mut Vec<ShownOpening<'a>>,
) -> Result<(), NoMemory>
    ensures { OnOk result (shown.new.items ≡ shown.old.items ++ map (opened coin) (shown_openings view.now)) }
{
    match view {
        Shown::Deposit { .. } => {}
        Shown::Spend { opening } => shown.push(ShownOpening::of(coin, opening))?,
    }
    Ok(())
}
