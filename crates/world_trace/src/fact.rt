ghost use Rattle.std.specs.Prelude.{◌≡◌, List, IfOk};
ghost use Rattle.plasma_tx.specs.declared.call.RootCall.{RootCall};
ghost use Rattle.plasma_tx.specs.Shown.{Tests, Rules};
ghost use Rattle.world_rules.specs.Events.{Event, log_of};
ghost use Rattle.coin_verdicts.specs.declared.fact.Fact.{Fact};
ghost use Rattle.coin_verdicts.specs.Facts.{IsFact};
ghost use Rattle.world_trace.specs.Events.{IsEvent, event_of_call};

use super::event::LineEvent;
use coin_verdicts::{Fact, KeptOwner};
use plasma_base::NoMemory;
use plasma_tx::Owner;
use std::alloc::Global;

/// The event of a call that is told so; of one that was refused, none.
pub fn event_of_call(told: Option<Fact>) -> LineEvent
    ensures { result ≡ event_of_call told }
{
    match told {
        None => LineEvent::Idle,
        Some(fact) => LineEvent::Joins { fact },
    }
}

// The fact of a wallet's declaration.
fn declared(alloc: Global, wallet: u64, owner: Owner) -> Result<Fact, NoMemory>
    ensures { IfOk result (λ fact. fact ≡ Fact.Declares wallet owner) }
{
    Ok(Fact::Declares {
        wallet,
        owner: KeptOwner::new(alloc, owner)?,
    })
}

/// The fact of an event, which takes over what it holds. It takes memory for an owner alone.
pub fn fact_of(alloc: Global, event: LineEvent) -> Result<Fact, NoMemory>
    ensures { (tests : Tests) (rules : Rules) (events : List Event) (told : Event)
        → IsEvent tests rules (log_of events) told event → IfOk result (IsFact tests rules events told) }
{
    match event {
        LineEvent::Declares { wallet, owner } => declared(alloc, wallet, owner),
        LineEvent::Joins { fact } => Ok(fact),
        LineEvent::Accepts { wallet, bundle } => Ok(Fact::Accepts {
            wallet,
            coin: bundle.coin,
            tip: bundle.tip,
        }),
        LineEvent::Guards { watcher, bundle } => Ok(Fact::Guards {
            watcher,
            coin: bundle.coin,
            tip: bundle.tip,
        }),
        LineEvent::Releases { watcher, coin, tip } => Ok(Fact::Releases { watcher, coin, tip }),
        LineEvent::Binds { wallet, body } => Ok(Fact::Binds {
            wallet,
            coin: body.coin,
            parent: body.parent,
        }),
        LineEvent::TakesBack { wallet, leaf, .. } => Ok(Fact::TakesBack { wallet, leaf }),
        LineEvent::Watches { node, coins } => Ok(Fact::Watches { node, coins }),
        LineEvent::Other { node } => Ok(Fact::Other { node }),
        LineEvent::Idle => Ok(Fact::Idle),
    }
}
