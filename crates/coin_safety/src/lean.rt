ghost use Rattle.std.specs.Prelude.{◌≡◌, ◌∷◌, [], IfOk, OnOk};
ghost use Rattle.plasma_tx.specs.declared.call.Shown.TheVariants.{Deposit as AtDeposit};
ghost use Rattle.plasma_tx.specs.Views.{block_of};
ghost use Rattle.coin_safety.specs.Lean.{lean, bare, concerns};

use plasma_base::{Bytes, NoMemory};
use plasma_tx::{RawOpening, RootCall, RootLog, Shown};
use std::alloc::Global;

/// Appends the call without the bytes of its openings.
pub(crate) fn push_lean(alloc: Global, log: &mut RootLog, call: &RootCall) -> Result<(), NoMemory>
    ensures { OnOk result (log.new.log ≡ lean call.now ∷ log.old.log) }
{
    log.push(lean(alloc, call)?)?;
    Ok(())
}

/// A log without calls, beside which another is followed.
pub(crate) fn empty_beside(alloc: Global, log: &RootLog) -> RootLog
    ensures { result.log ≡ [] }
{
    RootLog::make(alloc, log.tag(), log.operator(), log.most_blocks())
}

/// An opening at the block, without bytes. It takes no memory.
fn bare(alloc: Global, block: u64) -> RawOpening
    ensures { result ≡ bare block }
{
    RawOpening {
        block,
        bytes: Bytes::from_vec(Vec::new(alloc)),
    }
}

/// What is shown at the block, without bytes.
fn at(shown: &Shown) -> Shown
    ensures { result ≡ AtDeposit (block_of shown.now) }
{
    Shown::Deposit {
        block: shown.block(),
    }
}

/// The call without the bytes of its openings. It takes no memory.
fn lean(alloc: Global, call: &RootCall) -> Result<RootCall, NoMemory>
    ensures { IfOk result (λ made. made ≡ lean call.now) }
{
    Ok(match call {
        RootCall::StartSpend {
            account,
            coin,
            parent,
            exit,
        } => RootCall::StartSpend {
            account: *account,
            coin: *coin,
            parent: at(parent),
            exit: bare(alloc, exit.block),
        },
        RootCall::After {
            account,
            coin,
            exit,
            spend,
        } => RootCall::After {
            account: *account,
            coin: *coin,
            exit: *exit,
            spend: bare(alloc, spend.block),
        },
        RootCall::Between {
            account,
            coin,
            exit,
            spend,
        } => RootCall::Between {
            account: *account,
            coin: *coin,
            exit: *exit,
            spend: bare(alloc, spend.block),
        },
        RootCall::Before {
            account,
            coin,
            exit,
            shown,
        } => RootCall::Before {
            account: *account,
            coin: *coin,
            exit: *exit,
            shown: at(shown),
        },
        RootCall::Respond {
            account,
            coin,
            exit,
            challenged,
            spend,
        } => RootCall::Respond {
            account: *account,
            coin: *coin,
            exit: *exit,
            challenged: *challenged,
            spend: bare(alloc, spend.block),
        },
        call => call.copy()?,
    })
}

/// Whether the call may change what stands of the coin, or sets the clock.
pub(crate) fn concerns(coin: u64, call: &RootCall) -> bool
    ensures { result ≡ concerns coin call.now }
{
    match call {
        RootCall::Tick { .. } => true,
        RootCall::StartDeposit { coin: of, .. } => *of == coin,
        RootCall::StartSpend { coin: of, .. } => *of == coin,
        RootCall::After { coin: of, .. } => *of == coin,
        RootCall::Between { coin: of, .. } => *of == coin,
        RootCall::Before { coin: of, .. } => *of == coin,
        RootCall::Respond { coin: of, .. } => *of == coin,
        RootCall::Finish { coin: of, .. } => *of == coin,
        _ => false,
    }
}
