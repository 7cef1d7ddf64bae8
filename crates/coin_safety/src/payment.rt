ghost use Rattle.std.specs.Prelude.{◌≡◌, ◌∷◌, IfOk, OnOk, Some, None, if◌then◌else◌};
ghost use Rattle.std.specs.List.{list_all};
ghost use Rattle.std.specs.Option.{option_copied, option_map_or, option_or};
ghost use Rattle.plasma_tx.specs.Standing.{has_no_open_view};
ghost use Rattle.plasma_tx.specs.Views.{exits_of};
ghost use Rattle.coin_safety.specs.Advice.{exit_in};
ghost use Rattle.coin_safety.specs.Lean.{lean, concerns, payment_by};
ghost use Rattle.coin_safety.specs.Words.{payment};

use super::lean::{concerns, empty_beside, push_lean};
use plasma_base::NoMemory;
use plasma_tx::{ChallengeView, ExitView, RootCall, RootLog};
use std::alloc::Global;

/// By the exit of which account a coin was paid out, and in which line of the log's file.
#[derive(Clone, Copy, PartialEq, Eq)]
pub struct Payment {
    pub account: u64,
    pub line: u64,
}

/// By which exit the coin was paid out: one pass over the log, which keeps the coin's own calls.
pub(crate) fn payment_of(
    alloc: Global,
    log: &RootLog,
    coin: u64,
) -> Result<Option<Payment>, NoMemory>
    ensures { IfOk result (λ paid. paid ≡ payment log.now.log coin) }
{
    if !log.withdrawn(coin) {
        return Ok(None);
    }
    let events = log.events();
    let mut beside = empty_beside(alloc, log);
    let mut found = None;
    for (place, call) in events.iter().enumerate() {
        found = next_payment(alloc, coin, place as u64 + 2, &mut beside, call, found)?;
    }
    Ok(found)
}

/// What was found of the coin's payment, and by the call in this line; the lean log is followed.
fn next_payment(
    alloc: Global,
    coin: u64,
    line: u64,
    beside: &mut RootLog,
    call: &RootCall,
    found: Option<Payment>,
) -> Result<Option<Payment>, NoMemory>
    ensures found { IfOk result (λ next. next
        ≡ option_or found (payment_by coin line (exits_of beside.old.log coin) call.now)) }
    ensures beside { OnOk result (beside.new.log
        ≡ (if concerns coin call.now then lean call.now ∷ beside.old.log else beside.old.log)) }
{
    if !concerns(coin, call) {
        return Ok(found);
    }
    let next = found.or(payment_by(coin, line, beside.exits(coin), call));
    push_lean(alloc, beside, call)?;
    Ok(next)
}

/// The payment of the coin by the call in this line, where these exits stand.
fn payment_by(coin: u64, line: u64, exits: &[ExitView], call: &RootCall) -> Option<Payment>
    ensures { result ≡ payment_by coin line exits.now call.now }
{
    match call {
        RootCall::Finish { coin: of, exit, .. } if *of == coin => finished(line, exits, *exit),
        _ => None,
    }
}

/// The payment by a Finish of the exit at the block, where no challenge of it is open.
fn finished(line: u64, exits: &[ExitView], block: u64) -> Option<Payment>
    ensures { result ≡ (if has_no_open_view (exit_in exits.now block)
        then Some (record { account = option_map_or (λ exit. exit.account) (exit_in exits.now block) 0; line = line })
        else None) }
{
    match exit_in(exits, block) {
        None => Some(Payment { account: 0, line }),
        Some(exit) if are_answered(exit.challenges.as_slice()) => Some(Payment {
            account: exit.account,
            line,
        }),
        _ => None,
    }
}

/// The exit at the block.
pub(crate) fn exit_in(exits: &[ExitView], block: u64) -> Option<&ExitView>
    ensures { option_copied result ≡ exit_in exits.now block }
{
    exits.iter().find(|exit| exit.block == block)
}

/// Whether all are answered.
fn are_answered(challenges: &[ChallengeView]) -> bool
    ensures { result ≡ list_all (λ challenge. challenge.answered) challenges.now }
{
    challenges.iter().all(|challenge| challenge.answered)
}
