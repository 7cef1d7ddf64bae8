ghost use Rattle.std.specs.Prelude.{◌≡◌, ◌+◌, ◌-◌, IfOk, not, find};
ghost use Rattle.std.specs.Option.{option_copied};
ghost use Rattle.std.specs.List.{sum_by};
ghost use Rattle.plasma_tx.specs.Money.{amount_of, balance_of};
ghost use Rattle.plasma_tx.specs.Views.{coin_at, exits_of, is_withdrawn};
ghost use Rattle.coin_safety.specs.Advice.{exit_in, takes, missing};
ghost use Rattle.coin_safety.specs.Lean.{share, own_bonds, cancel_share, payout_share, finish_share, paid_to, taken_of};

use super::lean::{empty_beside, push_lean};
use super::payment::exit_in;
use plasma_base::NoMemory;
use plasma_tx::{CHALLENGE_BOND, ChallengeView, EXIT_BOND, ExitView, RootCall, RootLog};
use std::alloc::Global;

/// What the call takes of the account that enters it.
pub fn takes(call: &RootCall) -> u64
    ensures { result ≡ takes call.now }
{
    match call {
        RootCall::Deposit { amount, .. } => *amount,
        RootCall::StartDeposit { .. } => EXIT_BOND,
        RootCall::StartSpend { .. } => EXIT_BOND,
        RootCall::Before { .. } => CHALLENGE_BOND,
        _ => 0,
    }
}

/// What the account lacks to enter all of the calls.
pub(crate) fn missing(
    alloc: Global,
    log: &RootLog,
    account: u64,
    calls: &[RootCall],
) -> Result<u64, NoMemory>
    ensures { IfOk result (λ money. money ≡ missing log.now.log account calls.now) }
{
    let mut needed = 0;
    for call in calls {
        needed = sum(needed, takes(call))?;
    }
    if needed == 0 {
        return Ok(0);
    }
    Ok(needed.saturating_sub(balance(alloc, log, account)?))
}

/// The sum. `NoMemory` where it passes 2^64.
fn sum(one: u64, other: u64) -> Result<u64, NoMemory>
    ensures { IfOk result (λ money. money ≡ one + other) }
{
    match one.checked_add(other) {
        None => Err(NoMemory),
        Some(money) => Ok(money),
    }
}

/// The account's balance, by the log alone: one pass over it. `NoMemory` also where a sum passes 2^64, as none does in
/// a log that a contract accepted.
pub fn balance(alloc: Global, log: &RootLog, account: u64) -> Result<u64, NoMemory>
    ensures { IfOk result (λ money. money ≡ balance_of log.now.log account) }
{
    let events = log.events();
    let mut beside = empty_beside(alloc, log);
    let mut money = 0;
    for call in events {
        let paid = paid_to(account, &beside, call)?;
        money = sum(money, paid)?.saturating_sub(taken_of(account, call));
        push_lean(alloc, &mut beside, call)?;
    }
    Ok(money)
}

/// The amount, where it is the account's.
fn share(account: u64, whose: u64, amount: u64) -> u64
    ensures { result ≡ share account whose amount }
{
    if whose == account { amount } else { 0 }
}

/// What the call takes of the account.
fn taken_of(account: u64, call: &RootCall) -> u64
    ensures { result ≡ taken_of account call.now }
{
    match call {
        RootCall::Deposit {
            account: by,
            amount,
            ..
        } => share(account, *by, *amount),
        RootCall::StartDeposit { account: by, .. } => share(account, *by, EXIT_BOND),
        RootCall::StartSpend { account: by, .. } => share(account, *by, EXIT_BOND),
        RootCall::Before { account: by, .. } => share(account, *by, CHALLENGE_BOND),
        _ => 0,
    }
}

/// What the call pays to the account, after the calls of the log.
fn paid_to(account: u64, log: &RootLog, call: &RootCall) -> Result<u64, NoMemory>
    ensures { IfOk result (λ money. money ≡ paid_to account log.now.log call.now) }
{
    match call {
        RootCall::Fund {
            account: whose,
            amount,
        } => Ok(share(account, *whose, *amount)),
        RootCall::After {
            account: by,
            coin,
            exit,
            ..
        } => cancel_share(account, *by, exit_in(log.exits(*coin), *exit)),
        RootCall::Between {
            account: by,
            coin,
            exit,
            ..
        } => cancel_share(account, *by, exit_in(log.exits(*coin), *exit)),
        RootCall::Respond { account: by, .. } => Ok(share(account, *by, CHALLENGE_BOND)),
        RootCall::Finish { coin, exit, .. } => finish_share(account, log, *coin, *exit),
        _ => Ok(0),
    }
}

/// What the account gets where the exit is cancelled by a call of an account.
fn cancel_share(account: u64, by: u64, exit: Option<&ExitView>) -> Result<u64, NoMemory>
    ensures { IfOk result (λ money. money ≡ cancel_share account by (option_copied exit.entry)) }
{
    match exit {
        None => Ok(0),
        Some(exit) => sum(
            share(account, by, EXIT_BOND),
            own_bonds(account, exit.challenges.as_slice())?,
        ),
    }
}

/// What the account gets where the exit of the coin at the block is finished.
fn finish_share(account: u64, log: &RootLog, coin: u64, block: u64) -> Result<u64, NoMemory>
    ensures { IfOk result (λ money. money ≡ finish_share account (is_withdrawn log.now.log coin)
        (amount_of (coin_at log.now.log coin)) (exit_in (exits_of log.now.log coin) block)) }
{
    match exit_in(log.exits(coin), block) {
        None => Ok(0),
        Some(exit) => payout_share(account, log, coin, exit),
    }
}

/// The same of the exit.
fn payout_share(account: u64, log: &RootLog, coin: u64, exit: &ExitView) -> Result<u64, NoMemory>
    ensures { IfOk result (λ money. money ≡ payout_share account (is_withdrawn log.now.log coin)
        (amount_of (coin_at log.now.log coin)) exit.now
        (find (λ challenge. not challenge.answered) exit.now.challenges)) }
{
    let challenges = exit.challenges.as_slice();
    if let Some(challenge) = first_open(challenges) {
        return sum(
            share(account, challenge.by, EXIT_BOND),
            own_bonds(account, challenges)?,
        );
    }
    if log.withdrawn(coin) {
        return Ok(share(account, exit.account, EXIT_BOND));
    }
    Ok(share(account, exit.account, sum(amount(log, coin), EXIT_BOND)?))
}

/// The first open challenge.
fn first_open(challenges: &[ChallengeView]) -> Option<&ChallengeView>
    ensures { option_copied result ≡ find (λ challenge. not challenge.answered) challenges.now }
{
    challenges.iter().find(|challenge| !challenge.answered)
}

/// The coin's amount; 0 where there is no such coin.
fn amount(log: &RootLog, coin: u64) -> u64
    ensures { result ≡ amount_of (coin_at log.now.log coin) }
{
    match log.coin(coin) {
        None => 0,
        Some(coin) => coin.amount,
    }
}

/// The bonds of the account's open challenges.
fn own_bonds(account: u64, challenges: &[ChallengeView]) -> Result<u64, NoMemory>
    ensures { IfOk result (λ money. money ≡ own_bonds account challenges.now) }
{
    let mut money = 0;
    for challenge in challenges {
        if !challenge.answered {
            money = sum(money, share(account, challenge.by, CHALLENGE_BOND))?;
        }
    }
    Ok(money)
}
