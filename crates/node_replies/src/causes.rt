ghost use Rattle.std.specs.Prelude.{◌≡◌, ◌++◌, IfOk, OnOk};
ghost use Rattle.node_replies.specs.Causes.{contract_cause, history_cause, wallet_cause, watcher_cause, offer_cause, lay_cause, prove_cause};

use super::words::{push_phrase, push_words};
use coin_history::HistoryRefusal;
use node_rules::{WalletRefusal, WatcherRefusal};
use operator_rules::{LayRefusal, OfferRefusal, ProveRefusal};
use plasma_base::{Bytes, NoMemory};
use plasma_tx::Refusal;
use std::alloc::Global;

fn push_contract(out: &mut Vec<u8>, why: &Refusal) -> Result<(), NoMemory>
    ensures { OnOk result (out.new.items ≡ out.old.items ++ contract_cause why.now) }
{
    match *why {
        Refusal::SumTooLarge => push_words(out, b"sum-too-large"),
        Refusal::ClockBack { now } => push_phrase(out, b"clock-back", &[now]),
        Refusal::ClockTooLarge => push_words(out, b"clock-too-large"),
        Refusal::BadAmount => push_words(out, b"bad-amount"),
        Refusal::BadKey => push_words(out, b"bad-key"),
        Refusal::NoFunds { has, needs } => push_phrase(out, b"no-funds", &[has, needs]),
        Refusal::TooManyBlocks => push_words(out, b"too-many-blocks"),
        Refusal::NotOperator => push_words(out, b"not-operator"),
        Refusal::NoCoin => push_words(out, b"no-coin"),
        Refusal::Withdrawn => push_words(out, b"withdrawn"),
        Refusal::BadBlock => push_words(out, b"bad-block"),
        Refusal::NotOwner => push_words(out, b"not-owner"),
        Refusal::ExitStands => push_words(out, b"exit-stands"),
        Refusal::BadOpening => push_words(out, b"bad-opening"),
        Refusal::NotChild => push_words(out, b"not-child"),
        Refusal::BadSignature => push_words(out, b"bad-signature"),
        Refusal::NoExit => push_words(out, b"no-exit"),
        Refusal::Late => push_words(out, b"late"),
        Refusal::ChallengeStands => push_words(out, b"challenge-stands"),
        Refusal::NoChallenge => push_words(out, b"no-challenge"),
        Refusal::Answered => push_words(out, b"answered"),
        Refusal::Early { opens } => push_phrase(out, b"early", &[opens]),
    }
}

/// The text of what the contract refuses a call for: its name in lower case with `-` between its words, and its
/// numbers, each after a blank.
pub fn contract_cause(alloc: Global, why: &Refusal) -> Result<Bytes, NoMemory>
    ensures { IfOk result (λ cause. cause ≡ contract_cause why.now) }
{
    let mut out = Vec::new(alloc);
    push_contract(&mut out, why)?;
    Ok(Bytes::from_vec(out))
}

fn push_history(out: &mut Vec<u8>, why: &HistoryRefusal) -> Result<(), NoMemory>
    ensures { OnOk result (out.new.items ≡ out.old.items ++ history_cause why.now) }
{
    match *why {
        HistoryRefusal::BadBundle { place } => push_phrase(out, b"bad-bundle", &[place]),
        HistoryRefusal::NoCoin => push_words(out, b"no-coin"),
        HistoryRefusal::UnknownBlock { n } => push_phrase(out, b"unknown-block", &[n]),
        HistoryRefusal::MissingBlock { n } => push_phrase(out, b"missing-block", &[n]),
        HistoryRefusal::BadOpening { n } => push_phrase(out, b"bad-opening", &[n]),
        HistoryRefusal::NotLink { n } => push_phrase(out, b"not-link", &[n]),
        HistoryRefusal::BadSignature { n } => push_phrase(out, b"bad-signature", &[n]),
        HistoryRefusal::NotAbsent { n } => push_phrase(out, b"not-absent", &[n]),
        HistoryRefusal::NoMemory => push_words(out, b"no-memory"),
    }
}

/// The text of what a bundle is refused for.
pub fn history_cause(alloc: Global, why: &HistoryRefusal) -> Result<Bytes, NoMemory>
    ensures { IfOk result (λ cause. cause ≡ history_cause why.now) }
{
    let mut out = Vec::new(alloc);
    push_history(&mut out, why)?;
    Ok(Bytes::from_vec(out))
}

fn push_wallet(out: &mut Vec<u8>, why: &WalletRefusal) -> Result<(), NoMemory>
    ensures { OnOk result (out.new.items ≡ out.old.items ++ wallet_cause why.now) }
{
    match *why {
        WalletRefusal::History { why } => push_history(out, &why),
        WalletRefusal::NotMine => push_words(out, b"not-mine"),
        WalletRefusal::Withdrawn => push_words(out, b"withdrawn"),
        WalletRefusal::ExitStands { block } => push_phrase(out, b"exit-stands", &[block]),
        WalletRefusal::NoteTooLong { length } => push_phrase(out, b"note-too-long", &[length]),
        WalletRefusal::NotHeld => push_words(out, b"not-held"),
        WalletRefusal::Leaving => push_words(out, b"leaving"),
        WalletRefusal::KeySpent { used } => push_phrase(out, b"key-spent", &[u64::from(used)]),
        WalletRefusal::BadLast { blocks } => push_phrase(out, b"bad-last", &[blocks]),
        WalletRefusal::OldJournal => push_words(out, b"old-journal"),
        WalletRefusal::AlreadyNew => push_words(out, b"already-new"),
        WalletRefusal::NotSending => push_words(out, b"not-sending"),
        WalletRefusal::NoLast => push_words(out, b"no-last"),
        WalletRefusal::NotYet { last } => push_phrase(out, b"not-yet", &[last]),
        WalletRefusal::DeviceFault => push_words(out, b"device-fault"),
        WalletRefusal::Closed => push_words(out, b"closed"),
        WalletRefusal::NoMemory => push_words(out, b"no-memory"),
    }
}

/// The text of what a wallet refuses a command for.
pub fn wallet_cause(alloc: Global, why: &WalletRefusal) -> Result<Bytes, NoMemory>
    ensures { IfOk result (λ cause. cause ≡ wallet_cause why.now) }
{
    let mut out = Vec::new(alloc);
    push_wallet(&mut out, why)?;
    Ok(Bytes::from_vec(out))
}

fn push_watcher(out: &mut Vec<u8>, why: &WatcherRefusal) -> Result<(), NoMemory>
    ensures { OnOk result (out.new.items ≡ out.old.items ++ watcher_cause why.now) }
{
    match *why {
        WatcherRefusal::History { why } => push_history(out, &why),
        WatcherRefusal::Withdrawn => push_words(out, b"withdrawn"),
        WatcherRefusal::ExitStands { block } => push_phrase(out, b"exit-stands", &[block]),
        WatcherRefusal::NoteTooLong { length } => push_phrase(out, b"note-too-long", &[length]),
        WatcherRefusal::NoGuard => push_words(out, b"no-guard"),
        WatcherRefusal::DeviceFault => push_words(out, b"device-fault"),
        WatcherRefusal::Closed => push_words(out, b"closed"),
        WatcherRefusal::NoMemory => push_words(out, b"no-memory"),
    }
}

/// The text of what a watcher refuses a command for.
pub fn watcher_cause(alloc: Global, why: &WatcherRefusal) -> Result<Bytes, NoMemory>
    ensures { IfOk result (λ cause. cause ≡ watcher_cause why.now) }
{
    let mut out = Vec::new(alloc);
    push_watcher(&mut out, why)?;
    Ok(Bytes::from_vec(out))
}

fn push_offer(out: &mut Vec<u8>, why: &OfferRefusal) -> Result<(), NoMemory>
    ensures { OnOk result (out.new.items ≡ out.old.items ++ offer_cause why.now) }
{
    match *why {
        OfferRefusal::NotTransfer => push_words(out, b"not-transfer"),
        OfferRefusal::NoCoin => push_words(out, b"no-coin"),
        OfferRefusal::WrongParent { tip } => push_phrase(out, b"wrong-parent", &[tip]),
        OfferRefusal::BadSignature => push_words(out, b"bad-signature"),
        OfferRefusal::TooLate { last } => push_phrase(out, b"too-late", &[last]),
        OfferRefusal::PoolHasCoin => push_words(out, b"pool-has-coin"),
        OfferRefusal::DeviceFault => push_words(out, b"device-fault"),
        OfferRefusal::Closed => push_words(out, b"closed"),
        OfferRefusal::NoMemory => push_words(out, b"no-memory"),
    }
}

/// The text of what the operator refuses an offer for.
pub fn offer_cause(alloc: Global, why: &OfferRefusal) -> Result<Bytes, NoMemory>
    ensures { IfOk result (λ cause. cause ≡ offer_cause why.now) }
{
    let mut out = Vec::new(alloc);
    push_offer(&mut out, why)?;
    Ok(Bytes::from_vec(out))
}

fn push_lay(out: &mut Vec<u8>, why: &LayRefusal) -> Result<(), NoMemory>
    ensures { OnOk result (out.new.items ≡ out.old.items ++ lay_cause why.now) }
{
    match *why {
        LayRefusal::LeafTooLong { length } => push_phrase(out, b"leaf-too-long", &[length]),
        LayRefusal::DeviceFault => push_words(out, b"device-fault"),
        LayRefusal::Closed => push_words(out, b"closed"),
        LayRefusal::NoMemory => push_words(out, b"no-memory"),
    }
}

/// The text of what the operator refuses bytes to lay for.
pub fn lay_cause(alloc: Global, why: &LayRefusal) -> Result<Bytes, NoMemory>
    ensures { IfOk result (λ cause. cause ≡ lay_cause why.now) }
{
    let mut out = Vec::new(alloc);
    push_lay(&mut out, why)?;
    Ok(Bytes::from_vec(out))
}

fn push_prove(out: &mut Vec<u8>, why: &ProveRefusal) -> Result<(), NoMemory>
    ensures { OnOk result (out.new.items ≡ out.old.items ++ prove_cause why.now) }
{
    match *why {
        ProveRefusal::NoCoin => push_words(out, b"no-coin"),
        ProveRefusal::UnknownBlock { n } => push_phrase(out, b"unknown-block", &[n]),
        ProveRefusal::NoMemory => push_words(out, b"no-memory"),
    }
}

/// The text of what the operator refuses an opening or a bundle for.
pub fn prove_cause(alloc: Global, why: &ProveRefusal) -> Result<Bytes, NoMemory>
    ensures { IfOk result (λ cause. cause ≡ prove_cause why.now) }
{
    let mut out = Vec::new(alloc);
    push_prove(&mut out, why)?;
    Ok(Bytes::from_vec(out))
}
