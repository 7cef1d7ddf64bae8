ghost use Rattle.std.specs.Prelude.{◌≡◌, true, Some, IfOk, option_map};
ghost use Rattle.plasma_tx.specs.declared.call.RootCall.{RootCall};
ghost use Rattle.schedule_text.specs.Grammar.{IsCallForm, is_challenge};
ghost use Rattle.schedule_text.specs.declared.call_form.CallForm.{CallForm};
ghost use Rattle.world_rules.specs.World.{World, call_of};
ghost use Rattle.world_tokens.specs.Tokens.{IsKeyOf};

use super::identities::array_of;
use super::items::{opening_of, shown_of};
use plasma_base::{Bytes, NoMemory};
use plasma_tx::{RawOpening, RootCall, Shown};
use schedule_text::CallForm;
use std::alloc::Global;

/// The call of an account that a form of a `call` line stands for. `key` is what the key token of a `deposit`
/// stands for, and isn't used for other forms; the answer is `None` for a `deposit` without one, and
/// `NoMemory` is the one refusal.
pub fn call_of(
    alloc: Global,
    mail: &[Bytes],
    account: u64,
    form: &CallForm,
    key: Option<[u8; 56]>,
) -> Result<Option<RootCall>, NoMemory>
    requires { IsCallForm form.now }
    ensures { IfOk result (λ call. (world : World) → mail.now ≡ world.mail
        → IsKeyOf world form.now key → call ≡ call_of world account form.now) }
{
    Ok(match form {
        CallForm::Deposit { amount, key: _ } => deposit(account, *amount, key),
        CallForm::Commit { root } => Some(commit(account, root)),
        CallForm::Start { coin, block } => Some(RootCall::StartDeposit {
            account,
            coin: *coin,
            block: *block,
        }),
        CallForm::Exit {
            coin,
            parent,
            shown,
            exit,
            opening,
        } => {
            let parent = shown_of(alloc, mail, *parent, shown)?;
            let exit = opening_of(alloc, mail, *exit, opening)?;
            Some(start_spend(account, *coin, parent, exit))
        }
        CallForm::Finish { coin, exit } => Some(RootCall::Finish {
            account,
            coin: *coin,
            exit: *exit,
        }),
        _ => Some(challenge(alloc, mail, account, form)?),
    })
}

// A challenge, or an answer to one.
fn challenge(
    alloc: Global,
    mail: &[Bytes],
    account: u64,
    form: &CallForm,
) -> Result<RootCall, NoMemory>
    requires { is_challenge form.now ≡ true }
    ensures { IfOk result (λ call. (world : World) → mail.now ≡ world.mail
        → Some call ≡ call_of world account form.now) }
{
    Ok(match *form {
        CallForm::After {
            coin,
            exit,
            block,
            opening: ref token,
        } => after(account, coin, exit, opening_of(alloc, mail, block, token)?),
        CallForm::Between {
            coin,
            exit,
            block,
            opening: ref token,
        } => between(account, coin, exit, opening_of(alloc, mail, block, token)?),
        CallForm::Before {
            coin,
            exit,
            block,
            shown: ref token,
        } => before(account, coin, exit, shown_of(alloc, mail, block, token)?),
        CallForm::Respond {
            coin,
            exit,
            challenged,
            block,
            opening: ref token,
        } => respond(
            account,
            coin,
            exit,
            challenged,
            opening_of(alloc, mail, block, token)?,
        ),
        _ => unreachable!(),
    })
}

fn deposit(account: u64, amount: u64, key: Option<[u8; 56]>) -> Option<RootCall>
    ensures { result ≡ option_map (RootCall.Deposit account amount) key }
{
    let key = key?;
    Some(RootCall::Deposit {
        account,
        amount,
        key,
    })
}

fn commit(account: u64, root: &Bytes) -> RootCall
    requires { IsCallForm (CallForm.Commit root.now) }
    ensures { result ≡ RootCall.Commit account root.now }
{
    RootCall::Commit {
        account,
        root: array_of(root.as_slice()),
    }
}

fn start_spend(account: u64, coin: u64, parent: Shown, exit: RawOpening) -> RootCall
    ensures { result ≡ RootCall.StartSpend account coin parent exit }
{
    RootCall::StartSpend {
        account,
        coin,
        parent,
        exit,
    }
}

fn after(account: u64, coin: u64, exit: u64, spend: RawOpening) -> RootCall
    ensures { result ≡ RootCall.After account coin exit spend }
{
    RootCall::After {
        account,
        coin,
        exit,
        spend,
    }
}

fn between(account: u64, coin: u64, exit: u64, spend: RawOpening) -> RootCall
    ensures { result ≡ RootCall.Between account coin exit spend }
{
    RootCall::Between {
        account,
        coin,
        exit,
        spend,
    }
}

fn before(account: u64, coin: u64, exit: u64, shown: Shown) -> RootCall
    ensures { result ≡ RootCall.Before account coin exit shown }
{
    RootCall::Before {
        account,
        coin,
        exit,
        shown,
    }
}

fn respond(account: u64, coin: u64, exit: u64, challenged: u64, spend: RawOpening) -> RootCall
    ensures { result ≡ RootCall.Respond account coin exit challenged spend }
{
    RootCall::Respond {
        account,
        coin,
        exit,
        challenged,
        spend,
    }
}
