ghost use Rattle.std.specs.Prelude.{◌≡◌, length};
ghost use Rattle.schedule_text.specs.Grammar.{IsCallForm, IsLine};
ghost use Rattle.root_log.specs.Calls.{opening_of, shown_of, call_of, call_of_line};

use line_forms::{HexOrItem, HexOrName, ShownToken};
use plasma_base::Bytes;
use plasma_tx::{RawOpening, RootCall, Shown};
use schedule_text::{CallForm, Line};

/// The call that a line of a schedule is: a `fund`, a `tick` or a `call` line. It is `None` for every
/// other line, and where the line names a key's owner or a mail item. No memory is taken.
pub fn call_of_line(line: Line) -> Option<RootCall>
    requires { IsLine line }
    ensures { result ≡ call_of_line line }
{
    match line {
        Line::Fund { account, amount } => Some(RootCall::Fund { account, amount }),
        Line::Tick { time } => Some(RootCall::Tick { now: time }),
        Line::Call { account, form } => call_of(account, form),
        _ => None,
    }
}

/// The call of an account that a form of a `call` line spells; `None` where it names a key's owner or
/// a mail item. The bytes of an opening are moved into it.
pub fn call_of(account: u64, form: CallForm) -> Option<RootCall>
    requires { IsCallForm form }
    ensures { result ≡ call_of account form }
{
    match form {
        CallForm::Deposit { amount, key } => deposit(account, amount, key),
        CallForm::Commit { root } => commit(account, root),
        CallForm::Start { coin, block } => start(account, coin, block),
        CallForm::Exit {
            coin,
            parent,
            shown,
            exit,
            opening,
        } => start_spend(account, coin, parent, shown, exit, opening),
        CallForm::After {
            coin,
            exit,
            block,
            opening,
        } => after(account, coin, exit, block, opening),
        CallForm::Between {
            coin,
            exit,
            block,
            opening,
        } => between(account, coin, exit, block, opening),
        CallForm::Before {
            coin,
            exit,
            block,
            shown,
        } => before(account, coin, exit, block, shown),
        CallForm::Respond {
            coin,
            exit,
            challenged,
            block,
            opening,
        } => respond(account, coin, exit, challenged, block, opening),
        CallForm::Finish { coin, exit } => finish(account, coin, exit),
    }
}

fn deposit(account: u64, amount: u64, key: HexOrName) -> Option<RootCall>
    requires { IsCallForm (CallForm.Deposit amount key) }
    ensures { result ≡ call_of account (CallForm.Deposit amount key) }
{
    match key {
        HexOrName::Hex(key) => Some(RootCall::Deposit {
            account,
            amount,
            key: array_of(&key),
        }),
        HexOrName::Name(_) => None,
    }
}

fn commit(account: u64, root: Bytes) -> Option<RootCall>
    requires { IsCallForm (CallForm.Commit root) }
    ensures { result ≡ call_of account (CallForm.Commit root) }
{
    Some(RootCall::Commit {
        account,
        root: array_of(&root),
    })
}

fn start(account: u64, coin: u64, block: u64) -> Option<RootCall>
    ensures { result ≡ call_of account (CallForm.Start coin block) }
{
    Some(RootCall::StartDeposit {
        account,
        coin,
        block,
    })
}

fn start_spend(
    account: u64,
    coin: u64,
    parent: u64,
    shown: ShownToken,
    exit: u64,
    opening: HexOrItem,
) -> Option<RootCall>
    ensures { result ≡ call_of account (CallForm.Exit coin parent shown exit opening) }
{
    Some(RootCall::StartSpend {
        account,
        coin,
        parent: shown_of(parent, shown)?,
        exit: opening_of(exit, opening)?,
    })
}

fn after(account: u64, coin: u64, exit: u64, block: u64, opening: HexOrItem) -> Option<RootCall>
    ensures { result ≡ call_of account (CallForm.After coin exit block opening) }
{
    Some(RootCall::After {
        account,
        coin,
        exit,
        spend: opening_of(block, opening)?,
    })
}

fn between(account: u64, coin: u64, exit: u64, block: u64, opening: HexOrItem) -> Option<RootCall>
    ensures { result ≡ call_of account (CallForm.Between coin exit block opening) }
{
    Some(RootCall::Between {
        account,
        coin,
        exit,
        spend: opening_of(block, opening)?,
    })
}

fn before(account: u64, coin: u64, exit: u64, block: u64, shown: ShownToken) -> Option<RootCall>
    ensures { result ≡ call_of account (CallForm.Before coin exit block shown) }
{
    Some(RootCall::Before {
        account,
        coin,
        exit,
        shown: shown_of(block, shown)?,
    })
}

fn respond(
    account: u64,
    coin: u64,
    exit: u64,
    challenged: u64,
    block: u64,
    opening: HexOrItem,
) -> Option<RootCall>
    ensures { result ≡ call_of account (CallForm.Respond coin exit challenged block opening) }
{
    Some(RootCall::Respond {
        account,
        coin,
        exit,
        challenged,
        spend: opening_of(block, opening)?,
    })
}

fn finish(account: u64, coin: u64, exit: u64) -> Option<RootCall>
    ensures { result ≡ call_of account (CallForm.Finish coin exit) }
{
    Some(RootCall::Finish {
        account,
        coin,
        exit,
    })
}

// The opening of a block that a bytes token spells; `None` for a mail item.
fn opening_of(block: u64, token: HexOrItem) -> Option<RawOpening>
    ensures { result ≡ opening_of block token }
{
    match token {
        HexOrItem::Hex(bytes) => Some(RawOpening { block, bytes }),
        HexOrItem::Item(_) => None,
    }
}

// What a shown token shows of a coin at a block; `None` for a mail item.
fn shown_of(block: u64, token: ShownToken) -> Option<Shown>
    ensures { result ≡ shown_of block token }
{
    match token {
        ShownToken::Deposit => Some(Shown::Deposit { block }),
        ShownToken::Bytes(bytes) => Some(Shown::Spend {
            opening: opening_of(block, bytes)?,
        }),
    }
}

/// The bytes as an array.
pub fn array_of<const N: usize>(bytes: &Bytes) -> [u8; N]
    requires { length bytes.now ≡ N }
    ensures { result ≡ bytes.now }
{
    let mut array = [0; N];
    array.copy_from_slice(bytes.as_slice());
    array
}
