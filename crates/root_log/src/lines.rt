ghost use Rattle.std.specs.Prelude.{◌≡◌, IfOk};
ghost use Rattle.line_forms.specs.Tokens.{AreBytes, IsHexOrItem, IsShown};
ghost use Rattle.line_forms.specs.declared.tokens.HexOrItem.{HexOrItem};
ghost use Rattle.schedule_text.specs.Grammar.{IsLine};
ghost use Rattle.root_log.specs.Calls.{shown_token, line_of};

use line_forms::{HexOrItem, HexOrName, ShownToken};
use plasma_base::{Bytes, NoMemory};
use plasma_tx::{RawOpening, RootCall, Shown};
use schedule_text::{CallForm, Line};
use std::alloc::Global;

/// The line of a call, with each key and each opening as bytes. These are copied.
pub fn line_of(alloc: Global, call: &RootCall) -> Result<Line, NoMemory>
    ensures is { IfOk result (λ line. line ≡ line_of call.now) }
    ensures grammar { IfOk result IsLine }
{
    match call {
        RootCall::Fund { account, amount } => Ok(Line::Fund {
            account: *account,
            amount: *amount,
        }),
        RootCall::Tick { now } => Ok(Line::Tick { time: *now }),
        RootCall::Deposit {
            account,
            amount,
            key,
        } => Ok(Line::Call {
            account: *account,
            form: CallForm::Deposit {
                amount: *amount,
                key: HexOrName::Hex(bytes_of(alloc, key)?),
            },
        }),
        RootCall::Commit { account, root } => Ok(Line::Call {
            account: *account,
            form: CallForm::Commit {
                root: bytes_of(alloc, root)?,
            },
        }),
        RootCall::StartDeposit {
            account,
            coin,
            block,
        } => Ok(Line::Call {
            account: *account,
            form: CallForm::Start {
                coin: *coin,
                block: *block,
            },
        }),
        RootCall::StartSpend {
            account,
            coin,
            parent,
            exit: RawOpening { block, bytes },
        } => Ok(Line::Call {
            account: *account,
            form: CallForm::Exit {
                coin: *coin,
                parent: parent.block(),
                shown: shown_token(alloc, parent)?,
                exit: *block,
                opening: bytes_token(alloc, bytes)?,
            },
        }),
        RootCall::After {
            account,
            coin,
            exit,
            spend: RawOpening { block, bytes },
        } => Ok(Line::Call {
            account: *account,
            form: CallForm::After {
                coin: *coin,
                exit: *exit,
                block: *block,
                opening: bytes_token(alloc, bytes)?,
            },
        }),
        RootCall::Between {
            account,
            coin,
            exit,
            spend: RawOpening { block, bytes },
        } => Ok(Line::Call {
            account: *account,
            form: CallForm::Between {
                coin: *coin,
                exit: *exit,
                block: *block,
                opening: bytes_token(alloc, bytes)?,
            },
        }),
        RootCall::Before {
            account,
            coin,
            exit,
            shown,
        } => Ok(Line::Call {
            account: *account,
            form: CallForm::Before {
                coin: *coin,
                exit: *exit,
                block: shown.block(),
                shown: shown_token(alloc, shown)?,
            },
        }),
        RootCall::Respond {
            account,
            coin,
            exit,
            challenged,
            spend: RawOpening { block, bytes },
        } => Ok(Line::Call {
            account: *account,
            form: CallForm::Respond {
                coin: *coin,
                exit: *exit,
                challenged: *challenged,
                block: *block,
                opening: bytes_token(alloc, bytes)?,
            },
        }),
        RootCall::Finish {
            account,
            coin,
            exit,
        } => Ok(Line::Call {
            account: *account,
            form: CallForm::Finish {
                coin: *coin,
                exit: *exit,
            },
        }),
    }
}

// The bytes as a token.
fn bytes_token(alloc: Global, bytes: &Bytes) -> Result<HexOrItem, NoMemory>
    ensures is { IfOk result (λ token. token ≡ HexOrItem.Hex bytes.now) }
    ensures grammar { IfOk result IsHexOrItem }
{
    Ok(HexOrItem::Hex(bytes_of(alloc, bytes.as_slice())?))
}

// What is shown as a token.
fn shown_token(alloc: Global, shown: &Shown) -> Result<ShownToken, NoMemory>
    ensures is { IfOk result (λ token. token ≡ shown_token shown.now) }
    ensures grammar { IfOk result IsShown }
{
    match shown {
        Shown::Deposit { block: _ } => Ok(ShownToken::Deposit),
        Shown::Spend { opening } => Ok(ShownToken::Bytes(bytes_token(alloc, &opening.bytes)?)),
    }
}

// The bytes as a byte string of their own.
fn bytes_of(alloc: Global, bytes: &[u8]) -> Result<Bytes, NoMemory>
    ensures is { IfOk result (λ copied. copied ≡ bytes.now) }
    ensures grammar { IfOk result AreBytes }
{
    Ok(Bytes::from_vec(Vec::from_slice(alloc, bytes)?))
}
