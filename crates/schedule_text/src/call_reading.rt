ghost use Rattle.std.specs.Prelude.{◌≡◌, Some, None, Err, IfOk};
ghost use Rattle.line_forms.specs.Forms.{take_form, takes};
ghost use Rattle.schedule_text.specs.Grammar.{calls, call_form};
ghost use Rattle.schedule_text.specs.declared.call_names.CallName.{CallName};

use super::call_form::{CallForm, ROOT_BYTES};
use super::call_names::{CALL_NAMES, CallName, ChallengeName};
use line_forms::{LineRefusal, Words, named};
use std::alloc::Global;

// The form with this first word that challenges an exit or answers a challenge.
fn challenge_of(
    alloc: Global,
    name: ChallengeName,
    words: &mut Words<'_>,
) -> Result<CallForm, LineRefusal>
    ensures found { IfOk result
        (λ form. takes (call_form (CallName.Challenge name)) words.old ≡ Some (form, words.new)) }
    ensures bad { result ≡ Err LineRefusal.BadLine → takes (call_form (CallName.Challenge name)) words.old ≡ None }
{
    match name {
        ChallengeName::After => Ok(CallForm::After {
            coin: words.number()?,
            exit: words.number()?,
            block: words.number()?,
            opening: words.bytes(alloc)?,
        }),
        ChallengeName::Between => Ok(CallForm::Between {
            coin: words.number()?,
            exit: words.number()?,
            block: words.number()?,
            opening: words.bytes(alloc)?,
        }),
        ChallengeName::Before => Ok(CallForm::Before {
            coin: words.number()?,
            exit: words.number()?,
            block: words.number()?,
            shown: words.shown(alloc)?,
        }),
        ChallengeName::Respond => Ok(CallForm::Respond {
            coin: words.number()?,
            exit: words.number()?,
            challenged: words.number()?,
            block: words.number()?,
            opening: words.bytes(alloc)?,
        }),
    }
}

// The form of a call with this first word.
fn call_of(alloc: Global, name: CallName, words: &mut Words<'_>) -> Result<CallForm, LineRefusal>
    ensures found { IfOk result (λ form. takes (call_form name) words.old ≡ Some (form, words.new)) }
    ensures bad { result ≡ Err LineRefusal.BadLine → takes (call_form name) words.old ≡ None }
{
    match name {
        CallName::Deposit => Ok(CallForm::Deposit {
            amount: words.number()?,
            key: words.key(alloc)?,
        }),
        CallName::Commit => Ok(CallForm::Commit {
            root: words.hex_of(alloc, ROOT_BYTES)?,
        }),
        CallName::Start => Ok(CallForm::Start {
            coin: words.number()?,
            block: words.number()?,
        }),
        CallName::Exit => Ok(CallForm::Exit {
            coin: words.number()?,
            parent: words.number()?,
            shown: words.shown(alloc)?,
            exit: words.number()?,
            opening: words.bytes(alloc)?,
        }),
        CallName::Challenge(name) => challenge_of(alloc, name, words),
        CallName::Finish => Ok(CallForm::Finish {
            coin: words.number()?,
            exit: words.number()?,
        }),
    }
}

/// The form of a call that the next words spell.
pub fn call(alloc: Global, words: &mut Words<'_>) -> Result<CallForm, LineRefusal>
    ensures found { IfOk result (λ form. take_form calls words.old ≡ Some (form, words.new)) }
    ensures bad { result ≡ Err LineRefusal.BadLine → take_form calls words.old ≡ None }
{
    let word = words.next().ok_or(LineRefusal::BadLine)?;
    let name = named(&CALL_NAMES, word).ok_or(LineRefusal::BadLine)?;
    call_of(alloc, name, words)
}
