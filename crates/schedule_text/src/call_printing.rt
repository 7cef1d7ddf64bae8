ghost use Rattle.std.specs.Prelude.{◌≡◌, [], ◌++◌, true, length, take, OnOk, OnErr};
ghost use Rattle.line_forms.specs.Words.{trailed};
ghost use Rattle.line_forms.specs.Pieces.{words_then};
ghost use Rattle.schedule_text.specs.Grammar.{call, is_challenge};
ghost use Rattle.schedule_text.specs.declared.call_form.CallForm.{CallForm};

use super::call_form::CallForm;
use super::printing::push_row;
use line_forms::Piece::{Hex, Name, Number};
use line_forms::{HexOrItem, Piece, ShownToken, push_pieces};
use plasma_base::NoMemory;

// Puts the words of an `exit` form at the end, a blank after each.
#[tactic(auto, using(line_forms::proofs::PrintLaws::words))]
fn push_exit<'a>(
    out: &mut Vec<u8>,
    coin: u64,
    parent: u64,
    shown: &'a ShownToken,
    exit: u64,
    opening: &'a HexOrItem,
) -> Result<(), NoMemory>
    ensures ok { OnOk result (out.new.items
        ≡ out.old.items ++ trailed (call.words (CallForm.Exit coin parent shown.now exit opening.now))) }
    ensures front { take (length out.old.items) out.new.items ≡ out.old.items }
{
    push_pieces(
        out,
        &[
            Name(b"exit"),
            Number(coin),
            Number(parent),
            shown.piece(),
            Number(exit),
            opening.piece(),
        ],
    )
}

// Puts the words of a challenge, or of an answer to one, at the end, a blank after each.
#[tactic(auto, using(line_forms::proofs::PrintLaws::words))]
fn push_challenge(out: &mut Vec<u8>, form: &CallForm) -> Result<(), NoMemory>
    requires { is_challenge form.now ≡ true }
    ensures ok { OnOk result (out.new.items ≡ out.old.items ++ trailed (call.words form.now)) }
    ensures front { take (length out.old.items) out.new.items ≡ out.old.items }
{
    match form {
        CallForm::After {
            coin,
            exit,
            block,
            opening,
        } => push_row(out, b"after", &[*coin, *exit, *block], opening.piece()),
        CallForm::Between {
            coin,
            exit,
            block,
            opening,
        } => push_row(out, b"between", &[*coin, *exit, *block], opening.piece()),
        CallForm::Before {
            coin,
            exit,
            block,
            shown,
        } => push_row(out, b"before", &[*coin, *exit, *block], shown.piece()),
        CallForm::Respond {
            coin,
            exit,
            challenged,
            block,
            opening,
        } => push_row(
            out,
            b"respond",
            &[*coin, *exit, *challenged, *block],
            opening.piece(),
        ),
        _ => Ok(()),
    }
}

// Puts the words of a form of a call at the end, a blank after each.
#[tactic(auto, using(line_forms::proofs::PrintLaws::words))]
fn push_call(out: &mut Vec<u8>, form: &CallForm) -> Result<(), NoMemory>
    ensures ok { OnOk result (out.new.items ≡ out.old.items ++ trailed (call.words form.now)) }
    ensures front { take (length out.old.items) out.new.items ≡ out.old.items }
{
    match form {
        CallForm::Deposit { amount, key } => push_row(out, b"deposit", &[*amount], key.piece()),
        CallForm::Commit { root } => push_row(out, b"commit", &[], Hex(root.as_slice())),
        CallForm::Start { coin, block } => push_row(out, b"start", &[*coin], Number(*block)),
        CallForm::Exit {
            coin,
            parent,
            shown,
            exit,
            opening,
        } => push_exit(out, *coin, *parent, shown, *exit, opening),
        CallForm::Finish { coin, exit } => push_row(out, b"finish", &[*coin], Number(*exit)),
        _ => push_challenge(out, form),
    }
}

/// Puts the words of pieces and of a form of a call at the end, a blank after each.
#[tactic(auto, using(line_forms::proofs::PrintLaws::words))]
pub fn push_with_call(
    out: &mut Vec<u8>,
    pieces: &[Piece<'_>],
    form: &CallForm,
) -> Result<(), NoMemory>
    ensures ok { OnOk result (out.new.items
        ≡ out.old.items ++ trailed (words_then pieces.now (call.words form.now ++ []))) }
    ensures front { take (length out.old.items) out.new.items ≡ out.old.items }
{
    push_pieces(out, pieces)?;
    push_call(out, form)
}
