ghost use Rattle.std.specs.Prelude.{◌≡◌, ◌∷◌, ◌++◌, [], true, codes, length, map, take, OnOk, OnErr};
ghost use Rattle.line_forms.specs.Words.{trailed};
ghost use Rattle.line_forms.specs.Forms.{words_of_parts};
ghost use Rattle.line_forms.specs.Pieces.{piece_words, words_then};
ghost use Rattle.line_forms.specs.Tokens.{number_text, to, optional_number};
ghost use Rattle.schedule_text.specs.declared.line.Line.{Line};
ghost use Rattle.schedule_text.specs.Grammar.{lines, line_parts, is_of_nodes, optional_types};

use super::call_printing::push_with_call;
use super::command::Command;
use super::command_printing::{push_command, push_with_command};
use super::line::Line;
use line_forms::Piece::{Name, Number, Numbers, OptionalNumber, Outcome};
use line_forms::{HexOrName, OutcomeToken, Piece, push_pieces};
use lms_sign::LmsTypes;
use plasma_base::{Bytes, NoMemory};

/// Puts a name, numbers and one piece at the end, a blank after each word.
#[tactic(auto, using(line_forms::proofs::PrintLaws::words))]
pub fn push_row(
    out: &mut Vec<u8>,
    name: &[u8],
    numbers: &[u64],
    last: Piece<'_>,
) -> Result<(), NoMemory>
    ensures ok { OnOk result (out.new.items
        ≡ out.old.items ++ trailed (name.now ∷ map number_text numbers.now ++ piece_words last.entry)) }
    ensures front { take (length out.old.items) out.new.items ≡ out.old.items }
{
    push_pieces(out, &[Name(name), Numbers(numbers), last])
}

// Puts a line's first word, a name and one piece at the end, a blank after each word.
#[tactic(auto, using(line_forms::proofs::PrintLaws::words))]
fn push_named(out: &mut Vec<u8>, word: &[u8], name: &Bytes, last: Piece<'_>) -> Result<(), NoMemory>
    ensures ok { OnOk result (out.new.items ≡ out.old.items ++ trailed (word.now ∷ name.now ∷ piece_words last.entry)) }
    ensures front { take (length out.old.items) out.new.items ≡ out.old.items }
{
    push_pieces(out, &[Name(word), Name(name.as_slice()), last])
}

// Puts the types of a key at the end, a blank after each, or nothing.
#[tactic(auto, using(line_forms::proofs::PrintLaws::words))]
fn push_types(out: &mut Vec<u8>, types: &Option<LmsTypes>) -> Result<(), NoMemory>
    ensures ok { OnOk result (out.new.items ≡ out.old.items ++ trailed (optional_types.words types.now)) }
    ensures front { take (length out.old.items) out.new.items ≡ out.old.items }
{
    match types {
        Some(types) => push_pieces(
            out,
            &[Number(u64::from(types.lms)), Number(u64::from(types.ots))],
        ),
        None => push_pieces(out, &[]),
    }
}

// Puts the words of pieces and the types of a key at the end, a blank after each.
#[tactic(auto, using(line_forms::proofs::PrintLaws::words))]
fn push_with_types(
    out: &mut Vec<u8>,
    pieces: &[Piece<'_>],
    types: &Option<LmsTypes>,
) -> Result<(), NoMemory>
    ensures ok { OnOk result (out.new.items
        ≡ out.old.items ++ trailed (words_then pieces.now (optional_types.words types.now ++ []))) }
    ensures front { take (length out.old.items) out.new.items ≡ out.old.items }
{
    push_pieces(out, pieces)?;
    push_types(out, types)
}

// Puts a line's first word at the end, and who has a key: a name, two numbers, and the key's types.
#[tactic(auto, using(line_forms::proofs::PrintLaws::words))]
fn push_keyed<'a>(
    out: &mut Vec<u8>,
    word: &'a [u8],
    name: &'a Bytes,
    numbers: &'a [u64],
    types: &Option<LmsTypes>,
) -> Result<(), NoMemory>
    ensures ok { OnOk result (out.new.items ≡ out.old.items
        ++ trailed (word.now ∷ name.now ∷ map number_text numbers.now ++ (optional_types.words types.now ++ []))) }
    ensures front { take (length out.old.items) out.new.items ≡ out.old.items }
{
    push_with_types(
        out,
        &[Name(word), Name(name.as_slice()), Numbers(numbers)],
        types,
    )
}

// Puts the words of a `sign` line at the end; the numbers are the leaf, the coin and the parent.
#[tactic(auto, using(line_forms::proofs::PrintLaws::words))]
fn push_sign<'a>(
    out: &mut Vec<u8>,
    rogue: &'a Bytes,
    numbers: &'a [u64],
    recipient: &'a HexOrName,
    last: Option<u64>,
) -> Result<(), NoMemory>
    ensures ok { OnOk result (out.new.items ≡ out.old.items
        ++ trailed (codes "sign" ∷ rogue.now
        ∷ map number_text numbers.now ++ (to.words recipient.now ++ optional_number.words last))) }
    ensures front { take (length out.old.items) out.new.items ≡ out.old.items }
{
    push_pieces(
        out,
        &[
            Name(b"sign"),
            Name(rogue.as_slice()),
            Numbers(numbers),
            recipient.piece(),
            OptionalNumber(last),
        ],
    )
}

// Puts the words of a `cut` line at the end, a blank after each.
#[tactic(auto, using(line_forms::proofs::PrintLaws::words))]
fn push_cut<'a>(
    out: &mut Vec<u8>,
    node: &'a Bytes,
    calls: u64,
    outcome: &'a OutcomeToken,
    command: &Command,
) -> Result<(), NoMemory>
    ensures ok { OnOk result (out.new.items ≡ out.old.items
        ++ trailed (words_of_parts lines (line_parts (Line.Cut node.now calls outcome.now command.now)))) }
    ensures front { take (length out.old.items) out.new.items ≡ out.old.items }
{
    push_with_command(
        out,
        &[
            Name(b"cut"),
            Name(node.as_slice()),
            Number(calls),
            Outcome(outcome),
        ],
        command,
    )
}

// Puts the words of a line of nodes at the end, a blank after each.
#[tactic(auto, using(line_forms::proofs::PrintLaws::words))]
fn push_line_of_nodes(out: &mut Vec<u8>, line: &Line) -> Result<(), NoMemory>
    requires { is_of_nodes line.now ≡ true }
    ensures ok { OnOk result (out.new.items ≡ out.old.items ++ trailed (words_of_parts lines (line_parts line.now))) }
    ensures front { take (length out.old.items) out.new.items ≡ out.old.items }
{
    match line {
        Line::Wallet {
            name,
            account,
            seed,
            types,
        } => push_keyed(out, b"wallet", name, &[*account, *seed], types),
        Line::Watcher { name, account } => push_named(out, b"watcher", name, Number(*account)),
        Line::Rogue {
            name,
            account,
            seed,
            types,
        } => push_keyed(out, b"rogue", name, &[*account, *seed], types),
        Line::Deposit { wallet, amount } => push_named(out, b"deposit", wallet, Number(*amount)),
        Line::Enter { node, number } => push_named(out, b"enter", node, Number(*number)),
        Line::Command { command } => push_command(out, command),
        Line::Sign {
            rogue,
            leaf,
            coin,
            parent,
            to,
            last,
        } => push_sign(out, rogue, &[*leaf, *coin, *parent], to, *last),
        Line::Crash { node, outcome } => push_named(out, b"crash", node, Outcome(outcome)),
        Line::Cut {
            node,
            calls,
            outcome,
            command,
        } => push_cut(out, node, *calls, outcome, command),
        _ => Ok(()),
    }
}

/// Puts the words of a line at the end, a blank after each. Where memory runs out some of them may
/// stand there.
pub fn push_line(out: &mut Vec<u8>, line: &Line) -> Result<(), NoMemory>
    ensures ok { OnOk result (out.new.items ≡ out.old.items ++ trailed (words_of_parts lines (line_parts line.now))) }
    ensures front { take (length out.old.items) out.new.items ≡ out.old.items }
{
    match line {
        Line::Chain {
            tag,
            operator,
            most,
        } => push_row(out, b"chain", &[*tag, *operator], Number(*most)),
        Line::Fund { account, amount } => push_row(out, b"fund", &[*account], Number(*amount)),
        Line::Tick { time } => push_row(out, b"tick", &[], Number(*time)),
        Line::Money { account } => push_row(out, b"money", &[], Number(*account)),
        Line::Call { account, form } => {
            push_with_call(out, &[Name(b"call"), Number(*account)], form)
        }
        _ => push_line_of_nodes(out, line),
    }
}
