ghost use Rattle.std.specs.Prelude.{◌≡◌, ◌++◌, ◌∷◌, codes, length, take, OnOk, OnErr};
ghost use Rattle.plasma_base.specs.HexText.{hex_text};
ghost use Rattle.world_rules.specs.Texts.{trace_line_text, verdict_kind_text, verdict_text, exhibit_words, exhibit_text};

use super::trace::TraceLine;
use super::verdict::{Exhibit, Verdict, VerdictKind};
use line_forms::push_number;
use node_replies::{push_phrase, push_reply, push_words, whole};
use plasma_base::{NoMemory, push_hex};

#[tactic(auto, using(line_forms::proofs::PrintLaws::fronts), unfolding(crate::specs::Texts::trace_line_text))]
fn push_line(out: &mut Vec<u8>, line: &TraceLine) -> Result<(), NoMemory>
    ensures ok { OnOk result
        (out.new.items ≡ out.old.items ++ trace_line_text line.now.line line.now.done line.now.answer) }
    ensures front { take (length out.old.items) out.new.items ≡ out.old.items }
{
    push_number(out, line.line)?;
    out.push(b' ')?;
    if line.done {
        push_words(out, b"done ")?;
    }
    push_reply(out, &line.answer)?;
    out.push(b'\n')?;
    Ok(())
}

fn push_kind(out: &mut Vec<u8>, kind: VerdictKind) -> Result<(), NoMemory>
    ensures ok { OnOk result (out.new.items ≡ out.old.items ++ verdict_kind_text kind) }
    ensures front { take (length out.old.items) out.new.items ≡ out.old.items }
{
    match kind {
        VerdictKind::Held => push_words(out, b"held"),
        VerdictKind::Paid => push_words(out, b"paid"),
        VerdictKind::Away => push_words(out, b"away"),
        VerdictKind::Lost => push_words(out, b"lost"),
        VerdictKind::Unattended { line } => push_phrase(out, b"unattended", &[line]),
    }
}

#[tactic(auto, using(line_forms::proofs::PrintLaws::fronts), unfolding(crate::specs::Texts::verdict_text))]
fn push_verdict(out: &mut Vec<u8>, verdict: &Verdict) -> Result<(), NoMemory>
    ensures ok { OnOk result (out.new.items ≡ out.old.items ++ verdict_text verdict.now) }
    ensures front { take (length out.old.items) out.new.items ≡ out.old.items }
{
    push_phrase(out, verdict.wallet.as_slice(), &[verdict.coin])?;
    out.push(b' ')?;
    push_kind(out, verdict.kind)?;
    out.push(b'\n')?;
    Ok(())
}

#[tactic(auto, using(line_forms::proofs::PrintLaws::fronts), unfolding(crate::specs::Texts::exhibit_text))]
fn push_exhibit(out: &mut Vec<u8>, exhibit: &Exhibit) -> Result<(), NoMemory>
    ensures ok { OnOk result (out.new.items ≡ out.old.items ++ exhibit_text exhibit.now) }
    ensures front { take (length out.old.items) out.new.items ≡ out.old.items }
{
    push_exhibit_words(out, exhibit)?;
    out.push(b'\n')?;
    Ok(())
}

fn push_exhibit_words(out: &mut Vec<u8>, exhibit: &Exhibit) -> Result<(), NoMemory>
    ensures ok { OnOk result (out.new.items ≡ out.old.items ++ exhibit_words exhibit.now) }
    ensures front { take (length out.old.items) out.new.items ≡ out.old.items }
{
    match exhibit {
        Exhibit::Nothing => push_words(out, b"no exhibit"),
        Exhibit::Collision { first, second } => push_collision(
            out,
            first.as_slice(),
            second.as_slice(),
        ),
        Exhibit::Forgery { line } => push_phrase(out, b"forgery", &[*line]),
    }
}

#[tactic(auto, using(line_forms::proofs::PrintLaws::fronts))]
fn push_collision(out: &mut Vec<u8>, first: &[u8], second: &[u8]) -> Result<(), NoMemory>
    ensures ok { OnOk result (out.new.items
        ≡ out.old.items ++ codes "collision " ++ hex_text first.now ++ 32 ∷ hex_text second.now) }
    ensures front { take (length out.old.items) out.new.items ≡ out.old.items }
{
    push_words(out, b"collision ")?;
    push_hex(out, first)?;
    out.push(b' ')?;
    push_hex(out, second)
}

/// Puts a trace line at the end: its number, a blank, the answer, with `done ` before it where the line is a
/// `cut` whose command ended first, and a line feed. Where memory runs out nothing changes.
pub fn print_line(line: &TraceLine, out: &mut Vec<u8>) -> Result<(), NoMemory>
    ensures ok { OnOk result
        (out.new.items ≡ out.old.items ++ trace_line_text line.now.line line.now.done line.now.answer) }
    ensures err { OnErr result (out.new.items ≡ out.old.items) }
{
    let before = out.len();
    let put = push_line(out, line);
    whole(out, before, put)
}

/// Puts a verdict line at the end: the wallet's name, the coin and the kind, each after a blank, and a line
/// feed. Where memory runs out nothing changes.
pub fn print_verdict(verdict: &Verdict, out: &mut Vec<u8>) -> Result<(), NoMemory>
    ensures ok { OnOk result (out.new.items ≡ out.old.items ++ verdict_text verdict.now) }
    ensures err { OnErr result (out.new.items ≡ out.old.items) }
{
    let before = out.len();
    let put = push_verdict(out, verdict);
    whole(out, before, put)
}

/// Puts the exhibit line at the end, with its line feed. Where memory runs out nothing changes.
pub fn print_exhibit(exhibit: &Exhibit, out: &mut Vec<u8>) -> Result<(), NoMemory>
    ensures ok { OnOk result (out.new.items ≡ out.old.items ++ exhibit_text exhibit.now) }
    ensures err { OnErr result (out.new.items ≡ out.old.items) }
{
    let before = out.len();
    let put = push_exhibit(out, exhibit);
    whole(out, before, put)
}
