ghost use Rattle.std.specs.Prelude.{◌≡◌, [], ◌∷◌, ◌++◌, length, map, take, OnOk, OnErr};
ghost use Rattle.plasma_base.specs.HexText.{hex_text};
ghost use Rattle.line_forms.specs.Words.{trailed};
ghost use Rattle.line_forms.specs.Pieces.{piece_words, words_of_pieces};
ghost use Rattle.line_forms.specs.Tokens.{key, to, bytes, shown, number_text, outcome};

use super::numbers::push_number;
use super::tokens::{HexOrItem, HexOrName, OutcomeToken, ShownToken};
use plasma_base::{NoMemory, push_hex};

/// What words are printed from.
#[derive(Clone, Copy)]
pub enum Piece<'a> {
    /// A word as it stands: the name of a form, or a name token.
    Name(&'a [u8]),
    Number(u64),
    /// Numbers, a word for each.
    Numbers(&'a [u64]),
    Hex(&'a [u8]),
    /// `#` and the number of a line.
    Item(u64),
    Outcome(&'a OutcomeToken),
    /// A number, or no word.
    OptionalNumber(Option<u64>),
}

impl HexOrName {
    /// What a key or a to token is printed from.
    pub fn piece(&self) -> Piece<'_>
        ensures key { piece_words result ≡ key.words self.now }
        ensures to { piece_words result ≡ to.words self.now }
    {
        match self {
            HexOrName::Hex(bytes) => Piece::Hex(bytes.as_slice()),
            HexOrName::Name(name) => Piece::Name(name.as_slice()),
        }
    }
}

impl HexOrItem {
    /// What a bytes token is printed from.
    pub fn piece(&self) -> Piece<'_>
        ensures { piece_words result ≡ bytes.words self.now }
    {
        match self {
            HexOrItem::Hex(bytes) => Piece::Hex(bytes.as_slice()),
            HexOrItem::Item(line) => Piece::Item(*line),
        }
    }
}

impl ShownToken {
    /// What a shown token is printed from.
    pub fn piece(&self) -> Piece<'_>
        ensures { piece_words result ≡ shown.words self.now }
    {
        match self {
            ShownToken::Deposit => Piece::Name(b"-"),
            ShownToken::Bytes(bytes) => bytes.piece(),
        }
    }
}

// Puts a word and a blank at the end.
#[tactic(auto, using(crate::proofs::PrintLaws::fronts))]
fn push_name(out: &mut Vec<u8>, name: &[u8]) -> Result<(), NoMemory>
    ensures ok { OnOk result (out.new.items ≡ out.old.items ++ (name.now ++ 32 ∷ [])) }
    ensures front { take (length out.old.items) out.new.items ≡ out.old.items }
{
    out.extend_from_slice(name)?;
    Ok(out.push(b' ')?)
}

// Puts a number and a blank at the end.
#[tactic(auto, using(crate::proofs::PrintLaws::fronts))]
fn push_count(out: &mut Vec<u8>, count: u64) -> Result<(), NoMemory>
    ensures ok { OnOk result (out.new.items ≡ out.old.items ++ (number_text count ++ 32 ∷ [])) }
    ensures front { take (length out.old.items) out.new.items ≡ out.old.items }
{
    push_number(out, count)?;
    Ok(out.push(b' ')?)
}

// Puts numbers at the end, a blank after each.
#[tactic(auto, using(crate::proofs::PrintLaws::words), unfolding(crate::specs::Words::trailed))]
fn push_counts(out: &mut Vec<u8>, counts: &[u64]) -> Result<(), NoMemory>
    ensures ok { OnOk result (out.new.items ≡ out.old.items ++ trailed (map number_text counts.now)) }
    ensures front { take (length out.old.items) out.new.items ≡ out.old.items }
{
    for count in counts {
        push_count(out, *count)?;
    }
    Ok(())
}

// Puts a hex and a blank at the end.
#[tactic(auto, using(crate::proofs::PrintLaws::fronts))]
fn push_bytes(out: &mut Vec<u8>, bytes: &[u8]) -> Result<(), NoMemory>
    ensures ok { OnOk result (out.new.items ≡ out.old.items ++ (hex_text bytes.now ++ 32 ∷ [])) }
    ensures front { take (length out.old.items) out.new.items ≡ out.old.items }
{
    push_hex(out, bytes)?;
    Ok(out.push(b' ')?)
}

// Puts a `#`, a number and a blank at the end.
#[tactic(auto, using(crate::proofs::PrintLaws::fronts))]
fn push_item(out: &mut Vec<u8>, line: u64) -> Result<(), NoMemory>
    ensures ok { OnOk result (out.new.items ≡ out.old.items ++ (35 ∷ number_text line ++ 32 ∷ [])) }
    ensures front { take (length out.old.items) out.new.items ≡ out.old.items }
{
    out.push(b'#')?;
    push_count(out, line)
}

// Puts an outcome at the end, a blank after each word.
#[tactic(auto, using(crate::proofs::PrintLaws::fronts), unfolding(crate::specs::Words::trailed))]
fn push_outcome(out: &mut Vec<u8>, value: &OutcomeToken) -> Result<(), NoMemory>
    ensures ok { OnOk result (out.new.items ≡ out.old.items ++ trailed (outcome.words value.now)) }
    ensures front { take (length out.old.items) out.new.items ≡ out.old.items }
{
    match value {
        OutcomeToken::Old => push_name(out, b"old"),
        OutcomeToken::New => push_name(out, b"new"),
        OutcomeToken::Mix { extra, bytes } => {
            push_name(out, b"mix")?;
            push_count(out, *extra)?;
            push_bytes(out, bytes.as_slice())
        }
    }
}

// Puts the words of a piece at the end, a blank after each.
#[tactic(auto, using(crate::proofs::PrintLaws::fronts), unfolding(crate::specs::Words::trailed))]
fn push_piece(out: &mut Vec<u8>, piece: Piece<'_>) -> Result<(), NoMemory>
    ensures ok { OnOk result (out.new.items ≡ out.old.items ++ trailed (piece_words piece.entry)) }
    ensures front { take (length out.old.items) out.new.items ≡ out.old.items }
{
    match piece {
        Piece::Name(name) => push_name(out, name),
        Piece::Number(count) => push_count(out, count),
        Piece::Numbers(counts) => push_counts(out, counts),
        Piece::Hex(bytes) => push_bytes(out, bytes),
        Piece::Item(line) => push_item(out, line),
        Piece::Outcome(value) => push_outcome(out, value),
        Piece::OptionalNumber(Some(count)) => push_count(out, count),
        Piece::OptionalNumber(None) => Ok(()),
    }
}

/// Puts the words of pieces at the end, a blank after each. Where memory runs out some of them may
/// stand there.
#[tactic(auto, using(crate::proofs::PrintLaws::words), unfolding(crate::specs::Words::trailed))]
pub fn push_pieces(out: &mut Vec<u8>, pieces: &[Piece<'_>]) -> Result<(), NoMemory>
    ensures ok { OnOk result (out.new.items ≡ out.old.items ++ trailed (words_of_pieces pieces.now)) }
    ensures front { take (length out.old.items) out.new.items ≡ out.old.items }
{
    for piece in pieces {
        push_piece(out, *piece)?;
    }
    Ok(())
}
