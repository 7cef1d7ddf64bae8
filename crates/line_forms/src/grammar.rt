ghost use Rattle.std.specs.Prelude.{◌≡◌, ℕ, Bool, true, false, List, ◌++◌, length, take, Some, None, Err, IfOk, OnOk, OnErr};
ghost use Rattle.line_forms.specs.Words.{words_of, line_of_words, trailed};
ghost use Rattle.line_forms.specs.Forms.{Table, Parts, AreParts, words_of_parts, take_form, begins_as, value_in, text_of};
ghost use Rattle.line_forms.specs.Laws.{IsTable};

use super::refusal::LineRefusal;
use super::words::Words;
use plasma_base::NoMemory;
use std::alloc::Global;

/// How the values of a type stand in lines: the names of its forms, their table, and the parts of a
/// value.
pub trait Grammar {
    type Name;

    /// The table of forms.
    ghost table: { Table Self.Name Self };

    /// A value as a row of the table, and its tokens.
    ghost parts: { Self → Parts Self.Name Self table };

    /// Whether the words of a form may have a name or bytes: only these take memory to be read.
    ghost has_bytes: { Self.Name → Bool };

    /// Takes the next words as a value. It refuses `BadLine` exactly where they spell none.
    fn take(alloc: Global, words: &mut Words<'_>) -> Result<Self, LineRefusal>
        ensures found { IfOk result (λ value. take_form table words.old ≡ Some (value, words.new)) }
        ensures bad { result ≡ Err LineRefusal.BadLine → take_form table words.old ≡ None }
        ensures memory { result ≡ Err LineRefusal.NoMemory → begins_as table has_bytes words.old ≡ true };

    /// Puts the words of the value at the end, a blank after each. Where memory runs out some of them
    /// may stand there.
    fn push(&self, out: &mut Vec<u8>) -> Result<(), NoMemory>
        ensures ok { OnOk result (out.new.items ≡ out.old.items ++ trailed (words_of_parts table (parts self.now))) }
        ensures front { take (length out.old.items) out.new.items ≡ out.old.items };
}

/// The value that a line spells, without a line feed. It refuses `BadLine` exactly where it spells
/// none, and takes memory only where its first word begins a form that may have a name or bytes. By a
/// lawful table only values in the grammar are spelled.
#[tactic(auto, unfolding(crate::specs::Forms::value_in))]
pub fn read<G: Grammar + Drop>(alloc: Global, line: &[u8]) -> Result<G, LineRefusal>
    ensures found { IfOk result (λ value. value_in G.table line.now ≡ Some value) }
    ensures bad { result ≡ Err LineRefusal.BadLine → value_in G.table line.now ≡ None }
    ensures memory { result ≡ Err LineRefusal.NoMemory → begins_as G.table G.has_bytes (words_of line.now) ≡ true }
    ensures grammar { IsTable false G.Name G G.table G.parts → IfOk result (λ value. AreParts G.table (G.parts value)) }
{
    let mut words = Words::of(line);
    let value = G::take(alloc, &mut words)?;
    words.end()?;
    Ok(value)
}

/// Puts the spelling of a value at the end, without a line feed. Where memory runs out nothing
/// changes.
pub fn print<G: Grammar>(value: &G, out: &mut Vec<u8>) -> Result<(), NoMemory>
    requires { AreParts G.table (G.parts value.now) }
    ensures ok { OnOk result (out.new.items ≡ out.old.items ++ text_of G.table (G.parts value.now)) }
    ensures err { OnErr result (out.new.items ≡ out.old.items) }
{
    let before = out.len();
    match value.push(out) {
        Ok(()) => {
            out.truncate(out.len() - 1);
            Ok(())
        }
        Err(NoMemory) => {
            out.truncate(before);
            Err(NoMemory)
        }
    }
}

/// A law of every lawful table: what a value is printed as is read back as that value.
pub fn a_printed_value_is_read_back<G: Grammar>()
    ensures { IsTable false G.Name G G.table G.parts → (value : G) → AreParts G.table (G.parts value)
        → value_in G.table (text_of G.table (G.parts value)) ≡ Some value }
{}

/// A law of every lawful table: a value has one spelling. A line that is read as a value is what that
/// value is printed as, and the value is in the grammar.
pub fn a_value_has_one_spelling<G: Grammar>()
    ensures { IsTable false G.Name G G.table G.parts → (line : List ℕ) (value : G) → value_in G.table line ≡ Some value
        → (line ≡ text_of G.table (G.parts value)) × AreParts G.table (G.parts value) }
{}
