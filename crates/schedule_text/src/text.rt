ghost use Rattle.std.specs.Prelude.{◌≡◌, ◌++◌, true, Some, None, Err, IfOk, OnOk, OnErr};
ghost use Rattle.schedule_text.specs.Grammar.{line_in, line_text, IsLine, begins_with_bytes};

use super::line::Line;
use super::names::LineName;
use super::printing::push_line;
use super::reading::{line_name, line_of};
use line_forms::{Grammar, LineRefusal, Words};
use plasma_base::NoMemory;
use std::alloc::Global;

impl Grammar for Line {
    ghost use Rattle.schedule_text.specs.Grammar.{lines, line_parts, has_bytes};

    type Name = LineName;

    ghost table = { lines };

    ghost parts = { line_parts };

    ghost has_bytes = { has_bytes };

    fn take(alloc: Global, words: &mut Words<'_>) -> Result<Line, LineRefusal> {
        let word = words.next().ok_or(LineRefusal::BadLine)?;
        let name = line_name(word).ok_or(LineRefusal::BadLine)?;
        line_of(alloc, name, words)
    }

    fn push(&self, out: &mut Vec<u8>) -> Result<(), NoMemory> {
        push_line(out, self)
    }
}

/// The line that bytes spell, without a line feed. It refuses `BadLine` exactly where they spell none, and takes memory
/// only where the first word begins a form that may have a name or bytes.
#[tactic(auto, unfolding(crate::specs::Grammar::line_in))]
pub fn read(alloc: Global, text: &[u8]) -> Result<Line, LineRefusal>
    ensures found { IfOk result (λ line. line_in text.now ≡ Some line) }
    ensures bad { result ≡ Err LineRefusal.BadLine → line_in text.now ≡ None }
    ensures memory { result ≡ Err LineRefusal.NoMemory → begins_with_bytes text.now ≡ true }
    ensures grammar { IfOk result IsLine }
{
    line_forms::read(alloc, text)
}

/// Puts the spelling of a line at the end, without a line feed. Where memory runs out nothing changes.
#[tactic(auto, unfolding(crate::specs::Grammar::line_text))]
pub fn print(line: &Line, out: &mut Vec<u8>) -> Result<(), NoMemory>
    requires { IsLine line.now }
    ensures ok { OnOk result (out.new.items ≡ out.old.items ++ line_text line.now) }
    ensures err { OnErr result (out.new.items ≡ out.old.items) }
{
    line_forms::print(line, out)
}
