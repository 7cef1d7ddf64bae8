ghost use Rattle.std.specs.Prelude.{◌≡◌, ℕ, List, true, Some};
ghost use Rattle.lms_sign.specs.declared.types.LmsTypes.{LmsTypes};
ghost use Rattle.lms_sign.specs.Types.{is_supported};
ghost use Rattle.schedule_text.specs.declared.line.Line.{Line};
ghost use Rattle.schedule_text.specs.Grammar.{IsLine, line_text, line_in, types};

use super::call_form::ROOT_BYTES;
use super::line::{LAST_LEAF, MOST_BLOCKS};

/// A law: what a line is printed as is read back as that line.
pub fn a_printed_line_is_read_back()
    ensures { (line : Line) → IsLine line → line_in (line_text line) ≡ Some line }
{}

/// A law: a line has one spelling. Bytes that are read as a line are what that line is printed as,
/// and the line is in the grammar.
pub fn a_line_has_one_spelling()
    ensures { (bytes : List ℕ) (line : Line) → line_in bytes ≡ Some line → (bytes ≡ line_text line) × IsLine line }
{}

/// A law: the types that a line may have are those that keys may have.
pub fn types_in_lines_are_supported()
    ensures supported { (value : LmsTypes) → types.Is value → is_supported value ≡ true }
    ensures each { (value : LmsTypes) → is_supported value ≡ true → types.Is value }
{}

/// The numbers of the grammar: at most 3,000 blocks, 32 bytes of a root, and leaves up to 1,023.
pub fn the_grammar_has_these_numbers()
    ensures blocks { MOST_BLOCKS ≡ 3000 }
    ensures root { ROOT_BYTES ≡ 32 }
    ensures leaf { LAST_LEAF ≡ 1023 }
{}
