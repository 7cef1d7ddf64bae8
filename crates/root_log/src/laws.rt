ghost use Rattle.std.specs.Prelude.{◌≡◌, ℕ, List, [], Some};
ghost use Rattle.plasma_tx.specs.Chain.{Chain, with_log};
ghost use Rattle.plasma_tx.specs.declared.call.RootCall.{RootCall};
ghost use Rattle.schedule_text.specs.declared.line.Line.{Line};
ghost use Rattle.root_log.specs.Calls.{call_of_line, line_of};
ghost use Rattle.root_log.specs.Grammar.{IsLogCall, call_text, call_in, IsLogChain, chain_text, chain_in};

use super::first_line::{MOST_BLOCKS, TAG_BYTES};

/// A law: a call and its line in a schedule are made of each other. Each call has a line, which is that
/// call; and a line that is a call is the line of that call alone.
pub fn a_call_and_its_line_are_one()
    ensures call { (call : RootCall) → call_of_line (line_of call) ≡ Some call }
    ensures line { (line : Line) (call : RootCall) → call_of_line line ≡ Some call → line ≡ line_of call }
{}

/// A law: what a call is printed as is read back as that call.
pub fn a_printed_call_is_read_back()
    ensures { (call : RootCall) → IsLogCall call → call_in (call_text call) ≡ Some call }
{}

/// A law: a call has one spelling. Bytes that are read as a call are what that call is printed as, and
/// the call is in the grammar.
pub fn a_call_has_one_spelling()
    ensures { (bytes : List ℕ) (call : RootCall) → call_in bytes ≡ Some call
        → (bytes ≡ call_text call) × IsLogCall call }
{}

/// A law: what a chain's first line is printed as is read back as the chain without calls.
pub fn a_printed_chain_is_read_back()
    ensures { (chain : Chain) → IsLogChain chain → chain_in (chain_text chain) ≡ Some (with_log chain []) }
{}

/// A law: a first line has one spelling. Bytes that are read as a chain are what that chain is printed
/// as; it is in the grammar, and has no calls.
pub fn a_chain_has_one_spelling()
    ensures { (bytes : List ℕ) (chain : Chain) → chain_in bytes ≡ Some chain
        → (bytes ≡ chain_text chain) × IsLogChain chain × (chain.log ≡ []) }
{}

/// The numbers of the first line: 32 bytes of a tag, and at most 4,294,967,295 blocks.
pub fn the_first_line_has_these_numbers()
    ensures tag { TAG_BYTES ≡ 32 }
    ensures blocks { MOST_BLOCKS ≡ 4294967295 }
{}
