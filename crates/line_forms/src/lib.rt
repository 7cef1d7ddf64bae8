//! Lines of text as tables of forms: a line is cut into words, a word is a token of some kind, and a
//! form is a name and the kinds of the words after it. What is printed is read back, and a line has
//! one spelling: both are proved once, for every table.
#![tactic(auto)]

mod grammar;
mod laws;
mod names;
mod numbers;
mod pieces;
mod reading;
mod refusal;
mod tokens;
mod words;

pub use grammar::{Grammar, a_printed_value_is_read_back, a_value_has_one_spelling, print, read};
pub use laws::{the_kinds_are_lawful, the_tokens_have_these_lengths};
pub use names::named;
pub use numbers::{number, push_number};
pub use pieces::{Piece, push_pieces};
pub use refusal::LineRefusal;
pub use tokens::{
    HexOrItem, HexOrName, KEY_BYTES, NAME_BYTES, OWNER_BYTES, OutcomeToken, ShownToken,
};
pub use words::Words;
