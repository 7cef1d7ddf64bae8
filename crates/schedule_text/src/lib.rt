//! The lines of a schedule: one line is read as a `Line`, and printed back.
#![tactic(auto)]

mod call_form;
mod call_names;
mod call_printing;
mod call_reading;
mod command;
mod command_names;
mod command_printing;
mod command_reading;
mod laws;
mod line;
mod names;
mod printing;
mod reading;
mod text;

pub use call_form::{CallForm, ROOT_BYTES};
pub use command::{Command, OperatorCommand, WalletCommand, WatcherCommand};
pub use laws::{
    a_line_has_one_spelling, a_printed_line_is_read_back, the_grammar_has_these_numbers,
    types_in_lines_are_supported,
};
pub use line::{LAST_LEAF, Line, MOST_BLOCKS};
pub use line_forms::{HexOrItem, HexOrName, KEY_BYTES, LineRefusal, OutcomeToken, ShownToken};
pub use text::{print, read};
