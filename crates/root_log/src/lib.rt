//! A root contract's log as text: the first line names the chain, and each further line is a call.
//! A line is read into a log, and a call is printed as a line. The calls are taken at their word.
#![tactic(auto)]

mod calls;
mod end_of_log;
mod first_line;
mod laws;
mod lines;
mod refusal;
mod text;

pub use calls::call_of;
pub use end_of_log::is_end_of_log;
pub use first_line::{MOST_BLOCKS, TAG_BYTES};
pub use laws::{
    a_call_and_its_line_are_one, a_call_has_one_spelling, a_chain_has_one_spelling,
    a_printed_call_is_read_back, a_printed_chain_is_read_back, the_first_line_has_these_numbers,
};
pub use refusal::LogRefusal;
pub use text::{print_call, print_chain, read_call, read_chain, read_line};
