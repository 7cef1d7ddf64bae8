//! How a run of the program ends: its status, the answers and the last line that it writes, and what that says of its
//! sink, its source and its disks.
#![tactic(auto)]

mod ending;
mod status;
mod text;

pub use ending::{push_last, put_last, status_of};
pub use status::Status;
pub use text::{push_already_made, push_not_journal, push_refused, put_line};
