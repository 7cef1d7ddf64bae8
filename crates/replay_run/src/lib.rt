//! What the program does: a run reads its words and its input, and writes its output.
#![tactic(auto)]

mod answering;
mod brief;
mod ending;
mod laws;
mod replay;
mod text;
mod top;
mod verifying;

pub use laws::{
    answered_lines_are_a_run, endings_have_their_cause, good_schedules_are_answered,
    lines_are_the_bytes, lines_that_keep_the_rules_are_answered, replays_keep_the_promise,
    the_limits_are_these_numbers,
};
pub use run_endings::Status;
pub use streamed_lines::{MOST_INPUT_BYTES, MOST_LINE_BYTES, MOST_LINES};
pub use top::{Ended, run, run_with};
