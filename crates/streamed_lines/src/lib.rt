//! The lines of an input, each answered before more of the input is taken than a room.
#![tactic(auto)]

mod answerer;
mod answering;
mod ending;
mod laws;
mod lines;
mod reading;
mod stream;

pub use answerer::Answerer;
pub use ending::{Break, Ending, Halt, Stop};
pub use laws::beginnings_wait;
pub use stream::{answer_lines, put_text};

/// The most lines of an input.
pub const MOST_LINES: u64 = 200_000;

/// The most bytes of a line, without its line feed.
pub const MOST_LINE_BYTES: u64 = 8_388_608;

/// The most bytes of an input.
pub const MOST_INPUT_BYTES: u64 = 67_108_864;
