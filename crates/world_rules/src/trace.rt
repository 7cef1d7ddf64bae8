use node_replies::Reply;
use plasma_base::Bytes;

/// A line of a trace: the number of the schedule's line, counted from 1, its answer, and the bytes that the
/// line made, which are its mail item.
#[derive(Drop)]
pub struct TraceLine {
    pub line: u64,
    /// Whether the line is a `cut` whose command ended first; the answer is then the command's.
    pub done: bool,
    pub answer: Reply,
    pub made: Bytes,
}
