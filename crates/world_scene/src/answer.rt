use node_replies::Reply;
use plasma_base::Bytes;
use world_trace::LineEvent;

/// What a line is answered, the bytes that it makes, which are its mail item, and the event that it is.
#[derive(Drop)]
pub struct LineAnswer {
    /// Whether the line is a `cut` whose command ended first; the answer is then the command's.
    pub done: bool,
    pub reply: Reply,
    pub made: Bytes,
    pub event: LineEvent,
}
