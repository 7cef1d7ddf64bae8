ghost use Rattle.streamed_lines.specs.Streams.{Rules};
ghost use Rattle.streamed_lines.specs.Laws.{BeginningsWait};

use super::answerer::Answerer;

/// The stream of a beginning of an input that may go on ends as a read fault where the stream of the whole input is
/// complete: so no line of a complete input ends it, however far it was read.
pub fn beginnings_wait<A: Answerer>()
    ensures { (rules : Rules A.Run A.Cause) → BeginningsWait rules }
{}
