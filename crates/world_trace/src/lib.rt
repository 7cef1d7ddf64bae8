//! What is kept of the lines of a run: of each line what verdicts need, and of all together what they show that excuses
//! a loss. A line's event is that of a node's order or of a call that is entered into the contract.
#![tactic(auto)]

mod asked;
mod deadlines;
mod event;
mod fact;
mod given;
mod kept;
mod offered;
mod read;
mod reading;
mod told;
mod trace;

pub use asked::fact_asked;
pub use event::LineEvent;
pub use fact::{event_of_call, fact_of};
pub use given::{event_of_finished, event_of_given};
pub use kept::event_of_stopped;
pub use node_replies::Reply;
pub use told::fact_told;
pub use trace::Trace;
pub use world_rules::{Exhibit, TraceLine, Verdict, VerdictKind, print_line};
