//! The calls that are due: what a guardian of coins enters against the standing exits of a log.
#![tactic(auto)]

mod due;
mod guard;
mod laws;
mod watch;

pub use due::{duty, push_due};
pub use guard::Guard;
pub use laws::{
    due_calls_are_accepted, due_calls_are_by_place, links_are_by_place,
    nothing_is_due_without_exits, one_challenge_is_due,
};
