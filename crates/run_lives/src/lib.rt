//! That the runs of the program are the calls of a node's life. Laws alone.
#![tactic(auto)]

mod laws;

pub use laws::{inits_are_of_their_roles, runs_are_calls};
