//! What guarding takes in money, and what a look says, of a chain with its nodes. It has no code.
#![tactic(auto)]

mod laws;

pub use laws::{guarding_lives, looking_at_lives};
