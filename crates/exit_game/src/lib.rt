//! The slots of the exit game: what is kept of each standing exit, and its challenges.
#![tactic(auto)]

mod challenges;
mod game;
mod laws;
mod slot;
mod slots;

pub use challenges::{Challenge, Challenges};
pub use game::Game;
pub use laws::a_last_challenge_is_taken_back;
pub use slot::Slot;
