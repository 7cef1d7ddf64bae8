//! Are the coins of a node safe: its records and a log of the root chain are read, and of each coin it is said how it
//! stands, and what has to be entered.
#![tactic(auto)]

mod case;
mod guards;
mod holdings;
mod image;
mod lasts;
mod look;
mod node;
mod role;
mod saying;
mod session;
mod told;
mod top;

pub use run_endings::Status;
pub use top::{Ended, run, run_with};
