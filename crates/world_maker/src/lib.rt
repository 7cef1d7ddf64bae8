//! The generator of schedules: a seed and a count make a schedule of honest wallets that deposit, pay,
//! accept, exit, watch and crash. Equal seeds and counts make equal schedules.
#![tactic(auto)]

mod generator;
mod laws;
mod lines;
mod round;

pub use generator::{MOST_ROUNDS, make};
pub use laws::{lines_are_in_the_grammar, lines_keep_the_rules, the_limit_is_this_number};
