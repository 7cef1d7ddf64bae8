//! What guarding takes in money, as laws over the world's definitions.
#![tactic(auto)]

mod laws;

pub use laws::{
    a_reserve_suffices, bonds_come_back, bounds_are_tight, due_challenges_stay_open,
    guarding_costs_nothing, leaving_first_needs_no_reserve,
};
