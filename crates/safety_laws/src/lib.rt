//! What a look at a coin says, as laws over the world's definitions.
#![tactic(auto)]

mod laws;

pub use laws::{
    acts_are_accepted, enough_is_enough, gone_means_gone, looks_are_enough, safe_means_safe,
};
