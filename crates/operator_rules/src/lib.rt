//! What the operator of a chain does, as definitions: its records, its pool and sealed trees, the answer to
//! each of its commands, and when a bundle that it makes is a history.
#![tactic(auto)]

mod laws;
mod refusal;
mod sealed;

pub use laws::{
    bundles_are_histories, commands_keep_the_role, records_have_one_spelling,
    the_limit_is_this_number, zero_asks_for_the_present_tip,
};
pub use refusal::{LayRefusal, OfferRefusal, ProveRefusal, SealRefusal};
pub use sealed::Sealed;

/// The most bytes that are laid at a coin.
pub const MOST_LAID: u64 = 65_536;
