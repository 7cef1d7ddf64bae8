//! A chain with the lives of its nodes: which events it comes to, and two worked ones. It has no code.
#![tactic(auto)]

mod laws;

pub use laws::{
    a_small_chain_is_one, a_small_chain_with_a_cut_is_one, beginnings_are_legal, chains_are_legal,
    chains_are_read, chains_with_cuts_are_chains, entries_are_legal, events_hold_the_chain,
    lives_keep_their_coins,
};
