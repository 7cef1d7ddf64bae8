//! That the keys of a two-level signer and of an operator sign once each leaf, over a whole life: laws of the lives of
//! `node_lives`. It has no code.
#![tactic(auto)]

mod laws;

pub use laws::{
    a_small_desks_life_is_one, a_small_signers_life_is_one, begun_signers_stay, desks_promise_once,
    keys_hold_through_cuts, signed_records_stand, signers_lives_sign_once, signings_may_be_cut,
    signings_write_their_answers,
};
