//! A node's whole life: runs of the program one after another on its two disks, with faults and crashes, as laws. It
//! has no code.
#![tactic(auto)]

mod laws;

pub use laws::{
    a_small_life_is_one, a_small_life_with_a_cut_is_one, answered_records_stand, begun_nodes_stay,
    cuts_are_faults, ends_may_be_cut, identities_are_of_their_roles, inits_may_be_cut,
    laws_hold_through_cuts, leaves_give_out_one_message, openings_may_be_cut,
    runs_write_their_answers, sessions_may_be_cut,
};
