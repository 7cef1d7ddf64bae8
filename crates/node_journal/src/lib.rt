//! The records of a node over a gated journal, proved once for all nodes: what a command that appends at most
//! one record did, what an opening did, and how a journal is begun.
#![tactic(auto)]

mod init;
mod laws;
mod notes;
mod role;
mod stop;

pub use init::{NotBegun, begin, begin_journal, begin_pair};
pub use laws::{
    inits_end_begun, inits_make_few_calls, inits_may_be_repeated, notes_follow,
    prepared_journals_are_empty, refused_pairs_stay, stopped_preparations,
};
pub use notes::Notes;
pub use role::Role;
pub use stop::Stop;
