//! An archive of openings: a service that follows the log of a root contract, keeps what committed blocks
//! have at coins as the blocks come, and hands out a coin's bundle long after the operator has gone.
#![tactic(auto)]

mod archive;
mod cells;
mod coin;
mod laws;
mod putting;
mod refusal;

pub use archive::Archive;
pub use laws::bundles_are_histories;
pub use refusal::ArchiveRefusal;
