//! The operator of a chain over a disk: the pool and the sealed trees, the commands that change them, and
//! the openings that they show.
#![tactic(auto)]

mod beginning;
mod ends;
mod offering;
mod operator;
mod pool;
mod rebuild;
mod records;
mod role;
mod showing;
mod trees;
mod walk;

pub use operator::Operator;
pub use operator_rules::{LayRefusal, OfferRefusal, ProveRefusal, SealRefusal, Sealed};
