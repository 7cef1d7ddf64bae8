//! A node of a world over disks in memory: a wallet, a watcher or the operator, which is up or down. It runs
//! orders, crashes, and cuts orders short.
#![tactic(auto)]

mod boxed;
mod crashing;
mod cutting;
mod declaring;
mod down;
mod entry;
mod kept;
mod opening;
mod order;
mod running;
mod up;

pub use entry::Entry;
pub use order::{CutEnd, NodeKind};
