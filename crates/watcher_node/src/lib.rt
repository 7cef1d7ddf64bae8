//! A watcher over a disk: it guards coins by their histories, and says which calls are due for them.
#![tactic(auto)]

mod bundles;
mod commands;
mod duties;
mod making;
mod node;
mod records;
mod role;
mod watched;

pub use node::WatcherNode;
pub use node_rules::{Accepted, WatcherRefusal as NodeRefusal};
