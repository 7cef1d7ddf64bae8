//! The commands of a watcher, run over its node: what each gives out, and what it does to the watcher.
mod laws;
mod running;

pub use laws::{watcher_orders_add_no_leaf, watcher_orders_keep_the_role};
pub use running::run_watcher_order;
