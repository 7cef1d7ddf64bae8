//! The commands of a wallet, a watcher and the operator, run over their nodes: what each gives out, and what it does to
//! the node and its disks.
#![tactic(auto)]

mod operator;
mod wallet;
mod watcher;

pub use operator::{
    operator_orders_add_no_leaf, operator_orders_keep_the_role, run_operator_order,
};
pub use wallet::{run_wallet_order, wallet_orders_add_one_record, wallet_orders_keep_the_role};
pub use watcher::{run_watcher_order, watcher_orders_add_no_leaf, watcher_orders_keep_the_role};
