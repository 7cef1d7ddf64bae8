//! A wallet's commands, run over its node: what they give out, and what they do to its disks.
mod causes;
mod laws;
mod leaf_orders;
mod note_orders;
mod running;

pub use laws::{wallet_orders_add_one_record, wallet_orders_keep_the_role};
pub use running::run_wallet_order;
