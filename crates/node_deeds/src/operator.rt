//! The commands of the operator, run over its disk: what each gives out, and what it does to the operator.
mod adding;
mod laws;
mod running;
mod showing;

pub use laws::{operator_orders_add_no_leaf, operator_orders_keep_the_role};
pub use running::run_operator_order;
