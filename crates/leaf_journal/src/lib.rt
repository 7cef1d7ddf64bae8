//! The leaves of a key over a disk: each signs at most one message, whatever fails or crashes.
#![tactic(auto)]

mod bound;
mod kind;
mod laws;
mod leaves;
mod reading;
mod records;
mod refusal;
mod short;

pub use bound::Bound;
pub use kind::MessageKind;
pub use laws::{
    a_leaf_has_one_message, bound_messages_stay, kind_records, made_journals_stay, stopped_binds,
    stopped_migrations,
};
pub use leaves::Leaves;
pub use refusal::{BindRefusal, MigrateRefusal};
