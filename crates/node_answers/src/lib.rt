//! What a node's command is answered in a run of its own, as text: its answer, the bytes that it makes, and the calls
//! that it offers; or the cause for which it is refused.
#![tactic(auto)]

mod keyed;
mod operator;
mod receipts;
mod said;
mod wallet;
mod watcher;

pub use keyed::{KeyedOperator, answer_keyed};
pub use operator::answer_operator;
pub use wallet::answer_wallet;
pub use watcher::answer_watcher;
