//! Runs of single nodes: the disks of a watcher, an operator or a wallet are opened, or begun, and a session's lines
//! are answered.
#![tactic(auto)]

mod ending;
mod init;
mod opening;
mod operator;
mod session;
mod wallet;
mod watcher;

pub use init::{init_operator, init_operator_with_key, init_wallet, init_watcher, put_init_answer};
pub use opening::put_opening_refusal;
pub use operator::run_operator;
pub use wallet::run_wallet;
pub use watcher::run_watcher;
