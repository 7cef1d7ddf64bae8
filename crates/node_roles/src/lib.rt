//! The nodes that a session commands: a watcher, the operator and a wallet, each over its disks.
#![tactic(auto)]

mod desk;
mod operator;
mod wallet;
mod watcher;

pub use desk::DeskRun;
pub use operator::OperatorRun;
pub use wallet::WalletRun;
pub use watcher::WatcherRun;
