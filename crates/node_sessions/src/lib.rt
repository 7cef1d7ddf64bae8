//! A session of a node: a root contract's log is read, line by line, and behind the line `--` commands are answered.
#![tactic(auto)]

mod commanded;
mod laws;
mod log;
mod said;
mod session;

pub use commanded::Commanded;
pub use laws::done_commands_are_answered;
pub use log::{first_log, read_call};
pub use said::Said;
pub use session::Session;
