//! The lines of a node's run behind its log, one command a line: a command of a wallet, of a watcher or of the operator
//! is read as an order of it, or as what else it may be asked.
#![tactic(auto)]

mod laws;
mod operator_line;
mod owner_word;
mod wallet_line;
mod watcher_line;

pub use laws::{a_command_has_one_spelling, a_printed_command_is_read_back};
pub use line_forms::LineRefusal;
pub use operator_line::{OperatorLine, read_operator_line};
pub use wallet_line::{WalletLine, read_wallet_line};
pub use watcher_line::read_watcher_line;
