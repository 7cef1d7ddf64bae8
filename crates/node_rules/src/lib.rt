//! What wallets and watchers do, as definitions: their records, and for each command its answer, the record
//! that it adds and what it makes, by the records and the log. And the coins that both keep, in code: a
//! bundle that is handed in is checked and its links are spelled as a record, a record is read back, and the
//! calls are found that are due for the coin.
#![tactic(auto)]

mod answers;
mod due;
mod handed;
mod identity;
mod kept_coin;
mod laws;
mod reading;
mod refusal;
mod wallet_laws;
mod watcher_laws;

pub use answers::{Accepted, Reclaimed, Sent};
pub use due::push_due_for;
pub use handed::{kept_text, links_handed};
pub use identity::WalletIdentity;
pub use kept_coin::KeptCoin;
pub use laws::kept_histories_are_read_back;
pub use reading::{number_at, read_kept};
pub use refusal::{WalletRefusal, WatcherRefusal};
pub use wallet_laws::{
    held_coins_may_leave, wallet_commands_add_their_records, wallet_commands_keep_the_role,
    wallet_records_have_one_spelling, wallets_do_their_duty,
};
pub use watcher_laws::{
    watcher_commands_keep_the_role, watcher_records_have_one_spelling, watchers_do_their_duty,
};
