//! Money by account: what each account may spend, and what is held of it until it is paid on or given
//! back.
#![tactic(auto)]

mod entries;
mod laws;
mod ledger;

pub use entries::Sums;
pub use laws::{held_money_is_of_known_accounts, the_limit_is_this_number};
pub use ledger::{Ledger, NoFunds, SumTooLarge};

/// The most money that is ever funded: 2 ^ 62.
pub const MOST_MONEY: u64 = 4_611_686_018_427_387_904;
