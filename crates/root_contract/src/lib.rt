//! The root contract: it keeps the log of accepted calls and answers each further call by the rules of
//! `plasma_tx`. Beside the log it keeps the standing exits and each account's money.
#![tactic(auto)]

mod calls;
mod contract;
mod effects;
mod exits;
mod judging;
mod settling;
mod shown;
mod stop;
mod views;

pub use contract::Contract;
