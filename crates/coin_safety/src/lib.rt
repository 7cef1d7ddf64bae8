//! Is a coin safe, what has to be entered, by when, and with how much money: the answer of one look at a log.
#![tactic(auto)]

mod advice;
mod answers;
mod command;
mod index;
mod judging;
mod kept;
mod laws;
mod lean;
mod leaving;
mod left;
mod look;
mod money;
mod payment;
mod windows;
mod word;

pub use judging::judge;
pub use kept::{Kept, Sent};
pub use laws::{acts_are_accepted, enough_is_enough, nothing_due_is_left_out, words_tell};
pub use money::{balance, takes};
pub use payment::Payment;
pub use windows::LAST_SECOND;
pub use word::{Command, Judgement, Word};
