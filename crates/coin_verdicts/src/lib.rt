//! What became of each coin, from what verdicts need to know of each line of a run.
#![tactic(auto)]

mod books;
mod fact;
mod laws;
mod note;
mod quiet;
mod reading;
mod run;
mod signers;
mod standing;
mod wallet;

pub use fact::{Fact, KeptOwner, Numbers};
pub use laws::owners_stay_in_runs;
pub use run::verdicts;
pub use wallet::NamedWallet;
