//! Runs of a program as text: a case says what is run and what is expected of it, and is played by what makes the
//! runs, over disks in memory whose calls fail where the case says so. `docs/CASES.md` has the form. Of this crate it
//! is proved that it is safe and ends.
#![tactic(auto)]

mod ask;
mod case_file;
mod digest;
mod disks;
mod matching;
mod names;
mod numbers;
mod playing;
mod report;
mod running;
mod stage;
mod table;

pub use digest::CaseDigest;
pub use playing::{Tally, play_file};
pub use running::Runs;
