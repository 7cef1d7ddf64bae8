//! A journal on a disk: each record is on the disk before it is acknowledged, and a crash at any moment
//! leaves the records with the one that is being added or without.
#![tactic(auto)]

mod image;
mod journal;
mod laws;
mod make;
mod opening;
mod refusal;
mod steps;

pub use journal::Journal;
pub use laws::{
    appended_records_stay, appends_settle, made_journals_stay, read_is_spelled, records_stay,
    spelled_is_read, stopped_appends, stopped_makings, stopped_openings,
};
pub use refusal::{InitRefusal, JournalRefusal, Returned};
