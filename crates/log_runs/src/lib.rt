//! Runs over a root contract's log without a node: the log is followed, and behind the line `--` the lines of an audit
//! or of an archive are answered.
#![tactic(auto)]

mod archive;
mod archive_asks;
mod archive_line;
mod audit;
mod causes;
mod follower;
mod laws;
mod log_session;
mod phrases;
mod reading;
mod run;

pub use archive::run_archive;
pub use audit::run_audit;
pub use laws::{an_archive_line_has_one_spelling, lines_that_keep_the_rules_are_answered};
