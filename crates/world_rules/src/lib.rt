//! The world of a schedule, as definitions: what each line does to the contract and to the nodes, the trace that
//! it leaves, its verdicts, and the words of what is promised of it. And in code the text of a trace: its lines,
//! verdicts and exhibit.
#![tactic(auto)]

mod act_laws;
mod counts;
mod kept_laws;
mod laws;
mod printing;
mod trace;
mod verdict;
mod verdict_laws;

pub use act_laws::{acts_are_known, acts_are_steps};
pub use counts::print_counts;
pub use kept_laws::events_are_what_disks_keep;
pub use laws::{
    cuts_keep_as_appends_do, down_nodes_stay, items_are_made, lines_that_keep_the_rules_step,
    offers_are_of_events, records_grow, steps_keep_the_log, the_limits_are_these_numbers,
};
pub use printing::{print_exhibit, print_line, print_verdict};
pub use trace::TraceLine;
pub use verdict::{Counts, Exhibit, Verdict, VerdictKind};
pub use verdict_laws::verdicts_are_given_once;

/// The most wallets of a schedule.
pub const MOST_WALLETS: u64 = 64;

/// The most bytes of all mail items of a schedule together.
pub const MOST_MAIL: u64 = 268_435_456;
