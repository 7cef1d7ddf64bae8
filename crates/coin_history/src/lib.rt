//! The history of a coin: what committed blocks have at it since its deposit, as a bundle of openings,
//! and the check that the bundle shows the coin's whole history up to its tip.
#![tactic(auto)]

mod absence;
mod bundle;
mod checking;
mod coverage;
mod laws;
mod reading;
mod refusal;
mod spelling;

pub use absence::absent;
pub use bundle::{Bundle, Openings};
pub use checking::{check, check_tagged};
pub use coverage::{Span, first_asked, is_asked, leaf_at, next_block, root_at};
pub use laws::{
    a_history_has_its_shape, absences_are_checked, absences_exclude_links, histories_agree,
    histories_are_checked, histories_have_beginnings, histories_have_one_meaning, histories_stay,
    refusals_are_their_own, refusals_come_behind_links,
};
pub use refusal::HistoryRefusal;
pub use spelling::bundles_have_one_spelling;
