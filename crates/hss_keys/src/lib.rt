//! Two-level keys with SHA-256 (RFC 8554, section 6): each leaf of a top key signs a bottom key, whose leaves sign
//! messages. A journal on a disk keeps which leaves of both levels are bound, so that each signs at most once,
//! whatever fails or crashes.
#![tactic(auto)]

mod bound;
mod entry;
mod fields;
mod laws;
mod levels;
mod message;
mod reading;
mod records;
mod refusal;
mod secret;
mod seed;
mod sizes;
mod verify;

pub use bound::HssBound;
pub use laws::{
    bounds_stay, entries_are_read_back, entries_have_one_spelling, hss_signatures_are_valid,
    kept_bounds_stay, level_journals_stay, no_leaf_signs_two_messages, stopped_level_appends,
    valid_hss_signatures_pass,
};
pub use levels::Levels;
pub use refusal::LevelRefusal;
pub use secret::HssSecret;
pub use seed::HssSeed;
pub use verify::hss_verify;
