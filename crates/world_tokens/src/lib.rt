//! What the tokens of a schedule's line stand for in a world, as values; and the strangers that a schedule
//! gives names to.
#![tactic(auto)]

mod calls;
mod identities;
mod items;
mod keys;
mod outcomes;
mod replies;
mod rogue;

pub use calls::call_of;
pub use identities::{declared_wallet, key_of_hex, owner_of_hex, padded, types_or_first};
pub use items::{bytes_of, opening_of, shown_of};
pub use keys::{KeyPlace, KeyPlaces};
pub use outcomes::outcome_of;
pub use replies::reply_to;
pub use rogue::Rogue;
