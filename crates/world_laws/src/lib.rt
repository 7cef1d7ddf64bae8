//! What is promised of every schedule, as laws over the world's definitions.
#![tactic(auto)]

mod bundle_laws;
mod invariant_laws;
mod laws;
mod signed_laws;

pub use bundle_laws::honest_bundles_are_taken;
pub use invariant_laws::held_coins_stay_watched;
pub use laws::{
    attended_coins_are_looked_after, due_calls_are_taken, held_coins_are_safe,
    looked_after_coins_are_safe, looking_often_is_enough, lost_is_exhibited, one_wallet_holds,
    starts_are_taken, taken_coins_went_unseen, words_are_printed,
};
pub use signed_laws::leaves_sign_one_message;
