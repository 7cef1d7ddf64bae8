//! What a wallet makes of a coin: nothing, or it holds it, is sending it, or is leaving with it.
#![tactic(auto)]

mod coin_state;
mod having;
mod laws;
mod notes;

pub use coin_state::{CoinState, state};
pub use having::{other_coins_are_nothing, own_exiting};
pub use laws::{a_state_is_its_sentence, kept_coins_are_held};
pub use notes::{CoinTip, LeafNumbers, LeafRecord, Notes, Tips};
