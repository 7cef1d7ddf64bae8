//! What orders of nodes are, and what they do: the answer of each, the bytes that it makes, the calls that it offers
//! and the record that it adds. And in code what is given out, and the text of answers and of the causes of refusals.
#![tactic(auto)]

mod causes;
mod given;
mod offering;
mod order;
mod replies;
mod reply;
mod words;

pub use causes::{
    contract_cause, history_cause, lay_cause, offer_cause, prove_cause, wallet_cause, watcher_cause,
};
pub use given::{Given, makes, offers, refused, says};
pub use offering::offer_kinds;
pub use order::{NodeOrder, OperatorOrder, WalletOrder, WatcherOrder};
pub use replies::{print_reply, push_reply};
pub use reply::{OfferKind, OfferKinds, Reply};
pub use words::{push_phrase, push_words, whole};
