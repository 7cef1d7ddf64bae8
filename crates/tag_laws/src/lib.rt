//! What records, transfers and promises of another chain's tag can't do, as laws. It has no code.
#![tactic(auto)]

mod laws;

pub use laws::{
    accepted_calls_have_the_tag, accepted_histories_have_the_tag, audited_promises_have_the_tag,
    given_receipts_have_the_tag, leaves_of_other_tags_only_take_away,
    offered_transfers_have_the_tag, other_tags_are_not_read, premises_can_be_met,
    sent_transfers_have_the_tag, what_is_sent_again_has_its_leafs_tag, worlds_have_one_tag,
};
