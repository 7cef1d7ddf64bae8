//! Transfers, openings and the calls on a root contract: their types, their bytes, what a log of accepted
//! calls says, and the rules of the contract whole, as definitions: the answer to each call after a log, and
//! the money of every account. Laws of both hold of every list of calls.
#![tactic(auto)]

mod answer;
mod body;
mod call;
mod coin_states;
mod deposits;
mod exits;
mod fields;
mod kept;
mod laws;
mod leaf;
mod links;
mod movement;
mod opening;
mod opening_tests;
mod owner;
mod root_log;
mod rule_laws;
mod rules;
mod signatures;
mod signed_tx;
mod standing;
mod views;

pub use answer::{Answer, Refusal};
pub use body::{Body, BodyBytes};
pub use call::{RootCall, RootEvent, Shown};
pub use laws::{
    blocks_are_calls, challenges_stand, clocks_are_ticks, coins_are_deposits, exits_are_in_order,
    exits_stand, new_challenges_are_open, openings_have_one_spelling, owners_have_one_spelling,
    transfers_are_read, transfers_have_one_spelling, withdrawn_is_paid,
};
pub use leaf::leaf_tx;
pub use links::{Link, Links, Spends};
pub use movement::Movement;
pub use opening::{Opening, OpeningRefusal, RawOpening, leaf_in};
pub use owner::Owner;
pub use root_log::RootLog;
pub use rule_laws::{
    accepted_calls_show, answers_decide, balances_are_covered, balances_suffice,
    exits_are_their_owners, exits_leave_by, held_is_of_accounts, held_suffices, logs_are_legal,
    money_is_kept, openings_show, others_leave_exits, owners_are_read, paid_exactly,
    the_rules_have_these_numbers, times_are_bounded, withdrawn_is_answered_paid,
};
pub use rules::{
    CHALLENGE_BOND, CHALLENGE_WINDOW, EXIT_BOND, EXIT_PERIOD, LAST_TIME, MOST_MONEY,
    RESPONSE_WINDOW,
};
pub use signed_tx::{SignedTx, TxRefusal, signed_by};
pub use views::{BlockView, ChallengeView, Challenges, CoinView, ExitView};
