//! Receipts: an operator's signed promise that a transfer will be in a block by a certain one, the desk that
//! signs such promises, and the audit that convicts an operator of a broken one.
#![tactic(auto)]

mod audit;
mod desk;
mod issuing;
mod key;
mod laws;
mod promise;
mod refusal;

pub use audit::{Conviction, convict};
pub use desk::Desk;
pub use issuing::Receipt;
pub use key::desk_key;
pub use laws::{
    auditors_refuse_by_their_causes, breaches_are_checked, convictions_show_broken_promises,
    kept_promises_are_not_convicted, promises_have_one_spelling, receipts_bind_their_operator,
};
pub use promise::{PROMISE_LENGTH, Promise};
pub use refusal::{AuditRefusal, IssueRefusal};
