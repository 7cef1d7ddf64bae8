use super::records::{change_in, identity_in, tag_in};
use node_journal::Role;
use plasma_base::NoMemory;
use std::alloc::Global;

/// The role of an operator.
#[derive(Clone, Copy)]
pub struct OperatorRole;

impl Role for OperatorRole {
    ghost use Rattle.operator_rules.specs.Records.{operator_kinds};

    ghost kinds = { λ _. operator_kinds };

    fn is_identity(&self, body: &[u8]) -> bool {
        identity_in(body).is_some()
    }

    fn is_note(&self, _alloc: Global, identity: &[u8], body: &[u8]) -> Result<bool, NoMemory> {
        Ok(change_in(tag_in(identity), body).is_some())
    }
}
