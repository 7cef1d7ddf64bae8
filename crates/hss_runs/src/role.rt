use super::identity::seed_in;
use node_journal::Role;
use plasma_base::NoMemory;
use std::alloc::Global;

/// The role of a two-level signer's notes: its identity, with no note behind it.
#[derive(Clone, Copy)]
pub struct SignerRole;

impl Role for SignerRole {
    ghost use Rattle.hss_runs.specs.Identity.{signer_kinds};

    ghost kinds = { λ _. signer_kinds };

    fn is_identity(&self, body: &[u8]) -> bool {
        seed_in(body).is_some()
    }

    fn is_note(&self, _alloc: Global, _identity: &[u8], _body: &[u8]) -> Result<bool, NoMemory> {
        Ok(false)
    }
}
