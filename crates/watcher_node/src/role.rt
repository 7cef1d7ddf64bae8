use super::records::{identity_in, read_note};
use node_journal::Role;
use plasma_base::{Hash32, NoMemory};
use std::alloc::Global;

/// The role of a watcher, under a digest.
#[derive(Clone, Copy)]
pub struct WatcherRole<H> {
    pub hash: H,
}

impl<H: Hash32 + Copy> Role for WatcherRole<H> {
    ghost use Rattle.node_rules.specs.Watcher.{watcher_kinds};

    ghost kinds = { λ role. watcher_kinds (H.digest_of role.hash) };

    fn is_identity(&self, body: &[u8]) -> bool {
        identity_in(body).is_some()
    }

    fn is_note(&self, alloc: Global, identity: &[u8], body: &[u8]) -> Result<bool, NoMemory> {
        match identity_in(identity) {
            Some(who) => {
                let tag = who.0;
                Ok(read_note(alloc, &self.hash, &tag, body)?.is_some())
            }
            None => Ok(false),
        }
    }
}
