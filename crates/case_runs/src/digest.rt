ghost use Rattle.std.specs.Prelude.{cond};
ghost use Rattle.sha2.specs.Sha256.{sha256};
ghost use Rattle.plasma_base.specs.Toy.{toy_digest};
ghost use Rattle.case_runs.specs.Digests.{length-chosen, bytes-chosen};

use plasma_base::{Hash32, Sha, Toy};
use std::cell::Cell;

/// The digest of a case: SHA-256 or the toy digest. It counts its calls.
#[derive(Drop)]
pub struct CaseDigest {
    pub is_toy: bool,
    pub calls: Cell<u64>,
}

impl CaseDigest {
    /// The digest of this name, which nobody called yet.
    pub fn named(is_toy: bool) -> CaseDigest {
        CaseDigest {
            is_toy,
            calls: Cell::new(0),
        }
    }

    fn count(&self) {
        self.calls.set(self.calls.get().wrapping_add(1));
    }
}

impl Hash32 for CaseDigest {
    ghost digest_of = { λ chosen bytes. cond chosen.is_toy (toy_digest bytes) (sha256 bytes) };

    ghost length_is = { λ chosen bytes. length-chosen chosen.is_toy bytes };

    ghost bytes_are = { λ chosen bytes. bytes-chosen chosen.is_toy bytes };

    fn digest(&self, bytes: &[u8]) -> [u8; 32] {
        self.count();
        if self.is_toy {
            Toy.digest(bytes)
        } else {
            Sha.digest(bytes)
        }
    }

    fn digest_two(&self, first: &[u8], second: &[u8]) -> [u8; 32] {
        self.count();
        if self.is_toy {
            Toy.digest_two(first, second)
        } else {
            Sha.digest_two(first, second)
        }
    }
}
