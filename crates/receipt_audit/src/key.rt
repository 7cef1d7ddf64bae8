ghost use Rattle.std.specs.Prelude.{◌≡◌, IfOk, take};
ghost use Rattle.sha2.specs.Sha256.{sha256};
ghost use Rattle.receipt_audit.specs.Desk.{desk_secret};

use lms_sign::{LmsTypes, SecretKey};
use plasma_base::{Hash32, NoMemory, Sha};
use std::alloc::Global;

/// The key of a desk, made from the 32 bytes of the seed that the operator's identity keeps: of types 5 and 4,
/// with the first 16 bytes of the seed's SHA-256 as its identifier. It makes the whole tree. Want of memory is
/// its one refusal.
pub fn desk_key(alloc: Global, seed: [u8; 32]) -> Result<SecretKey, NoMemory>
    ensures { IfOk result (λ key. key ≡ desk_secret seed) }
{
    let types = LmsTypes { lms: 5, ots: 4 };
    let digest = Sha.digest(&seed);
    let mut id = [0; 16];
    id.copy_from_slice(&digest[..16]);
    SecretKey::make(alloc, types, id, seed)
}
