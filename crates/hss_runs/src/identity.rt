ghost use Rattle.std.specs.Prelude.{◌≡◌, IfOk};
ghost use Rattle.hss_runs.specs.Identity.{identity_text, seed_in, signer_seed};

use hss_keys::HssSecret;
use lms_sign::LmsTypes;
use plasma_base::{Hash32, NoMemory, Sha};
use std::alloc::Global;

// The first byte of an identity.
const IDENTITY: u8 = 0x31;

// The types of both levels: 32 leaves, and digits of eight bits.
const TYPES: LmsTypes = LmsTypes { lms: 5, ots: 4 };

// The record of an identity with this seed.
#[tactic(auto, unfolding(crate::specs::Identity::identity_text))]
pub fn identity_record(seed: &[u8; 32]) -> [u8; 33]
    ensures { result ≡ identity_text seed.now }
{
    let mut record = [0; 33];
    record[0] = IDENTITY;
    record[1..].copy_from_slice(seed);
    record
}

// The seed of an identity; `None` where the record is none.
#[tactic(auto, unfolding(crate::specs::Identity::seed_in))]
pub fn seed_in(body: &[u8]) -> Option<[u8; 32]>
    ensures { result ≡ seed_in body.now }
{
    let (mark, bytes) = body.split_first()?;
    if *mark != IDENTITY || bytes.len() != 32 {
        return None;
    }
    let mut seed = [0; 32];
    seed.copy_from_slice(bytes);
    Some(seed)
}

// The keys of a seed.
pub fn secret_of(alloc: Global, seed: [u8; 32]) -> Result<HssSecret, NoMemory>
    ensures { IfOk result (λ secret. secret ≡ signer_seed seed) }
{
    let digest = Sha.digest(&seed);
    let mut id = [0; 16];
    id.copy_from_slice(&digest[..16]);
    HssSecret::make(alloc, TYPES, TYPES, id, seed)
}
