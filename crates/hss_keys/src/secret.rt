ghost use Rattle.std.specs.Prelude.{◌≡◌, ◌<◌, ◌≤◌, true, IfOk, length};
ghost use Rattle.lms_sign.specs.Types.{is_supported, leaf_count};
ghost use Rattle.lms_sign.specs.Tree.{public_key_of};
ghost use Rattle.hss_keys.specs.Keys.{bottom_secret, derived, hss_key_of, hss_signature_length, top_secret};

use super::fields::{put, u32str};
use super::seed::HssSeed;
use super::sizes::signature_len;
use lms_sign::{LmsTypes, SecretKey};
use plasma_base::NoMemory;
use sha2::{Digest, Sha256};
use std::alloc::Global;
use std::marker::Model;

// The numbers of the strings that bottom keys are made from. No chain has them.
const ID_ELEMENT: u16 = 0xfffc;

const SEED_ELEMENT: u16 = 0xfffb;

/// A two-level secret key with supported types, and all nodes of the top key's tree. Contracts see it as what it was
/// made from.
#[derive(Drop)]
pub struct HssSecret {
    alloc: Global,
    seed: HssSeed,
    key: SecretKey,
}

impl Model for HssSecret {
    ghost use Rattle.hss_keys.specs.declared.seed.HssSeed.{HssSeed};

    ghost Value = { HssSeed };

    ghost use Rattle.hss_keys.specs.Sound.{IsHssSecret};

    ghost view = { λ secret. secret.seed };

    ghost invariant = { λ secret. IsHssSecret secret.seed secret.key };
}

// A string that a bottom key is made from.
#[tactic(auto, unfolding(crate::specs::Keys::derived, lms_sign::specs::Types::u8str, lms_sign::specs::Types::u16str))]
fn derived(seed: &HssSeed, j: u32, element: u16) -> [u8; 32]
    ensures { result ≡ derived seed.now j element }
{
    let mut hasher = Sha256::new();
    hasher.update(seed.id);
    hasher.update(u32str(j));
    hasher.update(element.to_be_bytes());
    hasher.update([0xff]);
    hasher.update(seed.seed);
    hasher.finalize()
}

impl HssSecret {
    /// The key with the types of both levels, and the identifier of 16 bytes and the seed of 32 bytes of the top key.
    /// The types have to be supported. It makes the top key (`SecretKey::make`); want of memory is its one refusal.
    pub fn make(
        alloc: Global,
        top: LmsTypes,
        bottom: LmsTypes,
        id: [u8; 16],
        seed: [u8; 32],
    ) -> Result<HssSecret, NoMemory>
        requires top { is_supported top ≡ true }
        requires bottom { is_supported bottom ≡ true }
        ensures { IfOk result
            (λ secret. secret ≡ record { top = top; bottom = bottom; id = id; seed = seed }) }
    {
        let key = SecretKey::make(alloc, top, id, seed)?;
        let seed = HssSeed {
            top,
            bottom,
            id,
            seed,
        };
        Ok(HssSecret { alloc, seed, key })
    }

    /// The public key: the number of levels, 2, and the top key, 60 bytes (RFC 8554, section 6.1).
    pub fn public(&self) -> [u8; 60]
        ensures { result ≡ hss_key_of self.now }
    {
        let mut key = [0; 60];
        put(&mut key, 0, &u32str(2));
        put(&mut key, 4, &self.key.public());
        key
    }

    /// The length of a signature in bytes.
    pub fn signature_len(&self) -> usize
        ensures { result ≡ hss_signature_length self.now }
    {
        60 + signature_len(&self.seed.top) + signature_len(&self.seed.bottom)
    }

    /// The number of leaves of the top key, each of which can sign one bottom key.
    pub fn top_leaves(&self) -> u32
        ensures { result ≡ leaf_count self.now.top }
    {
        self.key.leaves()
    }

    /// What the key was made from. Both pairs of types are supported.
    pub fn seed(&self) -> &HssSeed
        ensures value { result.now ≡ self.now }
        ensures top { is_supported self.now.top ≡ true }
        ensures bottom { is_supported self.now.bottom ≡ true }
        ensures id { length self.now.id ≡ 16 }
    {
        &self.seed
    }

    /// The bottom key that a leaf of the top key signs. Want of memory is its one refusal.
    pub fn bottom(&self, j: u32) -> Result<SecretKey, NoMemory>
        requires { j < leaf_count self.now.top }
        ensures { IfOk result (λ key. key ≡ bottom_secret self.now j) }
    {
        let mut id = [0; 16];
        id.copy_from_slice(&derived(&self.seed, j, ID_ELEMENT)[..16]);
        SecretKey::make(
            self.alloc,
            self.seed.bottom,
            id,
            derived(&self.seed, j, SEED_ELEMENT),
        )
    }

    /// The top key.
    pub(crate) fn top(&self) -> &SecretKey
        ensures { result.now ≡ top_secret self.now }
    {
        &self.key
    }
}
