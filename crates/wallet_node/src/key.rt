ghost use Rattle.std.specs.Prelude.{◌≡◌, true, IfOk, take};
ghost use Rattle.sha2.specs.Sha256.{sha256};
ghost use Rattle.lms_sign.specs.Types.{is_supported};
ghost use Rattle.node_rules.specs.WalletRecords.{secret_of};
ghost use Rattle.wallet_node.specs.Inside.{is_key_of};

use lms_sign::{LmsTypes, SecretKey};
use node_rules::WalletIdentity;
use plasma_base::{Hash32, NoMemory, Sha};
use std::alloc::Global;
use std::marker::Model;

/// The key of a wallet, with its whole tree. Contracts see it as what it was made from.
#[derive(Drop)]
pub struct WalletKey {
    types: LmsTypes,
    seed: [u8; 32],
    key: SecretKey,
}

impl Model for WalletKey {
    ghost use Rattle.lms_sign.specs.declared.secret.Secret.{Secret};
    ghost use Rattle.wallet_node.specs.Inside.{IsMade};

    ghost Value = { Secret };

    ghost view = { λ k. k.key };

    ghost invariant = { λ k. IsMade k.key k.types k.seed };
}

// The key's identifier: the first 16 bytes of the seed's SHA-256.
fn id_of(seed: &[u8; 32]) -> [u8; 16]
    ensures { result ≡ take 16 (sha256 seed.now) }
{
    let digest = Sha.digest(seed);
    let mut id = [0; 16];
    id.copy_from_slice(&digest[..16]);
    id
}

impl WalletKey {
    /// Makes the key of a wallet: all nodes of its tree, once. Its types have to be supported. Want of memory
    /// is its one refusal.
    pub fn make(alloc: Global, who: &WalletIdentity) -> Result<WalletKey, NoMemory>
        requires { is_supported who.now.types ≡ true }
        ensures { IfOk result (λ key. key ≡ secret_of who.now) }
    {
        let key = SecretKey::make(alloc, who.types, id_of(&who.seed), who.seed)?;
        Ok(WalletKey {
            types: who.types,
            seed: who.seed,
            key,
        })
    }

    /// Whether it is the key of this wallet: it was made from the same types and the same seed, and so from
    /// the same identifier.
    pub fn is_of(&self, who: &WalletIdentity) -> bool
        ensures value { result ≡ is_key_of self.now who.now }
        ensures own { result ≡ true → self.now ≡ secret_of who.now }
    {
        self.types == who.types && self.seed == who.seed
    }

    /// The key, lent.
    pub fn secret_key(&self) -> &SecretKey
        ensures { result.now ≡ self.now }
    {
        &self.key
    }
}
