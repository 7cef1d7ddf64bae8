ghost use Rattle.std.specs.Prelude.{◌≡◌};
ghost use Rattle.plasma_tx.specs.Spelling.{owner_text, owner_in};

use super::fields::{number_at, put};

/// Who owns a coin: an account, and the public key that signs for it.
#[derive(Clone, Copy, PartialEq, Eq)]
pub struct Owner {
    pub account: u64,
    pub key: [u8; 56],
}

impl Owner {
    /// The owner that the bytes spell: the account as a u64, the highest byte first, then the key of 56
    /// bytes. All 64 bytes spell one.
    #[tactic(auto, unfolding(crate::specs::Spelling::owner_in))]
    pub fn read(bytes: &[u8; 64]) -> Owner
        ensures { result ≡ owner_in bytes.now }
    {
        let mut key = [0; 56];
        key.copy_from_slice(&bytes[8..]);
        Owner {
            account: number_at(bytes, 0),
            key,
        }
    }

    /// The bytes of the owner, which `read` reads.
    #[tactic(auto, unfolding(crate::specs::Spelling::owner_text))]
    pub fn write(&self) -> [u8; 64]
        ensures { result ≡ owner_text self.now }
    {
        let mut bytes = [0; 64];
        put(&mut bytes, 0, &self.account.to_be_bytes());
        put(&mut bytes, 8, &self.key);
        bytes
    }
}
