ghost use Rattle.std.specs.Prelude.{◌≡◌, true, false, MatchResult};
ghost use Rattle.lms_sign.specs.Types.{is_supported};
ghost use Rattle.lms_sign.specs.Valid.{id_of, key_root, types_of};

use super::fields::u32_at;
use super::types::LmsTypes;
use std::marker::Model;
use thiserror::Error;

/// The two type numbers of a public key are no supported pair.
#[derive(Debug, Clone, Copy, PartialEq, Eq, Error)]
#[error("the types of the key are not supported")]
pub struct BadType;

/// A public key with supported types, which contracts see as its 56 bytes (RFC 8554, section 5.3).
#[derive(Clone, Copy)]
pub struct PublicKey {
    bytes: [u8; 56],
}

impl Model for PublicKey {
    ghost use Rattle.std.specs.Prelude.{◌≡◌, true, List, ℕ};
    ghost use Rattle.lms_sign.specs.Types.{is_supported};
    ghost use Rattle.lms_sign.specs.Valid.{types_of};

    ghost Value = { List ℕ };

    ghost view = { λ key. key.bytes };

    ghost invariant = { λ key. is_supported (types_of key.bytes) ≡ true };

    ghost inverse = { λ bytes. record { bytes = bytes } };
}

impl PublicKey {
    /// Reads a public key of 56 bytes: the LMS type and the one-time type, each 4 bytes with the
    /// high byte first, the identifier, 16 bytes, and the root, 32 bytes (RFC 8554, section 5.3).
    /// It refuses exactly the keys whose types are no supported pair.
    pub fn read(bytes: &[u8; 56]) -> Result<PublicKey, BadType>
        ensures { MatchResult result
            (λ key. (key ≡ bytes.now) × (is_supported (types_of bytes.now) ≡ true))
            (λ _. is_supported (types_of bytes.now) ≡ false) }
    {
        let types = LmsTypes {
            lms: u32_at(bytes, 0),
            ots: u32_at(bytes, 4),
        };
        if !types.is_supported() {
            return Err(BadType);
        }
        Ok(PublicKey { bytes: *bytes })
    }

    /// The bytes of the key.
    pub fn as_bytes(&self) -> &[u8; 56]
        ensures { result.now ≡ self.now }
    {
        &self.bytes
    }

    /// The types of the key, which are supported.
    pub fn types(&self) -> LmsTypes
        ensures value { result ≡ types_of self.now }
        ensures supported { is_supported result ≡ true }
    {
        LmsTypes {
            lms: u32_at(&self.bytes, 0),
            ots: u32_at(&self.bytes, 4),
        }
    }

    /// The identifier.
    pub(crate) fn id(&self) -> [u8; 16]
        ensures { result ≡ id_of self.now }
    {
        let mut id = [0; 16];
        id.copy_from_slice(&self.bytes[8..24]);
        id
    }

    /// The root of the tree.
    pub(crate) fn root(&self) -> &[u8]
        ensures { result.now ≡ key_root self.now }
    {
        &self.bytes[24..]
    }
}
