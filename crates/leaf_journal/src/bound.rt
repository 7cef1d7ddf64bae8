ghost use Rattle.std.specs.Prelude.{◌≡◌, length};
ghost use Rattle.lms_sign.specs.Types.{signature_length};
ghost use Rattle.lms_sign.specs.Tree.{public_key_of, signature_of};
ghost use Rattle.lms_sign.specs.Valid.{IsValid};

use super::short::ShortBytes;
use lms_sign::{SecretKey, sign};
use std::marker::Model;

/// A leaf that is bound to a message, which its journal keeps. It comes from `Leaves::bind` and
/// `Leaves::again` alone, and can't be copied.
#[derive(Drop)]
pub struct Bound {
    pub(crate) key: [u8; 56],
    pub(crate) leaf: u32,
    pub(crate) message: ShortBytes,
}

impl Model for Bound {
    ghost use Rattle.leaf_journal.specs.Leaves.{BoundState};

    ghost Value = { BoundState };

    ghost use Rattle.leaf_journal.specs.Sound.{IsBound};

    ghost view = { λ bound. record { key = bound.key; leaf = bound.leaf; message = bound.message } };

    ghost invariant = { λ bound. IsBound bound.key bound.leaf };
}

impl Bound {
    /// The public key, 56 bytes (RFC 8554, section 5.3).
    pub fn key(&self) -> &[u8; 56]
        ensures { result.now ≡ self.now.key }
    {
        &self.key
    }

    /// The number of the leaf, from 0.
    pub fn leaf(&self) -> u32
        ensures { result ≡ self.now.leaf }
    {
        self.leaf
    }

    /// The message, of 1 to 128 bytes.
    pub fn message(&self) -> &[u8]
        ensures { result.now ≡ self.now.message }
    {
        self.message.as_slice()
    }

    /// Writes the leaf's signature of the message (RFC 8554, section 5.4.1). The key has to be the one
    /// that the leaf is of, and `out` has to have the signature's length. It takes no memory.
    pub fn sign(self, key: &SecretKey, out: &mut [u8])
        requires key { public_key_of key.now ≡ self.key }
        requires room { length out.old ≡ signature_length key.now.types }
        ensures value { out.new ≡ signature_of key.now self.leaf self.message }
        ensures valid { IsValid self.key self.message out.new }
    {
        let leaves = key.leaves();
        prove!(self.leaf < leaves);
        sign(key, self.leaf, self.message.as_slice(), out);
    }
}
