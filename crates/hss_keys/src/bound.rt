ghost use Rattle.std.specs.Prelude.{◌≡◌, ◌+◌, length};
ghost use Rattle.lms_sign.specs.Types.{signature_length};
ghost use Rattle.lms_sign.specs.Tree.{public_key_of};
ghost use Rattle.hss_keys.specs.Keys.{hss_key_of, hss_signature_of, top_secret, IsHssValid};

use super::fields::{put, put_signature, u32str};
use super::message::Message;
use super::secret::HssSecret;
use lms_sign::SecretKey;
use std::marker::Model;

/// A leaf of a bottom key that is bound to a message, which its journal keeps, and the top leaf that signs the bottom
/// key. It comes from `Levels::bind` and `Levels::again` alone, and can't be copied.
#[derive(Drop)]
pub struct HssBound {
    pub(crate) key: [u8; 60],
    pub(crate) top_leaf: u32,
    pub(crate) bottom: [u8; 56],
    pub(crate) leaf: u32,
    pub(crate) message: Message,
}

impl Model for HssBound {
    ghost use Rattle.hss_keys.specs.Levels.{HssBoundState};

    ghost Value = { HssBoundState };

    ghost use Rattle.hss_keys.specs.Sound.{IsBound};

    ghost view = { λ bound. record {
      key = bound.key;
      top_leaf = bound.top_leaf;
      bottom = bound.bottom;
      leaf = bound.leaf;
      message = bound.message;
    } };

    ghost invariant = { λ bound. IsBound bound.key bound.bottom bound.top_leaf bound.leaf };
}

impl HssBound {
    /// The public key of two levels, 60 bytes (RFC 8554, section 6.1).
    pub fn key(&self) -> &[u8; 60]
        ensures { result.now ≡ self.now.key }
    {
        &self.key
    }

    /// The number of the top leaf, from 0.
    pub fn top_leaf(&self) -> u32
        ensures { result ≡ self.now.top_leaf }
    {
        self.top_leaf
    }

    /// The public key that the top leaf signs, 56 bytes.
    pub fn bottom(&self) -> &[u8; 56]
        ensures { result.now ≡ self.now.bottom }
    {
        &self.bottom
    }

    /// The number of the leaf of the bottom key, from 0.
    pub fn leaf(&self) -> u32
        ensures { result ≡ self.now.leaf }
    {
        self.leaf
    }

    /// The message, of 1 to 128 bytes.
    pub fn message(&self) -> &[u8]
        ensures { result.now ≡ self.now.message }
    {
        self.message.as_slice()
    }

    /// Writes the signature of the message by both leaves (RFC 8554, section 6.2): the number 1, the top leaf's
    /// signature of the bottom key, the bottom key, and the bottom leaf's signature of the message. The secret and the
    /// bottom key have to be those that the leaves are of, and `out` has to have the signature's length. It takes no
    /// memory.
    pub fn sign(self, secret: &HssSecret, bottom: &SecretKey, out: &mut [u8])
        requires secret { hss_key_of secret.now ≡ self.key }
        requires bottom { public_key_of bottom.now ≡ self.bottom }
        requires room { length out.old ≡ 60 + signature_length secret.now.top + signature_length bottom.now.types }
        ensures value { out.new
            ≡ hss_signature_of (top_secret secret.now) self.top_leaf bottom.now self.leaf self.message }
        ensures valid { IsHssValid self.key self.message out.new }
    {
        let top = secret.top();
        let _top_leaves = top.leaves();
        let _leaves = bottom.leaves();
        let place = 4 + top.signature_len();
        let public = bottom.public();
        put(out, 0, &u32str(1));
        put_signature(top, self.top_leaf, &public, out, 4);
        put(out, place, &public);
        put_signature(bottom, self.leaf, self.message.as_slice(), out, place + 56);
    }
}
