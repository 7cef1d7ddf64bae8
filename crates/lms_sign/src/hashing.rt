ghost use Rattle.std.specs.Prelude.{◌≡◌, ◌++◌};
ghost use Rattle.sha2.specs.Hashers.{Holds256};
ghost use Rattle.lms_sign.specs.Types.{u16str, u32str};
ghost use Rattle.lms_sign.specs.OneTime.{chain_step, message_hash};
ghost use Rattle.lms_sign.specs.Tree.{inner_node, leaf_node};

use super::fields::{u8str, u16str, u32str};
use sha2::{Digest, Sha256};

// The marks of RFC 8554 that tell the uses of the hash apart.
pub(crate) const D_PBLC: u16 = 0x8080;

const D_MESG: u16 = 0x8181;

const D_LEAF: u16 = 0x8282;

const D_INTR: u16 = 0x8383;

/// A hasher that has taken in what most hashes begin with: the identifier, a number and a mark.
pub(crate) fn hasher_for(id: &[u8; 16], number: u32, mark: u16) -> Sha256
    ensures { Holds256 result (id.now ++ u32str number ++ u16str mark) }
{
    let mut hasher = Sha256::new();
    hasher.update(id);
    hasher.update(u32str(number));
    hasher.update(u16str(mark));
    hasher
}

/// One step of a chain.
pub(crate) fn chain_step(id: &[u8; 16], q: u32, i: u16, j: u8, string: &[u8; 32]) -> [u8; 32]
    ensures { result ≡ chain_step id.now q i j string.now }
{
    let mut hasher = hasher_for(id, q, i);
    hasher.update(u8str(j));
    hasher.update(string);
    hasher.finalize()
}

/// The hash of a message under a randomizer.
pub(crate) fn message_hash(id: &[u8; 16], q: u32, randomizer: &[u8], message: &[u8]) -> [u8; 32]
    ensures { result ≡ message_hash id.now q randomizer.now message.now }
{
    let mut hasher = hasher_for(id, q, D_MESG);
    hasher.update(randomizer);
    hasher.update(message);
    hasher.finalize()
}

/// The node of a leaf, from its one-time public key.
pub(crate) fn leaf_node(id: &[u8; 16], r: u32, key: &[u8; 32]) -> [u8; 32]
    ensures { result ≡ leaf_node id.now r key.now }
{
    let mut hasher = hasher_for(id, r, D_LEAF);
    hasher.update(key);
    hasher.finalize()
}

/// An inner node, from its children.
pub(crate) fn inner_node(id: &[u8; 16], r: u32, left: &[u8; 32], right: &[u8; 32]) -> [u8; 32]
    ensures { result ≡ inner_node id.now r left.now right.now }
{
    let mut hasher = hasher_for(id, r, D_INTR);
    hasher.update(left);
    hasher.update(right);
    hasher.finalize()
}
