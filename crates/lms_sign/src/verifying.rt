ghost use Rattle.std.specs.Prelude.{◌≡◌, true, ◌*◌, ◌+◌, ◌≤◌, ◌<◌, length};
ghost use Rattle.lms_sign.specs.Types.{is_supported};
ghost use Rattle.lms_sign.specs.Valid.{candidate_root, ancestor_node, is_formed, is_valid, parent_node};

use super::fields::u32_at;
use super::hashing::{inner_node, leaf_node};
use super::one_time::candidate;
use super::public_key::PublicKey;
use super::types::LmsTypes;

/// Whether the signature has the length of the types, both of the types and a leaf of the tree.
fn is_formed(types: &LmsTypes, signature: &[u8]) -> bool
    requires { is_supported types.now ≡ true }
    ensures { result ≡ is_formed types.now signature.now }
{
    let type_place = 40 + 32 * usize::from(types.chains());
    signature.len() == types.signature_len()
        && u32_at(signature, 4) == types.ots
        && u32_at(signature, type_place) == types.lms
        && u32_at(signature, 0) < types.leaf_count()
}

/// The parent of a node, from the node's sibling and itself.
fn parent_node(id: &[u8; 16], r: u32, beside: &[u8; 32], node: &[u8; 32]) -> [u8; 32]
    ensures { result ≡ parent_node id.now r beside.now node.now }
{
    if r % 2 == 1 {
        inner_node(id, r / 2, beside, node)
    } else {
        inner_node(id, r / 2, node, beside)
    }
}

/// The node that the path leads to, from the node r.
fn climb(id: &[u8; 16], levels: u32, r: u32, path: &[u8], start: [u8; 32]) -> [u8; 32]
    requires { 32 * levels ≤ length path.now }
    ensures { result ≡ ancestor_node id.now levels r path.now start }
{
    let mut node = start;
    let mut r = r;
    let mut rest = path;
    for _done in 0..levels {
        let (first, above) = rest.split_at(32);
        let mut beside = [0; 32];
        beside.copy_from_slice(first);
        node = parent_node(id, r, &beside, &node);
        r /= 2;
        rest = above;
    }
    node
}

/// The root that a signature of the message leads to.
fn candidate_root(types: &LmsTypes, id: &[u8; 16], message: &[u8], signature: &[u8]) -> [u8; 32]
    requires formed { is_formed types.now signature.now ≡ true }
    ensures { result ≡ candidate_root types.now id.now message.now signature.now }
{
    let q = u32_at(signature, 0);
    let key = candidate(types, id, q, message, signature);
    let r = types.leaf_count() + q;
    let path = &signature[44 + 32 * usize::from(types.chains())..];
    climb(id, types.height(), r, path, leaf_node(id, r, &key))
}

/// Whether the signature of the message is valid under the key: its length and both types are the
/// key's, its leaf is of the tree, and the root that its chains and its path lead to is the key's
/// (RFC 8554, sections 4.6 and 5.4.2). Any bytes may be given as a signature. It takes no memory.
pub fn verify(key: &PublicKey, message: &[u8], signature: &[u8]) -> bool
    ensures { result ≡ is_valid key.now message.now signature.now }
{
    let types = key.types();
    if !is_formed(&types, signature) {
        return false;
    }
    candidate_root(&types, &key.id(), message, signature).as_slice() == key.root()
}
