ghost use Rattle.std.specs.Prelude.{◌≡◌, ◌∷◌, IfOk};
ghost use Rattle.std.specs.Str.{bytes_eq};
ghost use Rattle.sparse_merkle.specs.TreeDigest.{leaf_string};
ghost use Rattle.trace_exhibits.specs.Strings.{bytes_of};

use super::met::MetOpenings;
use plasma_base::{Bytes, NoMemory};
use std::alloc::Global;

/// A string that is digested on the way up from the leaf of an opening that was met.
#[derive(Clone, Copy)]
pub(crate) enum HashedString {
    /// That of the leaf of the opening at this place.
    Leaf(usize),
    /// That of an inner node.
    Node([u8; 65]),
}

impl HashedString {
    /// Whether the strings are one.
    pub(crate) fn is_same(&self, other: &HashedString, met: &MetOpenings) -> bool
        ensures { result ≡ bytes_eq (bytes_of met.now self.now) (bytes_of met.now other.now) }
    {
        let one = parts(self, met);
        let two = parts(other, met);
        one.0 == two.0 && one.1 == two.1
    }

    /// The string's bytes.
    pub(crate) fn to_bytes(&self, alloc: Global, met: &MetOpenings) -> Result<Bytes, NoMemory>
        ensures { IfOk result (λ bytes. bytes ≡ bytes_of met.now self.now) }
    {
        let (first, rest) = parts(self, met);
        let mut bytes = Vec::from_slice(alloc, &[first])?;
        bytes.extend_from_slice(rest)?;
        Ok(Bytes::from_vec(bytes))
    }
}

// The first byte of a string, and those behind it.
fn parts<'a>(string: &'a HashedString, met: &'a MetOpenings) -> (u8, &'a [u8])
    ensures { bytes_of met.now string.now ≡ result.0 ∷ result.1.now }
{
    match string {
        HashedString::Leaf(place) => leaf_parts(met.leaf(*place)),
        HashedString::Node(bytes) => node_parts(bytes),
    }
}

// The same of a leaf's string.
fn leaf_parts(leaf: &[u8]) -> (u8, &[u8])
    ensures { leaf_string leaf.now ≡ result.0 ∷ result.1.now }
{
    if leaf.is_empty() { (0, &[]) } else { (1, leaf) }
}

// The same of an inner node's string.
fn node_parts(bytes: &[u8; 65]) -> (u8, &[u8])
    ensures { bytes.now ≡ result.0 ∷ result.1.now }
{
    (bytes[0], &bytes[1..])
}
