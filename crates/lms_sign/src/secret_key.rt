ghost use Rattle.std.specs.Prelude.{◌≡◌, true, ◌*◌, ◌+◌, ◌<◌, ◌≤◌, IfOk, length};
ghost use Rattle.lms_sign.specs.Types.{is_supported, leaf_count, signature_length};
ghost use Rattle.lms_sign.specs.Tree.{public_key_of, tree_node};
ghost use Rattle.lms_sign.specs.Valid.{types_of};
ghost use Rattle.lms_sign.specs.Kept.{AreNodesFrom};

use super::fields::{put, u32str};
use super::hashing::{inner_node, leaf_node};
use super::one_time::one_time_public;
use super::secret::Secret;
use super::types::LmsTypes;
use plasma_base::NoMemory;
use std::alloc::Global;
use std::marker::Model;

/// A secret key with supported types and all nodes of its tree. Contracts see it as what it was
/// made from: its types, identifier and seed.
#[derive(Drop)]
pub struct SecretKey {
    secret: Secret,
    nodes: Vec<[u8; 32]>,
}

impl Model for SecretKey {
    ghost use Rattle.lms_sign.specs.declared.secret.Secret.{Secret};

    ghost Value = { Secret };

    ghost use Rattle.lms_sign.specs.Kept.{KeepsTree};

    ghost view = { λ key. key.secret };

    ghost invariant = { λ key. KeepsTree key.secret key.nodes.items };
}

impl SecretKey {
    /// The key with the types, an identifier of 16 bytes and a seed of 32 bytes (RFC 8554, section
    /// 5.2 and appendix A). The types have to be supported. It makes all nodes of the tree, once,
    /// and keeps them: 32 bytes for each of 2^(h+1) numbers. Want of memory is its one refusal.
    pub fn make(
        alloc: Global,
        types: LmsTypes,
        id: [u8; 16],
        seed: [u8; 32],
    ) -> Result<SecretKey, NoMemory>
        requires { is_supported types ≡ true }
        ensures { IfOk result (λ key. key ≡ record { types = types; id = id; seed = seed }) }
    {
        let secret = Secret { types, id, seed };
        let leaves = types.leaf_count();
        let mut nodes = vec![in alloc; [0u8; 32]; 2 * leaves as usize]?;
        set_leaves(&secret, leaves, &mut nodes);
        set_parents(&secret, leaves, &mut nodes);
        Ok(SecretKey { secret, nodes })
    }

    /// The public key: both types, the identifier and the root, 56 bytes (RFC 8554, section 5.3). It
    /// has the key's types, and `PublicKey::read` takes it. It takes no memory.
    pub fn public(&self) -> [u8; 56]
        ensures value { result ≡ public_key_of self.now }
        ensures types { types_of result ≡ self.now.types }
        ensures reads { is_supported (types_of result) ≡ true }
    {
        let mut key = [0; 56];
        put(&mut key, 0, &u32str(self.secret.types.lms));
        put(&mut key, 4, &u32str(self.secret.types.ots));
        put(&mut key, 8, &self.secret.id);
        put(&mut key, 24, &self.node(1));
        key
    }

    /// The number of leaves, each of which can sign one message: 2^h. The public key tells it too.
    pub fn leaves(&self) -> u32
        ensures value { result ≡ leaf_count self.now.types }
        ensures of_public { result ≡ leaf_count (types_of (public_key_of self.now)) }
    {
        self.secret.types.leaf_count()
    }

    /// The length of a signature in bytes.
    pub fn signature_len(&self) -> usize
        ensures { result ≡ signature_length self.now.types }
    {
        self.secret.types.signature_len()
    }

    /// The types, which are supported.
    pub fn types(&self) -> LmsTypes
        ensures value { result ≡ self.now.types }
        ensures supported { is_supported result ≡ true }
    {
        self.secret.types
    }

    /// What the key was made from.
    pub(crate) fn secret(&self) -> &Secret
        ensures value { result.now ≡ self.now }
        ensures supported { is_supported self.now.types ≡ true }
        ensures id_length { length self.now.id ≡ 16 }
    {
        &self.secret
    }

    /// A node of the tree, by its number.
    pub(crate) fn node(&self, r: u32) -> [u8; 32]
        requires above { 0 < r }
        requires within { r < 2 * leaf_count self.now.types }
        ensures { result ≡ tree_node self.now r }
    {
        self.nodes[r as usize]
    }
}

// Sets the nodes of the leaves, each from its one-time public key.
fn set_leaves(secret: &Secret, leaves: u32, nodes: &mut [[u8; 32]])
    requires count { leaves ≡ leaf_count secret.now.types }
    requires small { leaves ≤ 1024 }
    requires room { length nodes.old ≡ 2 * leaves }
    ensures { AreNodesFrom secret.now nodes.new leaves }
{
    for r in leaves..2 * leaves {
        let key = one_time_public(secret, r - leaves);
        nodes[r as usize] = leaf_node(&secret.id, r, &key);
    }
}

// Sets the nodes above the leaves, each from its two children.
fn set_parents(secret: &Secret, leaves: u32, nodes: &mut [[u8; 32]])
    requires count { leaves ≡ leaf_count secret.now.types }
    requires small { leaves ≤ 1024 }
    requires room { length nodes.old ≡ 2 * leaves }
    requires leaves { AreNodesFrom secret.now nodes.old leaves }
    ensures { AreNodesFrom secret.now nodes.new 1 }
{
    let mut r = leaves;
    while r > 1 {
        r -= 1;
        let at = r as usize;
        let (left, right) = (nodes[2 * at], nodes[2 * at + 1]);
        nodes[at] = inner_node(&secret.id, r, &left, &right);
    }
}
