ghost use Rattle.std.specs.Prelude.{◌≡◌, ◌+◌, ◌*◌, ◌<◌, ◌≤◌, ◌++◌, length, take};
ghost use Rattle.lms_sign.specs.Types.{leaf_count, signature_length, height, chains};
ghost use Rattle.lms_sign.specs.OneTime.{concatenation, signed_string};
ghost use Rattle.lms_sign.specs.Tree.{authentication_path, sibling, public_key_of, signature_of};
ghost use Rattle.lms_sign.specs.Valid.{IsValid};

use super::fields::{put, u32str};
use super::hashing::message_hash;
use super::one_time::{randomizer, signed_strings};
use super::secret_key::SecretKey;

/// Writes the signature of the message by the leaf q (RFC 8554, section 5.4.1). It is valid under
/// the key's public key. The leaf has to be one of the tree's, and `out` has to have the
/// signature's length. It keeps no count of the leaves that have signed: two messages must never be
/// signed with one leaf. It takes no memory.
pub fn sign(key: &SecretKey, q: u32, message: &[u8], out: &mut [u8])
    requires leaf { q < leaf_count key.now.types }
    requires room { length out.old ≡ signature_length key.now.types }
    ensures value { out.new ≡ signature_of key.now q message.now }
    ensures valid { IsValid (public_key_of key.now) message.now out.new }
{
    let secret = key.secret();
    let randomizer = randomizer(secret, q);
    let hash = message_hash(&secret.id, q, &randomizer, message);
    put(out, 0, &u32str(q));
    put(out, 4, &u32str(secret.types.ots));
    put(out, 8, &randomizer);
    put_chains(key, q, &hash, out);
    let type_place = 40 + 32 * usize::from(secret.types.chains());
    put(out, type_place, &u32str(secret.types.lms));
    put_path(key, q, type_place + 4, out);
}

// Writes the chains, each taken as far as its digit of the hash says, at place 40.
fn put_chains(key: &SecretKey, q: u32, hash: &[u8; 32], out: &mut [u8])
    requires { 40 + 32 * chains key.now.types ≤ length out.old }
    ensures { take (40 + 32 * chains key.now.types) out.new
        ≡ take 40 out.old ++ concatenation (signed_string key.now q hash.now) (chains key.now.types) }
{
    let secret = key.secret();
    let strings = signed_strings(secret, q, hash);
    for i in 0..secret.types.chains() {
        let i = usize::from(i);
        put(out, 40 + 32 * i, &strings[i]);
    }
}

// Writes the siblings of the leaf and of the nodes above it, from a place to the end.
fn put_path(key: &SecretKey, q: u32, place: usize, out: &mut [u8])
    requires leaf { q < leaf_count key.now.types }
    requires room { length out.old ≡ place + 32 * height key.now.types }
    ensures { out.new
        ≡ take place out.old ++ authentication_path key.now (height key.now.types) (leaf_count key.now.types + q) }
{
    let mut r = key.leaves() + q;
    for level in 0..key.types().height() {
        put(out, place + 32 * level as usize, &key.node(sibling(r)));
        r /= 2;
    }
}

// The other child of a node's parent.
fn sibling(r: u32) -> u32
    requires { r < 2048 }
    ensures { result ≡ sibling r }
{
    if r % 2 == 1 { r - 1 } else { r + 1 }
}
