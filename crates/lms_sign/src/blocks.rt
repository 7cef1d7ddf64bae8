//! Steps of eight chains of a leaf at a time: the message of each fills one block of SHA-256 with its padding.

ghost use Rattle.std.specs.Prelude.{◌≡◌, ℕ, ◌+◌, ◌*◌, ◌^◌, ◌<◌, ◌≤◌, List, ◌++◌, [], length, slice_index, slice_index_or, take};
ghost use Rattle.sha2.specs.Sha256.{digest_bytes, word_at};
ghost use Rattle.lms_sign.specs.Types.{u32str};
ghost use Rattle.lms_sign.specs.Lanes.{HasWords, IsBegun};
ghost use Rattle.lms_sign.specs.OneTime.{chain_value};

use super::fields::{put, u32str};
use super::lanes::{Begun, first_five_rounds, lane_hash, next_hashes, set_lane};

// A block that begins as those of all steps of the chains of leaf q do.
fn leaf_block(id: &[u8; 16], q: u32) -> [u8; 64]
    ensures { take 20 result ≡ id.now ++ u32str q }
{
    let mut block = [0; 64];
    put(&mut block, 0, id);
    put(&mut block, 16, &u32str(q));
    block
}

// The word at a place of the bytes.
#[inline(always)]
fn word_at(bytes: &[u8], place: usize) -> u32
    requires { place + 4 ≤ length bytes.now }
    ensures { result ≡ word_at bytes.now place }
{
    u32::from_be_bytes([
        bytes[place],
        bytes[place + 1],
        bytes[place + 2],
        bytes[place + 3],
    ])
}

// The words of a block.
fn block_words(block: &[u8; 64]) -> [u32; 16]
    ensures { HasWords block.now result }
{
    let mut words = [0; 16];
    'load: for k in 0..16 {
        words[k] = word_at(block, 4 * k);
    }
    words
}

// The hash value that a string is the digest of.
fn hash_of(string: &[u8; 32]) -> [u32; 8]
    ensures { digest_bytes result 8 ≡ string.now }
{
    let mut hash = [0; 8];
    'words: for k in 0..8 {
        hash[k] = word_at(string, 4 * k);
    }
    hash
}

// The digest that a hash value is.
fn digest(hash: &[u32; 8]) -> [u8; 32]
    ensures { result ≡ digest_bytes hash.now 8 }
{
    let mut digest = [0; 32];
    'words: for k in 0..8 {
        put(&mut digest, 4 * k, &hash[k].to_be_bytes());
    }
    digest
}

/// What all steps of the chains of leaf q begin with.
pub(crate) fn begin_steps(id: &[u8; 16], q: u32) -> Begun
    ensures { IsBegun id.now q result }
{
    let words = block_words(&leaf_block(id, q));
    Begun {
        words: [words[0], words[1], words[2], words[3], words[4]],
        rounds: first_five_rounds(&words),
    }
}

/// The strings of eight chains of a leaf so many steps further on. A mark tells of each its number and its place, in
/// two bytes and one.
pub(crate) fn strings_after(
    begun: &Begun,
    marks: &[u32; 8],
    count: u8,
    strings: &[[u8; 32]; 8],
) -> [[u8; 32]; 8]
    requires { (k : ℕ) → k < 8 → slice_index marks.now k + count ≤ 2 ^ 24 }
    ensures { (id : List ℕ) (q k i j : ℕ) → length id ≡ 16 → IsBegun id q begun.now → k < 8
        → slice_index marks.now k ≡ i * 256 + j → i < 2 ^ 16 → j + count ≤ 2 ^ 8
        → slice_index_or result k [] ≡ chain_value id q i j count (slice_index_or strings.now k []) }
{
    let mut rows = [[0; 8]; 8];
    'load: for k in 0..8 {
        set_lane(&mut rows, k, hash_of(&strings[k]));
    }
    'steps: for step in 0..count {
        next_hashes(begun, marks, u32::from(step), &mut rows);
    }
    let mut ends = [[0; 32]; 8];
    'store: for k in 0..8 {
        ends[k] = digest(&lane_hash(&rows, k));
    }
    ends
}
