ghost use Rattle.std.specs.Prelude.{◌≡◌, ◌<◌, ◌≤◌, ◌+◌, ◌*◌, true, List, [], length, take, drop, IfOk, IfSome, OnOk, MatchOption};
ghost use Rattle.sparse_merkle.specs.MaskedPath.{proof_path, has_proof_length, masked_path_in, mask_in};
ghost use Rattle.plasma_tx.specs.Openings.{leaf_length, leaf_in};
ghost use Rattle.sparse_merkle.specs.Opening.{hashed_string, hashed_strings};
ghost use Rattle.sparse_merkle.specs.TreeDigest.{AreDefaults};
ghost use Rattle.trace_exhibits.specs.Ways.{strings_in_shown, AreDigestsUp};
ghost use Rattle.trace_exhibits.specs.Opened.{Opened};
ghost use Rattle.trace_exhibits.specs.Met.{leaf_at};
ghost use Rattle.trace_exhibits.specs.Strings.{bytes_of, IsWithin};

use super::hashed_string::HashedString;
use super::shown::ShownOpening;
use plasma_base::{Hash32, NoMemory, get_u32};
use plasma_tx::{OpeningRefusal, leaf_in};
use sparse_merkle::{bit, leaf_digest, parent_bytes};
use std::alloc::Global;

/// The way up from an opening's leaf: the leaf, lent, the 64 siblings, and the digests of the 65 strings.
#[derive(Drop)]
pub(crate) struct Way<'a> {
    pub(crate) coin: u64,
    pub(crate) leaf: &'a [u8],
    pub(crate) path: [[u8; 32]; 64],
    pub(crate) digests: [[u8; 32]; 65],
}

/// The way up from the leaf of a shown opening; `None` where its bytes aren't read.
pub(crate) fn way_of<'a, H: Hash32>(
    alloc: Global,
    h: &H,
    defaults: &[[u8; 32]; 64],
    one: &ShownOpening<'a>,
) -> Result<Option<Way<'a>>, NoMemory>
    requires { AreDefaults (H.digest_of h.now) defaults.now }
    ensures { IfOk result (λ found. MatchOption found (strings_in_shown (H.digest_of h.now) one.now ≡ [])
        (λ way. (strings_in_shown (H.digest_of h.now) one.now
        ≡ hashed_strings (H.digest_of h.now) way.coin way.leaf.now way.path)
        × AreDigestsUp (H.digest_of h.now) way.coin way.leaf.now way.path way.digests
        × (way.leaf.now ≡ leaf_in one.now.opening.bytes))) }
{
    match one.opening().open_up_with_defaults(h, defaults) {
        Ok(opening) => {
            let bytes = one.opening().bytes.as_slice();
            let Some(text) = proof_text(bytes) else {
                unreachable!()
            };
            let coin = one.coin();
            let leaf = leaf_in(bytes);
            let path = path_in(h, defaults, text);
            let digests = digests_up(h, coin, opening.leaf.as_slice(), &path);
            Ok(Some(Way {
                coin,
                leaf,
                path,
                digests,
            }))
        }
        Err(OpeningRefusal::NoMemory) => Err(NoMemory),
        Err(OpeningRefusal::Unreadable) => Ok(None),
    }
}

// The bytes behind the leaf of an opening's bytes; `None` where they end before.
fn proof_text(bytes: &[u8]) -> Option<&[u8]>
    ensures { MatchOption result (length bytes.now < 4 + leaf_length bytes.now)
        (λ text. text.now ≡ drop (4 + leaf_length bytes.now) bytes.now) }
{
    let length = get_u32(bytes, 0)? as usize;
    let behind = &bytes[4..];
    if behind.len() < length {
        return None;
    }
    Some(&behind[length..])
}

// The 64 siblings of a proof's bytes, by the defaults that the caller has. It makes no digest.
fn path_in<H: Hash32>(h: &H, defaults: &[[u8; 32]; 64], text: &[u8]) -> [[u8; 32]; 64]
    requires defaults { AreDefaults (H.digest_of h.now) defaults.now }
    requires long { has_proof_length text.now ≡ true }
    ensures { result ≡ proof_path (H.digest_of h.now) (masked_path_in text.now) }
{
    let mask = mask_in(text);
    let siblings = &text[8..];
    let mut path = *defaults;
    let mut next = 0;
    for level in 0..64 {
        if bit(mask, level) {
            path[level] = sibling_in(siblings, next);
            next += 1;
        }
    }
    path
}

// The mask that a proof's bytes begin with.
fn mask_in(text: &[u8]) -> u64
    requires { 8 ≤ length text.now }
    ensures { result ≡ mask_in text.now }
{
    let mut bytes = [0; 8];
    bytes.copy_from_slice(&text[..8]);
    u64::from_be_bytes(bytes)
}

// The sibling with that number among those that stand one after another.
fn sibling_in(siblings: &[u8], number: usize) -> [u8; 32]
    requires { 32 * number + 32 ≤ length siblings.now }
    ensures { result ≡ take 32 (drop (32 * number) siblings.now) }
{
    let mut sibling = [0; 32];
    sibling.copy_from_slice(&siblings[32 * number..32 * number + 32]);
    sibling
}

// The digests of the 65 strings on the way up from a leaf.
fn digests_up<H: Hash32>(h: &H, coin: u64, leaf: &[u8], path: &[[u8; 32]; 64]) -> [[u8; 32]; 65]
    ensures { AreDigestsUp (H.digest_of h.now) coin leaf.now path.now result }
{
    let mut digests = [[0; 32]; 65];
    digests[0] = leaf_digest(h, leaf);
    for level in 0..64 {
        digests[level + 1] = h.digest(&parent_bytes(
            bit(coin, level),
            &digests[level],
            &path[level],
        ));
    }
    digests
}

/// The string at a level of a way up, whose digests are those of `h`, and whose leaf is that of the opening at a place.
pub(crate) fn string_at<H: Hash32>(h: &H, way: &Way<'_>, place: usize, level: usize) -> HashedString
    requires digests { AreDigestsUp (H.digest_of h.now) way.now.coin way.now.leaf.now way.now.path way.now.digests }
    requires within { level < 65 }
    ensures bytes { (met : List Opened) → leaf_at met place ≡ way.now.leaf.now → bytes_of met result
        ≡ hashed_string (H.digest_of h.now) way.now.coin way.now.leaf.now way.now.path level }
    ensures kept { (met : List Opened) → place < length met → IsWithin met result }
{
    if level == 0 {
        return HashedString::Leaf(place);
    }
    let below = level - 1;
    let digest = way.digests[below];
    let sibling = way.path[below];
    HashedString::Node(parent_bytes(bit(way.coin, below), &digest, &sibling))
}
