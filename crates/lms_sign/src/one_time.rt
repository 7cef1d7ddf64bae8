ghost use Rattle.std.specs.Prelude.{◌≡◌, ℕ, ◌+◌, ◌*◌, ◌^◌, ◌<◌, ◌≤◌, ◌⊎◌, List, [], length, slice_index_or};
ghost use Rattle.lms_sign.specs.Types.{chain_length, chains};
ghost use Rattle.lms_sign.specs.OneTime.{chain_end, chain_step, coefficient, concatenation, digit, finished_string, hash_with_checksum, one_time_key, one_time_public, private_element, randomizer, signed_string};
ghost use Rattle.lms_sign.specs.Lanes.{IsBegun};
ghost use Rattle.lms_sign.specs.Valid.{candidate, string_of};

use super::blocks::{begin_steps, strings_after};
use super::chains::{Span, take_steps};
use super::fields::{put, u16str};
use super::hashing::{D_PBLC, chain_step, hasher_for, message_hash};
use super::lanes::Begun;
use super::secret::Secret;
use super::types::LmsTypes;
use sha2::Digest;

// No leaf has more chains.
const MOST_CHAINS: usize = 67;

/// Room for the strings of a leaf's chains, in nine groups of eight.
pub(crate) const STRINGS: usize = 72;

/// The i-th group of w bits of the bytes, from the highest bit of the first byte.
#[tactic(auto, using(crate::proofs::Sizes::digits_of_width), unfolding(crate::specs::OneTime::coefficient))]
fn coefficient(bytes: &[u8], i: u16, w: usize) -> u8
    requires width { (w ≡ 4) ⊎ (w ≡ 8) }
    requires within { i * w < 8 * length bytes.now }
    ensures value { result ≡ coefficient bytes.now i w }
    ensures bound { result < 2 ^ w }
{
    let i = usize::from(i);
    let byte = u32::from(bytes[i * w / 8]);
    let shifted = byte >> (8 - (w * (i % (8 / w)) + w));
    (shifted % (1 << w)) as u8
}

/// The hash with its checksum.
fn hash_with_checksum(types: &LmsTypes, hash: &[u8; 32]) -> [u8; 34]
    ensures { result ≡ hash_with_checksum types.now hash.now }
{
    let w = types.width();
    let full: u16 = (1 << w) - 1;
    let mut short: u16 = 0;
    for i in 0..(256 / w) as u16 {
        short += full - u16::from(coefficient(hash, i, w));
    }
    let mut all = [0; 34];
    put(&mut all, 0, hash);
    put(&mut all, 32, &u16str(short << types.shift()));
    all
}

/// The digit that says how far a chain is taken.
fn digit(types: &LmsTypes, hash: &[u8; 32], with_sum: &[u8; 34], i: u16) -> u8
    requires of_hash { with_sum.now ≡ hash_with_checksum types.now hash.now }
    requires in_chains { i < chains types.now }
    ensures value { result ≡ digit types.now hash.now i }
    ensures bound { result ≤ chain_length types.now }
{
    coefficient(with_sum, i, types.width())
}

/// The number of steps from the start of a chain to its end.
pub(crate) fn chain_length(types: &LmsTypes) -> u8
    ensures { result ≡ chain_length types.now }
{
    ((1u16 << types.width()) - 1) as u8
}

/// The randomizer of a leaf.
pub(crate) fn randomizer(secret: &Secret, q: u32) -> [u8; 32]
    ensures { result ≡ randomizer secret.now q }
{
    chain_step(&secret.id, q, 0xfffd, 0xff, &secret.seed)
}

/// The strings of the chains of leaf q, each taken as far as its digit of the hash says.
pub(crate) fn signed_strings(secret: &Secret, q: u32, hash: &[u8; 32]) -> [[u8; 32]; STRINGS]
    ensures { (i : ℕ) → i < chains secret.now.types
        → slice_index_or result i [] ≡ signed_string secret.now q hash.now i }
{
    let types = &secret.types;
    let with_sum = hash_with_checksum(types, hash);
    let mut spans = [Span { from: 0, to: 0 }; MOST_CHAINS];
    'digits: for i in 0..types.chains() {
        let to = digit(types, hash, &with_sum, i);
        spans[usize::from(i)] = Span { from: 0, to };
    }
    let mut strings = private_elements(secret, q);
    let spans = &mut spans[..usize::from(types.chains())];
    take_steps(&secret.id, q, spans, &mut strings);
    strings
}

// The strings that eight chains start with, from a number on: a step from the seed at the place 0xff.
fn eight_elements(begun: &Begun, first: usize, seed: &[u8; 32]) -> [[u8; 32]; 8]
    requires { first + 8 ≤ 2 ^ 16 }
    ensures { (id : List ℕ) (q k : ℕ) → length id ≡ 16 → IsBegun id q begun.now → k < 8
        → slice_index_or result k [] ≡ chain_step id q (first + k) 0xff seed.now }
{
    let mut marks = [0; 8];
    'marks: for k in 0..8 {
        marks[k] = (first + k) as u32 * 256 + 0xff;
    }
    strings_after(begun, &marks, 1, &[*seed; 8])
}

// The strings that the chains of leaf q start with.
fn private_elements(secret: &Secret, q: u32) -> [[u8; 32]; STRINGS]
    ensures { (i : ℕ) → i < chains secret.now.types
        → slice_index_or result i [] ≡ private_element secret.now q i }
{
    let begun = begin_steps(&secret.id, q);
    let mut strings = [[0; 32]; STRINGS];
    'groups: for group in 0..usize::from(secret.types.chains()).div_ceil(8) {
        let elements = eight_elements(&begun, 8 * group, &secret.seed);
        'lanes: for k in 0..8 {
            strings[8 * group + k] = elements[k];
        }
    }
    strings
}

// The strings that the chains of leaf q end with.
fn chain_ends(secret: &Secret, q: u32) -> [[u8; 32]; STRINGS]
    ensures { (i : ℕ) → i < chains secret.now.types → slice_index_or result i [] ≡ chain_end secret.now q i }
{
    let steps = chain_length(&secret.types);
    let mut spans = [Span { from: 0, to: steps }; MOST_CHAINS];
    let mut strings = private_elements(secret, q);
    let spans = &mut spans[..usize::from(secret.types.chains())];
    take_steps(&secret.id, q, spans, &mut strings);
    strings
}

// The strings that a signature of the hash leads to at the ends of the chains.
fn finished_strings(
    types: &LmsTypes,
    id: &[u8; 16],
    q: u32,
    hash: &[u8; 32],
    signature: &[u8],
) -> [[u8; 32]; STRINGS]
    requires { 40 + 32 * chains types.now ≤ length signature.now }
    ensures { (i : ℕ) → i < chains types.now → slice_index_or result i []
        ≡ finished_string types.now id.now q hash.now (string_of signature.now) i }
{
    let with_sum = hash_with_checksum(types, hash);
    let steps = chain_length(types);
    let mut spans = [Span { from: 0, to: 0 }; MOST_CHAINS];
    let mut strings = [[0; 32]; STRINGS];
    'given: for i in 0..types.chains() {
        let from = digit(types, hash, &with_sum, i);
        spans[usize::from(i)] = Span { from, to: steps };
        strings[usize::from(i)] = string_of(signature, i);
    }
    let spans = &mut spans[..usize::from(types.chains())];
    take_steps(id, q, spans, &mut strings);
    strings
}

// The one-time public key, from the ends of the chains.
fn one_time_key(id: &[u8; 16], q: u32, ends: &[[u8; 32]]) -> [u8; 32]
    ensures { result
        ≡ one_time_key id.now q (concatenation (λ i. slice_index_or ends.now i []) (length ends.now)) }
{
    let mut hasher = hasher_for(id, q, D_PBLC);
    'ends: for i in 0..ends.len() {
        hasher.update(ends[i]);
    }
    hasher.finalize()
}

/// The one-time public key of a leaf.
pub(crate) fn one_time_public(secret: &Secret, q: u32) -> [u8; 32]
    ensures { result ≡ one_time_public secret.now q }
{
    let ends = chain_ends(secret, q);
    one_time_key(&secret.id, q, &ends[..usize::from(secret.types.chains())])
}

/// The one-time public key that a signature of the message speaks for.
pub(crate) fn candidate(
    types: &LmsTypes,
    id: &[u8; 16],
    q: u32,
    message: &[u8],
    signature: &[u8],
) -> [u8; 32]
    requires { 40 + 32 * chains types.now ≤ length signature.now }
    ensures { result ≡ candidate types.now id.now q message.now signature.now }
{
    let hash = message_hash(id, q, &signature[8..40], message);
    let ends = finished_strings(types, id, q, &hash, signature);
    one_time_key(id, q, &ends[..usize::from(types.chains())])
}

/// The string that a signature gives for a chain.
#[tactic(auto, unfolding(crate::specs::Valid::string_of))]
fn string_of(signature: &[u8], i: u16) -> [u8; 32]
    requires { 40 + 32 * (i + 1) ≤ length signature.now }
    ensures { result ≡ string_of signature.now i }
{
    let place = 40 + 32 * usize::from(i);
    let mut string = [0; 32];
    string.copy_from_slice(&signature[place..place + 32]);
    string
}
