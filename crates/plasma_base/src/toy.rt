ghost use Rattle.std.specs.Prelude.{◌≡◌, ◌+◌, ◌-◌, ◌*◌, ◌^◌, ◌%◌, ◌<◌, ◌≤◌};
ghost use Rattle.plasma_base.specs.Toy.{group_sum, toy_text, toy_digest, length-toy_digest};
ghost use Rattle.plasma_base.specs.DigestBytes.{small-toy_digest};

use super::TOY_MODULUS;
use super::hash::Hash32;

/// A digest for tests, whose collisions are easily found. The bytes are cut from their end into groups of
/// eight, each is read as a number with the highest byte first, and the digest is 24 zero bytes and the
/// sum of the numbers modulo 2^61 - 1, as 8 bytes.
#[derive(Clone, Copy, PartialEq, Eq)]
pub struct Toy;

impl Hash32 for Toy {
    ghost digest_of = { λ _ bytes. toy_digest bytes };

    ghost length_is = { λ _ bytes. length-toy_digest bytes };

    ghost bytes_are = { λ _ bytes. (small-toy_digest bytes).are };

    fn digest(&self, bytes: &[u8]) -> [u8; 32] {
        text_of(added(0, bytes, 0))
    }

    fn digest_two(&self, first: &[u8], second: &[u8]) -> [u8; 32] {
        text_of(added(added(0, first, second.len()), second, 0))
    }
}

// The sum with the groups of these bytes, which so many others follow.
fn added(sum: u64, bytes: &[u8], after: usize) -> u64
    requires { sum < TOY_MODULUS }
    ensures sum { result ≡ (sum + group_sum after bytes.now) % TOY_MODULUS }
    ensures small { result < TOY_MODULUS }
{
    let mut sum = sum;
    let mut rest = bytes;
    'bytes: while let Some((byte, others)) = rest.split_first() {
        sum = with_byte(sum, *byte, (others.len() % 8 + after % 8) % 8);
        rest = others;
    }
    sum
}

// The sum with a byte at a place of its group, counted from the last.
fn with_byte(sum: u64, byte: u8, place: usize) -> u64
    requires small { sum < TOY_MODULUS }
    requires in_group { place < 8 }
    ensures sum { result ≡ (sum + byte * 256 ^ place) % TOY_MODULUS }
    ensures small { result < TOY_MODULUS }
{
    let value = u128::from(byte) * place_value(place);
    ((u128::from(sum) + value) % u128::from(TOY_MODULUS)) as u64
}

// What a byte at a place of its group counts.
fn place_value(place: usize) -> u128
    requires { place < 8 }
    ensures value { result ≡ 256 ^ place }
    ensures small { result ≤ 2 ^ 56 }
{
    256u128.pow(place as u32)
}

// 24 zero bytes, and the number as 8 bytes.
#[tactic(auto, unfolding(crate::specs::Toy::toy_text))]
fn text_of(number: u64) -> [u8; 32]
    ensures { result ≡ toy_text number }
{
    let mut digest = [0; 32];
    digest[24..].copy_from_slice(&number.to_be_bytes());
    digest
}

/// The digest that `Toy` gives to whoever asks through the trait.
pub fn toy_digest(bytes: &[u8]) -> [u8; 32]
    ensures { result ≡ toy_digest bytes.now }
{
    Toy.digest(bytes)
}

/// The modulus of the toy digest is 2^61 - 1.
pub fn the_modulus_is_this_number()
    ensures { TOY_MODULUS ≡ 2 ^ 61 - 1 }
{}
