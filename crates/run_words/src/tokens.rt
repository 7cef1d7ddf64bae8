ghost use Rattle.std.specs.Prelude.{◌≡◌, ◌&&◌, is_some, Some, None, Err, IfOk};
ghost use Rattle.std.specs.List.{list_all};
ghost use Rattle.plasma_base.specs.HexText.{hex_in, digits_in, lower_digit_in};
ghost use Rattle.line_forms.specs.Tokens.{number_in, number_within_in, hex_of_in};
ghost use Rattle.run_words.specs.Forms.{types_in};

use line_forms::{LineRefusal, number};
use lms_sign::LmsTypes;
use plasma_base::{Bytes, take_hex};
use std::alloc::Global;

// The largest count of a `make`.
const MOST_COUNT: u64 = 10_000;

// The characters of a tag or a seed: `0x`, and two digits for each of its 32 bytes.
const TAG_LENGTH: usize = 66;

// The characters of a key: `0x`, and two digits for each of its 56 bytes.
const KEY_LENGTH: usize = 114;

/// The number that a word spells: decimal digits without a leading zero, or `0`, at most
/// 18446744073709551615.
pub fn number_word(word: &str) -> Option<u64>
    ensures { result ≡ number_in word.now }
{
    number(word.as_bytes())
}

/// The count that a word spells: a number that is at most 10,000.
#[tactic(auto, unfolding(line_forms::specs::Tokens::number_within_in))]
pub fn count_word(word: &str) -> Option<u64>
    ensures { result ≡ number_within_in 0 10000 word.now }
{
    let count = number_word(word)?;
    (count <= MOST_COUNT).then_some(count)
}

/// The types of a key that two words spell: two numbers, which are a pair that is supported.
#[tactic(auto, unfolding(crate::specs::Forms::types_in))]
pub fn types_words(lms: &str, ots: &str) -> Option<LmsTypes>
    ensures { result ≡ types_in lms.now ots.now }
{
    let lms = number_word(lms)?;
    let ots = number_word(ots)?;
    let types = LmsTypes {
        lms: u32::try_from(lms).ok()?,
        ots: u32::try_from(ots).ok()?,
    };
    types.is_supported().then_some(types)
}

// Whether a byte is a lower-case hexadecimal digit.
fn is_digit(byte: u8) -> bool
    ensures { result ≡ is_some (lower_digit_in byte) }
{
    matches!(byte, b'0'..=b'9' | b'a'..=b'f')
}

// Whether each byte is a lower-case hexadecimal digit.
fn are_digits(text: &[u8]) -> bool
    ensures { result ≡ list_all (λ digit. is_some (lower_digit_in digit)) text.now }
{
    text.iter().all(|digit| is_digit(*digit))
}

// Whether digits spell bytes: their number is even.
#[tactic(auto, using(crate::proofs::HexLaws::spelled))]
fn spell_bytes(digits: &[u8]) -> bool
    ensures { result ≡ is_some (digits_in digits.now) }
{
    digits.len() % 2 == 0 && are_digits(digits)
}

// Whether a text is `0x` and an even number of lower-case digits.
#[tactic(auto, unfolding(plasma_base::specs::HexText::hex_in))]
fn is_hex(text: &[u8]) -> bool
    ensures { result ≡ is_some (hex_in text.now) }
{
    match text {
        [b'0', b'x', digits @ ..] => spell_bytes(digits),
        _ => false,
    }
}

/// Whether a word is the text of bytes: `0x` and an even number of lower-case digits.
pub fn is_byte_word(word: &str) -> bool
    ensures { result ≡ is_some (hex_in word.now) }
{
    is_hex(word.as_bytes())
}

/// Whether a word is a tag or a seed: `0x` and 64 lower-case digits.
#[tactic(auto, using(crate::proofs::HexLaws::sized), unfolding(line_forms::specs::Tokens::hex_of_in))]
pub fn is_tag_word(word: &str) -> bool
    ensures { result ≡ is_some (hex_of_in 32 word.now) }
{
    word.len() == TAG_LENGTH && is_byte_word(word)
}

/// Whether a word is a key: `0x` and 112 lower-case digits.
#[tactic(auto, using(crate::proofs::HexLaws::sized), unfolding(line_forms::specs::Tokens::hex_of_in))]
pub fn is_key_word(word: &str) -> bool
    ensures { result ≡ is_some (hex_of_in 56 word.now) }
{
    word.len() == KEY_LENGTH && is_byte_word(word)
}

/// The bytes that a word spells: `0x` and an even number of lower-case digits. It refuses `BadLine`
/// exactly where it spells none.
pub fn byte_word(alloc: Global, word: &str) -> Result<Bytes, LineRefusal>
    ensures found { IfOk result (λ bytes. hex_in word.now ≡ Some bytes) }
    ensures bad { result ≡ Err LineRefusal.BadLine → hex_in word.now ≡ None }
{
    Ok(Bytes::from_vec(take_hex(alloc, word.as_bytes())?))
}

/// The 32 bytes of a tag or a seed that a word spells: `0x` and 64 lower-case digits. It refuses
/// `BadLine` exactly where it spells none.
#[tactic(auto, unfolding(line_forms::specs::Tokens::hex_of_in))]
pub fn tag_word(alloc: Global, word: &str) -> Result<[u8; 32], LineRefusal>
    ensures found { IfOk result (λ bytes. hex_of_in 32 word.now ≡ Some bytes) }
    ensures bad { result ≡ Err LineRefusal.BadLine → hex_of_in 32 word.now ≡ None }
{
    let bytes = take_hex(alloc, word.as_bytes())?;
    if bytes.len() != 32 {
        return Err(LineRefusal::BadLine);
    }
    let mut tag = [0; 32];
    tag.copy_from_slice(&bytes);
    Ok(tag)
}

/// The 56 bytes of a key that a word spells: `0x` and 112 lower-case digits. It refuses `BadLine`
/// exactly where it spells none.
#[tactic(auto, unfolding(line_forms::specs::Tokens::hex_of_in))]
pub fn key_word(alloc: Global, word: &str) -> Result<[u8; 56], LineRefusal>
    ensures found { IfOk result (λ bytes. hex_of_in 56 word.now ≡ Some bytes) }
    ensures bad { result ≡ Err LineRefusal.BadLine → hex_of_in 56 word.now ≡ None }
{
    let bytes = take_hex(alloc, word.as_bytes())?;
    if bytes.len() != 56 {
        return Err(LineRefusal::BadLine);
    }
    let mut key = [0; 56];
    key.copy_from_slice(&bytes);
    Ok(key)
}
