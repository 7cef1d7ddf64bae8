ghost use Rattle.std.specs.Prelude.{◌≡◌, ◌≢◌, ◌≤◌, ◌&&◌, ◌||◌, nat_le, ◌∷◌, codes, Some, None, Err, IfOk, IfSome};
ghost use Rattle.std.specs.List.{list_all};
ghost use Rattle.std.specs.Str.{bytes_eq};
ghost use Rattle.line_forms.specs.Forms.{takes};
ghost use Rattle.line_forms.specs.Tokens.{number, number_within, name, hex, hex_of, key, to, bytes, shown, outcomes, outcome, optional_number, some_bytes, declared_name, declared_name_in, is_letter, is_name, name_in, hex_of_in, hex_or_name_in, number_within_in, item_in, bytes_in, shown_in, some_bytes_in};

use super::names::named;
use super::numbers::number;
use super::refusal::LineRefusal;
use super::tokens::{
    HexOrItem, HexOrName, KEY_BYTES, NAME_BYTES, OUTCOME_NAMES, OWNER_BYTES, OutcomeName,
    OutcomeToken, ShownToken,
};
use super::words::Words;
use plasma_base::{Bytes, take_hex};
use std::alloc::Global;

// Whether a byte may stand in a name after its first.
fn is_letter_or_digit(byte: u8) -> bool
    ensures { result ≡ (is_letter byte || (nat_le 48 byte && nat_le byte 57)) }
{
    byte.is_ascii_lowercase() || byte.is_ascii_digit()
}

// Whether each byte may stand in a name after its first.
fn are_letters_or_digits(bytes: &[u8]) -> bool
    ensures { result ≡ list_all (λ byte. is_letter byte || (nat_le 48 byte && nat_le byte 57)) bytes.now }
{
    bytes.iter().all(|byte| is_letter_or_digit(*byte))
}

// Whether a word is a letter and then letters or digits, `NAME_BYTES` in all at most.
fn is_name(word: &[u8]) -> bool
    ensures { result ≡ is_name word.now }
{
    match word {
        [] => false,
        [first, rest @ ..] => {
            first.is_ascii_lowercase() && are_letters_or_digits(rest) && word.len() <= NAME_BYTES
        }
    }
}

// The name that a word is.
#[tactic(auto, unfolding(crate::specs::Tokens::name_in))]
fn name_in(alloc: Global, word: &[u8]) -> Result<Bytes, LineRefusal>
    ensures found { IfOk result (λ name. name_in word.now ≡ Some name) }
    ensures bad { result ≡ Err LineRefusal.BadLine → name_in word.now ≡ None }
{
    if is_name(word) {
        Ok(Bytes::from_vec(word.to_vec(alloc)?))
    } else {
        Err(LineRefusal::BadLine)
    }
}

// Whether a name is the operator's.
fn is_operator(name: &[u8]) -> bool
    ensures { result ≡ bytes_eq name.now (codes "op") }
{
    name == b"op".as_slice()
}

// The name that a word is, other than the operator's.
#[tactic(auto, unfolding(crate::specs::Tokens::declared_name_in))]
fn declared_name_in(alloc: Global, word: &[u8]) -> Result<Bytes, LineRefusal>
    ensures found { IfOk result (λ name. declared_name_in word.now ≡ Some name) }
    ensures bad { result ≡ Err LineRefusal.BadLine → declared_name_in word.now ≡ None }
{
    let name = name_in(alloc, word)?;
    if is_operator(name.as_slice()) {
        Err(LineRefusal::BadLine)
    } else {
        Ok(name)
    }
}

// The bytes that a hex of `count` bytes spells.
#[tactic(auto, unfolding(crate::specs::Tokens::hex_of_in))]
fn hex_of_in(alloc: Global, count: usize, word: &[u8]) -> Result<Bytes, LineRefusal>
    ensures found { IfOk result (λ bytes. hex_of_in count word.now ≡ Some bytes) }
    ensures bad { result ≡ Err LineRefusal.BadLine → hex_of_in count word.now ≡ None }
{
    let bytes = take_hex(alloc, word)?;
    if bytes.len() == count {
        Ok(Bytes::from_vec(bytes))
    } else {
        Err(LineRefusal::BadLine)
    }
}

// The hex of `count` bytes, or the name, that a word is.
#[tactic(auto, unfolding(crate::specs::Tokens::hex_or_name_in, crate::specs::Tokens::name_in))]
fn hex_or_name_in(alloc: Global, count: usize, word: &[u8]) -> Result<HexOrName, LineRefusal>
    ensures found { IfOk result (λ value. hex_or_name_in count word.now ≡ Some value) }
    ensures bad { result ≡ Err LineRefusal.BadLine → hex_or_name_in count word.now ≡ None }
{
    if is_name(word) {
        return Ok(HexOrName::Name(Bytes::from_vec(word.to_vec(alloc)?)));
    }
    Ok(HexOrName::Hex(hex_of_in(alloc, count, word)?))
}

// The number that a word spells, if it is from `low` to `high`.
#[tactic(auto, unfolding(crate::specs::Tokens::number_within_in))]
fn number_within_in(low: u64, high: u64, word: &[u8]) -> Option<u64>
    ensures is { result ≡ number_within_in low high word.now }
    ensures within { IfSome result (λ value. (low ≤ value) × (value ≤ high)) }
{
    let value = number(word)?;
    (low <= value && value <= high).then_some(value)
}

// The line whose mail item a word names.
fn item_in(word: &[u8]) -> Option<u64>
    ensures { result ≡ item_in word.now }
{
    match word {
        [b'#', digits @ ..] => number(digits),
        _ => None,
    }
}

// The bytes token that a word is.
#[tactic(auto, unfolding(crate::specs::Tokens::bytes_in))]
fn bytes_in(alloc: Global, word: &[u8]) -> Result<HexOrItem, LineRefusal>
    ensures found { IfOk result (λ value. bytes_in word.now ≡ Some value) }
    ensures bad { result ≡ Err LineRefusal.BadLine → bytes_in word.now ≡ None }
{
    match item_in(word) {
        Some(line) => Ok(HexOrItem::Item(line)),
        None => Ok(HexOrItem::Hex(Bytes::from_vec(take_hex(alloc, word)?))),
    }
}

// The shown token that a word is.
#[tactic(auto, unfolding(crate::specs::Tokens::shown_in))]
fn shown_in(alloc: Global, word: &[u8]) -> Result<ShownToken, LineRefusal>
    ensures found { IfOk result (λ value. shown_in word.now ≡ Some value) }
    ensures bad { result ≡ Err LineRefusal.BadLine → shown_in word.now ≡ None }
{
    match word {
        b"-" => Ok(ShownToken::Deposit),
        _ => Ok(ShownToken::Bytes(bytes_in(alloc, word)?)),
    }
}

// The bytes that a hex of one byte or more spells.
#[tactic(auto, unfolding(crate::specs::Tokens::some_bytes_in))]
fn some_bytes_in(alloc: Global, word: &[u8]) -> Result<Bytes, LineRefusal>
    ensures found { IfOk result (λ bytes. some_bytes_in word.now ≡ Some bytes) }
    ensures bad { result ≡ Err LineRefusal.BadLine → some_bytes_in word.now ≡ None }
{
    let bytes = take_hex(alloc, word)?;
    if bytes.is_empty() {
        Err(LineRefusal::BadLine)
    } else {
        Ok(Bytes::from_vec(bytes))
    }
}

// The words of an outcome after its first.
fn outcome_of(
    alloc: Global,
    name: OutcomeName,
    words: &mut Words<'_>,
) -> Result<OutcomeToken, LineRefusal>
    ensures found { IfOk result (λ value. takes (outcomes.row name) words.old ≡ Some (value, words.new)) }
    ensures bad { result ≡ Err LineRefusal.BadLine → takes (outcomes.row name) words.old ≡ None }
{
    match name {
        OutcomeName::Old => Ok(OutcomeToken::Old),
        OutcomeName::New => Ok(OutcomeToken::New),
        OutcomeName::Mix => Ok(OutcomeToken::Mix {
            extra: words.number()?,
            bytes: words.some_bytes(alloc)?,
        }),
    }
}

/// Each call takes the next words as one token and refuses `BadLine` exactly where they are none of
/// its kind. After a refusal nothing is said of the words that are left.
impl<'a> Words<'a> {
    /// `<number>`: decimal digits without a leading zero, or `0`, at most 18446744073709551615.
    #[inline]
    pub fn number(&mut self) -> Result<u64, LineRefusal>
        ensures found { IfOk result (λ value. number.take self.old ≡ Some (value, self.new)) }
        ensures bad { result ≡ Err LineRefusal.BadLine → number.take self.old ≡ None }
        ensures no_memory_wanted { result ≢ Err LineRefusal.NoMemory }
    {
        let word = self.next().ok_or(LineRefusal::BadLine)?;
        number(word).ok_or(LineRefusal::BadLine)
    }

    /// A number from `low` to `high`.
    pub fn number_within(&mut self, low: u64, high: u64) -> Result<u64, LineRefusal>
        ensures found { IfOk result (λ value. (number_within low high).take self.old ≡ Some (value, self.new)) }
        ensures bad { result ≡ Err LineRefusal.BadLine → (number_within low high).take self.old ≡ None }
        ensures within { IfOk result (λ value. (low ≤ value) × (value ≤ high)) }
        ensures no_memory_wanted { result ≢ Err LineRefusal.NoMemory }
    {
        let word = self.next().ok_or(LineRefusal::BadLine)?;
        number_within_in(low, high, word).ok_or(LineRefusal::BadLine)
    }

    /// `<name>`: a letter `a` to `z`, then up to 15 letters or digits.
    pub fn name(&mut self, alloc: Global) -> Result<Bytes, LineRefusal>
        ensures found { IfOk result (λ value. name.take self.old ≡ Some (value, self.new)) }
        ensures bad { result ≡ Err LineRefusal.BadLine → name.take self.old ≡ None }
    {
        let word = self.next().ok_or(LineRefusal::BadLine)?;
        name_in(alloc, word)
    }

    /// `<name>` where a line declares it: each name but `op`, which is the operator's.
    pub fn declared_name(&mut self, alloc: Global) -> Result<Bytes, LineRefusal>
        ensures found { IfOk result (λ value. declared_name.take self.old ≡ Some (value, self.new)) }
        ensures bad { result ≡ Err LineRefusal.BadLine → declared_name.take self.old ≡ None }
    {
        let word = self.next().ok_or(LineRefusal::BadLine)?;
        declared_name_in(alloc, word)
    }

    /// `<hex>`: `0x` and an even number of digits `0` to `9`, `a` to `f`.
    pub fn hex(&mut self, alloc: Global) -> Result<Bytes, LineRefusal>
        ensures found { IfOk result (λ value. hex.take self.old ≡ Some (value, self.new)) }
        ensures bad { result ≡ Err LineRefusal.BadLine → hex.take self.old ≡ None }
    {
        let word = self.next().ok_or(LineRefusal::BadLine)?;
        Ok(Bytes::from_vec(take_hex(alloc, word)?))
    }

    /// A hex of `count` bytes.
    pub fn hex_of(&mut self, alloc: Global, count: usize) -> Result<Bytes, LineRefusal>
        ensures found { IfOk result (λ value. (hex_of count).take self.old ≡ Some (value, self.new)) }
        ensures bad { result ≡ Err LineRefusal.BadLine → (hex_of count).take self.old ≡ None }
    {
        let word = self.next().ok_or(LineRefusal::BadLine)?;
        hex_of_in(alloc, count, word)
    }

    /// A hex of one byte or more.
    pub fn some_bytes(&mut self, alloc: Global) -> Result<Bytes, LineRefusal>
        ensures found { IfOk result (λ value. some_bytes.take self.old ≡ Some (value, self.new)) }
        ensures bad { result ≡ Err LineRefusal.BadLine → some_bytes.take self.old ≡ None }
    {
        let word = self.next().ok_or(LineRefusal::BadLine)?;
        some_bytes_in(alloc, word)
    }

    /// `<key>`: a hex of `KEY_BYTES` bytes, or a name.
    pub fn key(&mut self, alloc: Global) -> Result<HexOrName, LineRefusal>
        ensures found { IfOk result (λ value. key.take self.old ≡ Some (value, self.new)) }
        ensures bad { result ≡ Err LineRefusal.BadLine → key.take self.old ≡ None }
    {
        let word = self.next().ok_or(LineRefusal::BadLine)?;
        hex_or_name_in(alloc, KEY_BYTES, word)
    }

    /// `<to>`: a hex of `OWNER_BYTES` bytes, or a name.
    pub fn to(&mut self, alloc: Global) -> Result<HexOrName, LineRefusal>
        ensures found { IfOk result (λ value. to.take self.old ≡ Some (value, self.new)) }
        ensures bad { result ≡ Err LineRefusal.BadLine → to.take self.old ≡ None }
    {
        let word = self.next().ok_or(LineRefusal::BadLine)?;
        hex_or_name_in(alloc, OWNER_BYTES, word)
    }

    /// `<bytes>`: a hex, or `#` and a number.
    pub fn bytes(&mut self, alloc: Global) -> Result<HexOrItem, LineRefusal>
        ensures found { IfOk result (λ value. bytes.take self.old ≡ Some (value, self.new)) }
        ensures bad { result ≡ Err LineRefusal.BadLine → bytes.take self.old ≡ None }
    {
        let word = self.next().ok_or(LineRefusal::BadLine)?;
        bytes_in(alloc, word)
    }

    /// `<shown>`: `-`, or bytes.
    pub fn shown(&mut self, alloc: Global) -> Result<ShownToken, LineRefusal>
        ensures found { IfOk result (λ value. shown.take self.old ≡ Some (value, self.new)) }
        ensures bad { result ≡ Err LineRefusal.BadLine → shown.take self.old ≡ None }
    {
        let word = self.next().ok_or(LineRefusal::BadLine)?;
        shown_in(alloc, word)
    }

    /// `<outcome>`: `old`, `new`, or `mix`, a number and a hex of one byte or more.
    pub fn outcome(&mut self, alloc: Global) -> Result<OutcomeToken, LineRefusal>
        ensures found { IfOk result (λ value. outcome.take self.old ≡ Some (value, self.new)) }
        ensures bad { result ≡ Err LineRefusal.BadLine → outcome.take self.old ≡ None }
    {
        let word = self.next().ok_or(LineRefusal::BadLine)?;
        let name = named(&OUTCOME_NAMES, word).ok_or(LineRefusal::BadLine)?;
        outcome_of(alloc, name, self)
    }

    /// `[<number>]`: a number, or no word where the line ends.
    pub fn optional_number(&mut self) -> Result<Option<u64>, LineRefusal>
        ensures found { IfOk result (λ value. optional_number.take self.old ≡ Some (value, self.new)) }
        ensures bad { result ≡ Err LineRefusal.BadLine → optional_number.take self.old ≡ None }
        ensures no_memory_wanted { result ≢ Err LineRefusal.NoMemory }
    {
        if self.is_empty() {
            return Ok(None);
        }
        Ok(Some(self.number()?))
    }
}
