ghost use Rattle.std.specs.Prelude.{◌≡◌, ◌≤◌, ◌<◌, ◌+◌, [], true, length, slice_range, IfOk, IfSome, option_map, Ok};
ghost use Rattle.gate_journal.specs.Image.{most};
ghost use Rattle.plasma_tx.specs.Spelling.{number_at};
ghost use Rattle.operator_rules.specs.Records.{Laid, Sealed, Offered, identity_text, identity_in, identity_of, note_text, note_in, tag_in};
ghost use Rattle.std.specs.Option.{unwrap_or};
ghost use Rattle.operator_core.specs.Texts.{identity_of_who, put_of, put_of_change, offered_coin};

use plasma_base::{Bytes, NoMemory, put_u64};
use plasma_tx::Body;
use std::alloc::Global;

/// Whose records they are: the chain's tag, the operator's account, and the seed of its key, if it has
/// one.
#[derive(Clone, Copy)]
pub struct Who {
    pub tag: [u8; 32],
    pub account: u64,
    pub key_seed: Option<[u8; 32]>,
}

/// What a note does to the pool, whose leaf the record lends.
#[derive(Clone, Copy)]
pub enum Change<'a> {
    Put(u64, &'a [u8]),
    Seal,
}

// The 32 bytes at a place.
fn word_at(bytes: &[u8], place: usize) -> [u8; 32]
    requires { place + 32 ≤ length bytes.now }
    ensures { result ≡ slice_range bytes.now place (place + 32) }
{
    let mut word = [0; 32];
    word.copy_from_slice(&bytes[place..place + 32]);
    word
}

/// The number that the eight bytes at a place spell, the highest first.
pub fn number_at(bytes: &[u8], place: usize) -> u64
    requires { place + 8 ≤ length bytes.now }
    ensures { result ≡ number_at bytes.now place }
{
    let mut field = [0; 8];
    field.copy_from_slice(&bytes[place..place + 8]);
    u64::from_be_bytes(field)
}

// The identity that stands behind the first byte, with that seed.
fn identity_of(bytes: &[u8], key_seed: Option<[u8; 32]>) -> Who
    requires { 40 ≤ length bytes.now }
    ensures { identity_of_who result ≡ identity_of bytes.now key_seed }
{
    Who {
        tag: word_at(bytes, 0),
        account: number_at(bytes, 32),
        key_seed,
    }
}

/// The identity that a record spells.
#[tactic(auto, unfolding(operator_rules::specs::Records::identity_in))]
pub fn identity_in(body: &[u8]) -> Option<Who>
    ensures { option_map identity_of_who result ≡ identity_in body.now }
{
    let (mark, bytes) = body.split_first()?;
    if *mark == 33 && bytes.len() == 40 {
        return Some(identity_of(bytes, None));
    }
    if *mark == 38 && bytes.len() == 72 {
        return Some(identity_of(bytes, Some(word_at(bytes, 40))));
    }
    None
}

/// The tag of the identity that a record spells.
pub fn tag_in(body: &[u8]) -> Option<[u8; 32]>
    ensures { unwrap_or result [] ≡ tag_in body.now }
{
    match identity_in(body) {
        Some(who) => Some(who.tag),
        None => None,
    }
}

// The coin of the signed transfer with that tag that bytes spell; without a tag none do. It takes no memory.
#[tactic(auto, using(crate::proofs::Texts::reading))]
fn offered_coin(tag: Option<[u8; 32]>, bytes: &[u8]) -> Option<u64>
    ensures { result ≡ offered_coin (unwrap_or tag []) bytes.now }
{
    match Body::read(&tag?, bytes) {
        Ok(body) => Some(body.coin),
        Err(_) => None,
    }
}

/// What the note does that a record of a chain with that tag spells.
#[tactic(auto, unfolding(operator_rules::specs::Records::note_in))]
pub fn change_in(tag: Option<[u8; 32]>, body: &[u8]) -> Option<Change<'_>>
    ensures { option_map put_of_change result ≡ option_map put_of (note_in (unwrap_or tag []) body.now) }
{
    let (mark, bytes) = body.split_first()?;
    if *mark == 34 {
        return Some(Change::Put(offered_coin(tag, bytes)?, bytes));
    }
    if *mark == 35 && bytes.len() >= 8 {
        return Some(Change::Put(number_at(bytes, 0), &bytes[8..]));
    }
    if *mark == 36 && bytes.is_empty() {
        return Some(Change::Seal);
    }
    None
}

/// The record of an identity.
#[tactic(auto, using(crate::proofs::Texts::grouped), unfolding(operator_rules::specs::Records::identity_text))]
pub fn identity_record(alloc: Global, who: &Who) -> Result<Bytes, NoMemory>
    ensures is { IfOk result (λ text. text ≡ identity_text (identity_of_who who.now)) }
    ensures fits { IfOk result (λ text. length text ≤ most) }
{
    let mut text = Vec::with_capacity(alloc, 73)?;
    text.push(if who.key_seed.is_some() { 38 } else { 33 })?;
    text.extend_from_slice(&who.tag)?;
    put_u64(&mut text, who.account)?;
    if let Some(seed) = &who.key_seed {
        text.extend_from_slice(seed)?;
    }
    Ok(Bytes::from_vec(text))
}

/// The record of an offered transfer.
#[tactic(auto, using(crate::proofs::Texts::grouped), unfolding(operator_rules::specs::Records::note_text))]
pub fn offered_record(alloc: Global, bytes: &[u8]) -> Result<Bytes, NoMemory>
    ensures { IfOk result (λ text. text ≡ note_text (Offered bytes.now)) }
{
    let mut text = Vec::new(alloc);
    text.push(34)?;
    text.extend_from_slice(bytes)?;
    Ok(Bytes::from_vec(text))
}

// Whether it is the record of an offer of these bytes.
#[tactic(auto, unfolding(operator_rules::specs::Records::note_text))]
fn is_offered(body: &[u8], bytes: &[u8]) -> bool
    ensures { result ≡ true → body.now ≡ note_text (Offered bytes.now) }
{
    match body.split_first() {
        Some((mark, rest)) => *mark == 34 && rest == bytes,
        None => false,
    }
}

/// The record of an offer of these bytes, lent, where one of these is it.
pub fn same_offer<'a>(bodies: &'a [Bytes], bytes: &[u8]) -> Option<&'a Bytes>
    ensures { IfSome result (λ body. body.now ≡ note_text (Offered bytes.now)) }
{
    for body in bodies {
        if is_offered(body.as_slice(), bytes) {
            return Some(body);
        }
    }
    None
}

/// The record of bytes that were laid at a coin.
#[tactic(auto, using(crate::proofs::Texts::grouped), unfolding(operator_rules::specs::Records::note_text))]
pub fn laid_record(alloc: Global, coin: u64, bytes: &[u8]) -> Result<Bytes, NoMemory>
    ensures { IfOk result (λ text. text ≡ note_text (Laid coin bytes.now)) }
{
    let mut text = Vec::new(alloc);
    text.push(35)?;
    put_u64(&mut text, coin)?;
    text.extend_from_slice(bytes)?;
    Ok(Bytes::from_vec(text))
}

/// The record of a seal.
#[tactic(auto, using(crate::proofs::Texts::grouped), unfolding(operator_rules::specs::Records::note_text))]
pub fn sealed_record(alloc: Global) -> Result<Bytes, NoMemory>
    ensures { IfOk result (λ text. text ≡ note_text Sealed) }
{
    let mut text = Vec::new(alloc);
    text.push(36)?;
    Ok(Bytes::from_vec(text))
}
