ghost use Rattle.std.specs.Prelude.{◌≡◌, ◌<◌, ◌^◌, ◌≤◌, ◌+◌, length, drop, is_some, Ok, IfOk, IfErr, IfSome};
ghost use Rattle.std.specs.Option.{option_copied};
ghost use Rattle.gate_journal.specs.Image.{body_in, begins_open, after_mark, journal_in, kept_records, spelled, Spells};
ghost use Rattle.gate_journal.specs.Inside.{IsReadRefusal};

use super::refusal::JournalRefusal;
use plasma_base::{Bytes, get_u32};
use std::alloc::Global;

/// The most bytes of a body.
pub const MOST_BYTES: usize = 1 << 24;

// The byte of an open gate.
pub const OPEN_GATE: u8 = 0xa5;

// A closed gate.
pub const CLOSED_GATE: u8 = 0;

// The body behind a gate; `None` where it runs past the end or is too long.
fn body_in(bytes: &[u8]) -> Option<&[u8]>
    ensures body { option_copied result ≡ body_in bytes.now }
    ensures within { IfSome result (λ body. 4 + length body.now ≤ length bytes.now) }
{
    let count = get_u32(bytes, 0)? as usize;
    if count > MOST_BYTES || bytes.len() - 4 < count {
        return None;
    }
    Some(&bytes[4..4 + count])
}

// What follows the mark; `None` where the image doesn't begin with it.
fn after_mark(image: &[u8]) -> Option<&[u8]>
    ensures { option_copied result ≡ after_mark image.now }
{
    match image {
        [b'P', b'G', b'J', b'1', bytes @ ..] => Some(bytes),
        _ => None,
    }
}

// The bytes after the first so many.
fn after(bytes: &[u8], count: usize) -> &[u8]
    requires { count ≤ length bytes.now }
    ensures { result.now ≡ drop count bytes.now }
{
    &bytes[count..]
}

// Whether an open gate stands in front.
fn begins_open(bytes: &[u8]) -> bool
    ensures { result ≡ begins_open bytes.now }
{
    match bytes {
        [gate, ..] => *gate == OPEN_GATE,
        [] => false,
    }
}

// Whether an image of five bytes spells a journal.
pub fn is_empty_journal(image: &[u8]) -> bool
    requires { length image.now ≡ 5 }
    ensures { result ≡ is_some (kept_records image.now) }
{
    match after_mark(image) {
        Some(bytes) => !begins_open(bytes),
        None => false,
    }
}

// The records of an image, and the place of the closed gate behind them.
#[derive(Drop)]
pub struct Found {
    pub records: Vec<Bytes>,
    pub gate: u64,
}

// Reads the records of an image.
pub fn read_records(alloc: Global, image: &[u8]) -> Result<Found, JournalRefusal>
    ensures records { IfOk result (λ found. journal_in image.now ≡ Ok found.records.items) }
    ensures kept { IfOk result (λ found. Spells image.now found.records.items) }
    ensures gate { IfOk result (λ found. found.gate ≡ length (spelled found.records.items)) }
    ensures place { IfOk result (λ found. found.gate + 1 < 2 ^ 64) }
    ensures refused { IfErr result (IsReadRefusal image.now) }
{
    let Some(bytes) = after_mark(image) else {
        return Err(JournalRefusal::NotJournal { place: 0 });
    };
    let mut rest = bytes;
    let mut place = 4u64;
    // Many journals have one record, and a vector that grows begins with four.
    let mut records = Vec::with_capacity(alloc, 1)?;
    'records: while begins_open(rest) {
        let Some(body) = body_in(after(rest, 1)) else {
            return Err(JournalRefusal::NotJournal { place });
        };
        records.push(Bytes::from_vec(body.to_vec(alloc)?))?;
        place += 5 + body.len() as u64;
        rest = after(rest, 5 + body.len());
    }
    if rest.is_empty() {
        return Err(JournalRefusal::NotJournal { place });
    }
    Ok(Found {
        records,
        gate: place,
    })
}
