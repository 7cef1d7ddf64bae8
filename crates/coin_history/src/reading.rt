ghost use Rattle.std.specs.Prelude.{◌≡◌, ◌≢◌, ◌+◌, ◌≤◌, ◌<◌, ◌++◌, ◌∷◌, [], ℕ, suc, length, ◌↔◌, IsTrue, IfOk, IfErr, OnOk, MatchResult, Ok, Err, is_ok, true};
ghost use Rattle.std.specs.Option.{option_map_or};
ghost use Rattle.plasma_tx.specs.Spelling.{number_at};
ghost use Rattle.coin_history.specs.Bundles.{length_at, items_in, with_item};

use super::bundle::Openings;
use super::refusal::HistoryRefusal;
use plasma_base::{Bytes, NoMemory, get_u32, get_u64};
use plasma_tx::RawOpening;
use std::alloc::{AllocError, AllocFailed, Global};

/// An item of a bundle's bytes.
#[derive(Drop)]
struct Item<'a> {
    block: u64,
    /// The bytes of its opening.
    opening: &'a [u8],
    /// The place behind it.
    end: usize,
}

/// The number that eight bytes from a place spell; its place is refused where they run past the end.
pub fn read_number(bytes: &[u8], place: usize) -> Result<u64, HistoryRefusal>
    requires { place ≤ length bytes.now }
    ensures { MatchResult result (λ number. (place + 8 ≤ length bytes.now) × (number ≡ number_at bytes.now place))
        (λ why. (length bytes.now < place + 8) × (why ≡ HistoryRefusal.BadBundle place)) }
{
    match get_u64(bytes, place) {
        Some(number) => Ok(number),
        None => Err(HistoryRefusal::BadBundle {
            place: place as u64,
        }),
    }
}

/// The number that four bytes from a place spell; its place is refused where they run past the end.
pub fn read_length(bytes: &[u8], place: usize) -> Result<u32, HistoryRefusal>
    requires { place ≤ length bytes.now }
    ensures { MatchResult result (λ number. (place + 4 ≤ length bytes.now) × (number ≡ length_at bytes.now place))
        (λ why. (length bytes.now < place + 4) × (why ≡ HistoryRefusal.BadBundle place)) }
{
    match get_u32(bytes, place) {
        Some(number) => Ok(number),
        None => Err(HistoryRefusal::BadBundle {
            place: place as u64,
        }),
    }
}

/// Whether a block is after the one before, where there is one.
fn is_after(before: Option<u64>, block: u64) -> bool
    ensures { IsTrue result ↔ (option_map_or (λ block. block + 1) before 0 ≤ block) }
{
    before.is_none_or(|before| before < block)
}

/// The item at a place. The place of its first field that runs past the end, or of its block where it
/// isn't after the one before, is refused. It takes no memory.
fn item_at(bytes: &[u8], place: usize, before: Option<u64>) -> Result<Item<'_>, HistoryRefusal>
    requires { place ≤ length bytes.now }
    ensures ok { let low = option_map_or (λ block. block + 1) before 0 in IfOk result (λ item. (count : ℕ)
        → items_in bytes.now place low (suc count)
        ≡ with_item (record { block = item.block; bytes = item.opening.now })
        (items_in bytes.now item.end (item.block + 1) count)) }
    ensures within { IfOk result (λ item. item.end ≤ length bytes.now) }
    ensures err { let low = option_map_or (λ block. block + 1) before 0 in IfErr result (λ why. (count : ℕ)
        → items_in bytes.now place low (suc count) ≡ Err why) }
{
    let block = read_number(bytes, place)?;
    if !is_after(before, block) {
        return Err(HistoryRefusal::BadBundle {
            place: place as u64,
        });
    }
    let length = read_length(bytes, place + 8)?;
    let start = place + 12;
    let end = start + length as usize;
    if bytes.len() < end {
        return Err(HistoryRefusal::BadBundle {
            place: start as u64,
        });
    }
    Ok(Item {
        block,
        opening: &bytes[start..end],
        end,
    })
}

/// So many items that stand at a place, whose block numbers rise strictly, and the place behind them.
pub fn items_at(
    alloc: Global,
    bytes: &[u8],
    place: usize,
    count: u32,
) -> Result<(Openings, usize), HistoryRefusal>
    requires { place ≤ length bytes.now }
    ensures ok { IfOk result (λ items.
        items_in bytes.now place 0 count ≡ Ok (record { openings = items.0; place = items.1 })) }
    ensures err { IfErr result (λ why. why ≢ HistoryRefusal.NoMemory → items_in bytes.now place 0 count ≡ Err why) }
    ensures memory { IfErr result (λ why. why ≡ HistoryRefusal.NoMemory
        → (1 ≤ count) × (is_ok (items_in bytes.now place 0 1) ≡ true)) }
{
    let mut openings = Vec::new(alloc);
    let mut end = place;
    let mut before = None;
    for _ in 0..count {
        let item = item_at(bytes, end, before)?;
        push_opening(&mut openings, &item)?;
        before = Some(item.block);
        end = item.end;
    }
    Ok((Openings::from_vec(openings), end))
}

/// Puts the opening of an item at the end. What stands there where memory runs out is left open.
fn push_opening(openings: &mut Vec<RawOpening>, item: &Item<'_>) -> Result<(), NoMemory>
    ensures { OnOk result (openings.new.items
        ≡ openings.old.items ++ record { block = item.now.block; bytes = item.now.opening.now } ∷ []) }
{
    let bytes = Vec::from_slice(*openings.allocator(), item.opening)?;
    openings.push(RawOpening {
        block: item.block,
        bytes: Bytes::from_vec(bytes),
    })?;
    Ok(())
}
