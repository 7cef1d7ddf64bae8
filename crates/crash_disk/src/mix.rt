ghost use Rattle.std.specs.Prelude.{◌≡◌, ◌%◌, false, slice_index, if◌then◌else◌, ℕ, ◌<◌, ◌≤◌, ◌+◌, ◌^◌, ◌&&◌, nat_le, nat_lt, length, IfOk};
ghost use Rattle.std.specs.List.{list_any};
ghost use Rattle.crash_disk.specs.Disk.{is_within, is_touched};
ghost use Rattle.crash_disk.specs.Outcomes.{mix_of};

use plasma_base::NoMemory;
use std::alloc::Global;

// Whether a place was written since the sync, or lies past the synced bytes.
fn is_touched(bytes: &[u8], ranges: &[(u64, usize)], place: usize) -> bool
    ensures { result ≡ is_touched bytes.now ranges.now place }
{
    place >= bytes.len() || is_written(ranges, place)
}

// Whether a place lies in one of the ranges.
fn is_written(ranges: &[(u64, usize)], place: usize) -> bool
    ensures { result ≡ list_any (is_within place) ranges.now }
{
    ranges.iter().any(|range| is_within(*range, place))
}

// Whether a place lies in a range.
fn is_within(range: (u64, usize), place: usize) -> bool
    ensures { result ≡ is_within place range }
{
    let start = range.0 as usize;
    start <= place && place - start < range.1
}

// The byte at a place of a mix: the pattern's at its turn where the place is touched.
fn next_byte(bytes: &[u8], pattern: &[u8], place: usize, turn: usize, touched: bool) -> u8
    requires some { 0 < length pattern.now }
    requires within { touched ≡ false → place < length bytes.now }
    ensures { result ≡ (if touched then slice_index pattern.now (turn % length pattern.now)
        else slice_index bytes.now place) }
{
    if touched {
        pattern[turn % pattern.len()]
    } else {
        bytes[place]
    }
}

// The lowest place where a range begins, or the number of bytes where that is less: no place before it is
// touched.
fn first_touched(bytes: &[u8], ranges: &[(u64, usize)]) -> usize
    ensures within { result ≤ length bytes.now }
    ensures none { (place : ℕ) → place < result → is_touched bytes.now ranges.now place ≡ false }
{
    let mut first = bytes.len();
    for range in ranges {
        first = first.min(range.0 as usize);
    }
    first
}

// The synced bytes, so much longer, with the pattern's bytes in turn at the places that are touched.
pub fn mix(
    alloc: Global,
    bytes: &[u8],
    ranges: &[(u64, usize)],
    pattern: &[u8],
    growth: usize,
) -> Result<Vec<u8>, NoMemory>
    requires some { 0 < length pattern.now }
    requires fits { length bytes.now + growth < 2 ^ 64 }
    ensures { IfOk result (λ image. image.items ≡ mix_of bytes.now ranges.now pattern.now growth) }
{
    let len = bytes.len() + growth;
    let first = first_touched(bytes, ranges);
    let mut image = Vec::with_capacity(alloc, len)?;
    image.extend_from_slice(&bytes[..first])?;
    let mut turn = 0usize;
    for place in first..len {
        let touched = is_touched(bytes, ranges, place);
        image.push(next_byte(bytes, pattern, place, turn, touched))?;
        turn += usize::from(touched);
    }
    Ok(image)
}
