//! The chains of a leaf, taken to their ends, eight at a time.

ghost use Rattle.std.specs.Prelude.{◌≡◌, ℕ, ◌+◌, ◌-◌, ◌^◌, ◌<◌, ◌≤◌, List, [], length, slice_index, slice_index_or};
ghost use Rattle.lms_sign.specs.OneTime.{chain_value};
ghost use Rattle.lms_sign.specs.Lanes.{IsBegun};
ghost use Rattle.lms_sign.specs.Chains.{IsTaken, left, span_at};

use super::blocks::{begin_steps, strings_after};
use super::lanes::Begun;

// The most steps that chains are taken together before others may take their lanes, so that the longest come to their
// ends at about the same time.
const MOST_STEPS: u8 = 64;

/// The places of a chain from which it takes a step: those from the first up to the end.
#[derive(Clone, Copy)]
pub(crate) struct Span {
    pub from: u8,
    pub to: u8,
}

// How many steps are left.
fn left(span: &Span) -> u8
    ensures value { result ≡ left span.now }
    ensures fits { span.now.from + result < 2 ^ 8 }
{
    span.to.saturating_sub(span.from)
}

// The lane with the least number, but the first.
fn least(lefts: &[u8; 8]) -> usize
    ensures low { 1 ≤ result }
    ensures high { result < 8 }
{
    let mut least = 1;
    'lanes: for lane in 2..8 {
        if lefts[lane] < lefts[least] {
            least = lane;
        }
    }
    least
}

// A chain and, of those behind it, the seven that have the most steps left. Where fewer have any, it stands for the
// others too.
fn longest(spans: &[Span], first: usize) -> [usize; 8]
    requires within { first < length spans.now }
    requires some { 0 < left (span_at spans.now first) }
    ensures first { slice_index result 0 ≡ first }
    ensures within { (k : ℕ) → k < 8 → slice_index result k < length spans.now }
    ensures some { (k : ℕ) → k < 8 → 0 < left (span_at spans.now (slice_index result k)) }
{
    let mut numbers = [first; 8];
    let mut lefts = [0; 8];
    'others: for n in first + 1..spans.len() {
        let lane = least(&lefts);
        let steps = left(&spans[n]);
        if steps > lefts[lane] {
            numbers[lane] = n;
            lefts[lane] = steps;
        }
    }
    numbers
}

// How many steps the chains are taken together: as many as all of them have left, up to the most.
fn common_steps(spans: &[Span], numbers: &[usize; 8]) -> u8
    requires within { (k : ℕ) → k < 8 → slice_index numbers.now k < length spans.now }
    requires some { (k : ℕ) → k < 8 → 0 < left (span_at spans.now (slice_index numbers.now k)) }
    ensures low { 0 < result }
    ensures high { (k : ℕ) → k < 8 → result ≤ left (span_at spans.now (slice_index numbers.now k)) }
    ensures fits { (k : ℕ) → k < 8 → (span_at spans.now (slice_index numbers.now k)).from + result < 2 ^ 8 }
{
    let mut count = MOST_STEPS;
    'lanes: for k in 0..8 {
        count = count.min(left(&spans[numbers[k]]));
    }
    count
}

// Takes so many steps of each of the chains, and drops them from their spans. A chain may be named more than once.
fn advance(
    begun: &Begun,
    numbers: &[usize; 8],
    count: u8,
    spans: &mut [Span],
    strings: &mut [[u8; 32]],
)
    requires room { length spans.old ≤ length strings.old }
    requires small { length spans.old ≤ 2 ^ 16 }
    requires within { (k : ℕ) → k < 8 → slice_index numbers.now k < length spans.old }
    requires steps { (k : ℕ) → k < 8 → count ≤ left (span_at spans.old (slice_index numbers.now k)) }
    requires fits { (k : ℕ) → k < 8 → (span_at spans.old (slice_index numbers.now k)).from + count < 2 ^ 8 }
    ensures taken { (id : List ℕ) (q n : ℕ) → length id ≡ 16 → IsBegun id q begun.now → n < length spans.old
        → IsTaken id q n count (span_at spans.old n) (slice_index_or strings.old n []) (span_at spans.new n)
        (slice_index_or strings.new n []) }
    ensures first { (span_at spans.new (slice_index numbers.now 0)).from
        ≡ (span_at spans.old (slice_index numbers.now 0)).from + count }
{
    let mut marks = [0; 8];
    let mut starts = [[0; 32]; 8];
    'starts: for k in 0..8 {
        let n = numbers[k];
        marks[k] = n as u32 * 256 + u32::from(spans[n].from);
        starts[k] = strings[n];
    }
    let ends = strings_after(begun, &marks, count, &starts);
    'ends: for k in 0..8 {
        let n = numbers[k];
        spans[n].from = (marks[k] % 256) as u8 + count;
        strings[n] = ends[k];
    }
}

/// Takes the string of each chain of leaf q, which stands at the chain's number, over the chain's span, which is then
/// empty.
pub(crate) fn take_steps(id: &[u8; 16], q: u32, spans: &mut [Span], strings: &mut [[u8; 32]])
    requires room { length spans.old ≤ length strings.old }
    requires small { length spans.old ≤ 2 ^ 16 }
    ensures { (n : ℕ) → n < length spans.old → slice_index_or strings.new n []
        ≡ chain_value id.now q n (span_at spans.old n).from (left (span_at spans.old n))
        (slice_index_or strings.old n []) }
{
    let begun = begin_steps(id, q);
    'chains: for first in 0..spans.len() {
        'rounds: while spans[first].from < spans[first].to {
            let numbers = longest(spans, first);
            let count = common_steps(spans, &numbers);
            advance(&begun, &numbers, count, spans, strings);
        }
    }
}
