ghost use Rattle.std.specs.Prelude.{◌≡◌, ◌≢◌, ◌≤◌, ◌+◌, IfOk, MatchOption, true, Err, Some, None, if◌then◌else◌};
ghost use Rattle.sparse_merkle.specs.TreeDigest.{AreDefaults};
ghost use Rattle.plasma_tx.specs.Views.{blocks};
ghost use Rattle.plasma_tx.specs.Shown.{tests_by, root_at};
ghost use Rattle.coin_history.specs.History.{opens_block, leaf_of_opening};
ghost use Rattle.coin_history.specs.Checking.{is_asked, opening_causes, first_cause, unless_failed};
ghost use Rattle.coin_history.specs.Inside.{NoneIsAsked, IsFirstAsked};

use super::refusal::HistoryRefusal;
use plasma_base::{Bytes, Hash32, NoMemory};
use plasma_tx::{BlockView, RawOpening, RootLog, leaf_in};
use std::alloc::Global;

/// The blocks after one and up to another, of which the committed ones have to be opened.
#[derive(Clone, Copy, PartialEq, Eq)]
pub struct Span {
    /// The block behind which they begin, as a coin's deposit block.
    pub low: u64,
    /// The last of them.
    pub high: u64,
}

/// The root of a block that was committed; `None` exactly of one that a deposit made, and of none.
pub fn root_at(log: &RootLog, n: u64) -> Option<[u8; 32]>
    ensures { result ≡ root_at log.now.log n }
{
    match log.block(n)? {
        BlockView::Root { root } => Some(root),
        BlockView::DepositOf { coin: _ } => None,
    }
}

/// Whether the block has to be opened.
pub fn is_asked(log: &RootLog, span: Span, n: u64) -> bool
    ensures { result ≡ is_asked log.now.log span.low span.high n }
{
    root_at(log, n).is_some() && span.low < n && n <= span.high
}

/// The first block from one on and below another that has to be opened; `None` exactly where none has.
/// It looks at no block outside the span, whose end is a block of the log.
pub fn first_asked(log: &RootLog, span: Span, from: u64, to: u64) -> Option<u64>
    requires { span.high ≤ blocks log.now.log }
    ensures { MatchOption result (NoneIsAsked (is_asked log.now.log span.low span.high) from to)
        (IsFirstAsked (is_asked log.now.log span.low span.high) from to) }
{
    let start = from.max(span.low);
    let end = to.min(next_block(log, span.high));
    for n in start..end {
        if is_asked(log, span, n) {
            return Some(n);
        }
    }
    None
}

/// The number after a block of the log; there are fewer than 2^63.
pub fn next_block(log: &RootLog, block: u64) -> u64
    requires { block ≤ blocks log.now.log }
    ensures { result ≡ block + 1 }
{
    let _blocks = log.blocks();
    block + 1
}

/// The leaf of an opening: `UnknownBlock` where its block doesn't have to be opened, `BadOpening` where it
/// doesn't open the block's root at the coin. It is read once, with the 64 defaults of the digest that the
/// caller made, and takes the memory of the leaf, where its block has to be opened.
pub fn leaf_at<H: Hash32>(
    alloc: Global,
    h: &H,
    defaults: &[[u8; 32]; 64],
    log: &RootLog,
    span: Span,
    coin: u64,
    opening: &RawOpening,
) -> Result<Bytes, HistoryRefusal>
    requires { AreDefaults (H.digest_of h.now) defaults.now }
    ensures value { result ≢ Err HistoryRefusal.NoMemory → result ≡ unless_failed
        (first_cause (opening_causes (tests_by (H.digest_of h.now)) log.now.log coin
        (is_asked log.now.log span.low span.high opening.now.block) opening.now))
        (leaf_of_opening opening.now) }
    ensures memory { result ≡ Err HistoryRefusal.NoMemory
        → is_asked log.now.log span.low span.high opening.now.block ≡ true }
{
    let n = opening.block;
    if !is_asked(log, span, n) {
        return Err(HistoryRefusal::UnknownBlock { n });
    }
    match opened_leaf(alloc, h, defaults, log, coin, opening)? {
        Some(leaf) => Ok(leaf),
        None => Err(HistoryRefusal::BadOpening { n }),
    }
}

/// The leaf of an opening; `None` where it doesn't open its block's root at the coin.
fn opened_leaf<H: Hash32>(
    alloc: Global,
    h: &H,
    defaults: &[[u8; 32]; 64],
    log: &RootLog,
    coin: u64,
    opening: &RawOpening,
) -> Result<Option<Bytes>, NoMemory>
    requires { AreDefaults (H.digest_of h.now) defaults.now }
    ensures { IfOk result (λ leaf. leaf ≡ (if opens_block (tests_by (H.digest_of h.now)) log.now.log coin opening.now
        then Some (leaf_of_opening opening.now) else None)) }
{
    let Some(root) = root_at(log, opening.block) else {
        return Ok(None);
    };
    if !log.opens(h, defaults, &root, coin, opening)? {
        return Ok(None);
    }
    Ok(Some(Bytes::from_vec(Vec::from_slice(alloc, leaf_in(opening.bytes.as_slice()))?)))
}
