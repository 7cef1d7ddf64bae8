ghost use Rattle.std.specs.Prelude.{◌≡◌, ◌≢◌, ◌≤◌, Err};
ghost use Rattle.plasma_tx.specs.Views.{blocks};
ghost use Rattle.plasma_tx.specs.Shown.{tests_by};
ghost use Rattle.coin_history.specs.Bundles.{AreRising};
ghost use Rattle.coin_history.specs.Checking.{is_asked, opening_at, lowest_failure, above, unless_failed, failure_of_absence, absence_of, IsLookedAt, LooksAtAbsence};

use super::bundle::Bundle;
use super::coverage::{Span, first_asked, leaf_at, next_block};
use super::refusal::HistoryRefusal;
use plasma_base::Hash32;
use plasma_tx::RootLog;
use sparse_merkle::defaults;
use std::alloc::Global;

/// Whether the bundle shows that its coin is absent after a block and up to the last, which is one of
/// the log's blocks: each committed block between has one opening, which opens its root at the coin
/// with an empty leaf, and there are no other openings. A tip that isn't the last block is
/// `UnknownBlock`. Else the lowest block at which something is wrong is refused: `MissingBlock`
/// where it has to be opened and isn't, `UnknownBlock` where it is opened and doesn't have to be,
/// `BadOpening` where the opening doesn't read or doesn't open the root, `NotAbsent` where its leaf
/// isn't empty. Each opening is read once, and memory is taken only while it is looked at: its block has
/// to be opened, and nothing is wrong at a block before.
#[tactic(auto, unfolding(crate::specs::Checking::absence_of))]
pub fn absent<H: Hash32>(
    alloc: Global,
    h: &H,
    log: &RootLog,
    after: u64,
    last: u64,
    bundle: &Bundle,
) -> Result<(), HistoryRefusal>
    requires rising { AreRising bundle.now.openings }
    requires made { last ≤ blocks log.now.log }
    ensures value { result ≢ Err HistoryRefusal.NoMemory
        → result ≡ absence_of (tests_by (H.digest_of h.now)) log.now.log after last bundle.now }
    ensures tip { bundle.now.tip ≢ last → result ≡ Err (HistoryRefusal.UnknownBlock bundle.now.tip) }
    ensures memory { result ≡ Err HistoryRefusal.NoMemory
        → LooksAtAbsence (tests_by (H.digest_of h.now)) log.now.log after last bundle.now }
{
    if bundle.tip != last {
        return Err(HistoryRefusal::UnknownBlock { n: bundle.tip });
    }
    let span = Span {
        low: after,
        high: last,
    };
    are_absent(alloc, h, log, span, bundle)
}

// Whether the openings are those of the span's committed blocks, with empty leaves.
fn are_absent<H: Hash32>(
    alloc: Global,
    h: &H,
    log: &RootLog,
    span: Span,
    bundle: &Bundle,
) -> Result<(), HistoryRefusal>
    requires rising { AreRising bundle.now.openings }
    requires made { span.high ≤ blocks log.now.log }
    ensures value { result ≢ Err HistoryRefusal.NoMemory → result ≡ unless_failed
        (lowest_failure (λ n. failure_of_absence (tests_by (H.digest_of h.now)) log.now.log bundle.now.coin
        span.low span.high
        n (opening_at bundle.now.openings n))
        (above span.high bundle.now.openings))
        tt }
    ensures memory { result ≡ Err HistoryRefusal.NoMemory → IsLookedAt (is_asked log.now.log span.low span.high)
        (λ n. failure_of_absence (tests_by (H.digest_of h.now)) log.now.log bundle.now.coin span.low span.high
        n (opening_at bundle.now.openings n))
        bundle.now.openings }
{
    let defaults = defaults(h);
    let mut passed = 0;
    for opening in bundle.openings.as_slice() {
        if let Some(n) = first_asked(log, span, passed, opening.block) {
            return Err(HistoryRefusal::MissingBlock { n });
        }
        let leaf = leaf_at(alloc, h, &defaults, log, span, bundle.coin, opening)?;
        if !leaf.is_empty() {
            return Err(HistoryRefusal::NotAbsent { n: opening.block });
        }
        passed = next_block(log, opening.block);
    }
    match first_asked(log, span, passed, next_block(log, span.high)) {
        Some(n) => Err(HistoryRefusal::MissingBlock { n }),
        None => Ok(()),
    }
}
