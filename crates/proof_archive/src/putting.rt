ghost use Rattle.std.specs.Prelude.{◌≡◌, ◌≢◌, ◌<◌, ◌^◌, ℕ, List, true, false, length, Ok, Err, reverse, IfOk, IfErr, OnOk};
ghost use Rattle.sparse_merkle.specs.TreeDigest.{AreDefaults};
ghost use Rattle.plasma_tx.specs.Shown.{Tests, tests_by, rules_of};
ghost use Rattle.plasma_tx.specs.Views.{coin_at};
ghost use Rattle.coin_history.specs.History.{leaf_of_opening, opens_block};
ghost use Rattle.coin_history.specs.Checking.{is_asked};
ghost use Rattle.proof_archive.specs.Scan.{newest_block};
ghost use Rattle.proof_archive.specs.Archives.{fits, place_at, place_in, put_at};
ghost use Rattle.proof_archive.specs.Carried.{AreKept, HasRoom, IsNextPlace, IsCellOf, move_of, with_opening};

use super::coin::{CoinArchive, LinkEnd, Move};
use super::refusal::ArchiveRefusal;
use coin_history::{HistoryRefusal, Span, first_asked, is_asked, leaf_at};
use plasma_base::{Bytes, Hash32, NoMemory};
use plasma_tx::{CoinView, RawOpening, RootLog, leaf_tx};
use std::alloc::Global;

/// What an opening does to the links of its coin once it is kept, or what it is refused for: `NoCoin`
/// where the log has no such coin, `UnknownBlock` where its block isn't a committed one after the deposit, or
/// is the 2^32nd or a later one, `HaveBlock` where that is kept, `Gap` with the lowest committed block between
/// that isn't, `BadOpening` where it doesn't open the block's root, or has 2^32 bytes or more. It makes the
/// digests of one opening, and tests at most one signature, whatever is kept.
pub fn judged<H: Hash32>(
    alloc: Global,
    h: &H,
    defaults: &[[u8; 32]; 64],
    log: &RootLog,
    cell: &CoinArchive,
    coin: u64,
    opening: &RawOpening,
) -> Result<Move, ArchiveRefusal>
    requires defaults { AreDefaults (H.digest_of h.now) defaults.now }
    requires cell { IsCellOf (tests_by (H.digest_of h.now)) (rules_of log.now) log.now.log coin cell.now
        (coin_at log.now.log coin) }
    ensures ok { IfOk result (λ change.
        (put_at (tests_by (H.digest_of h.now)) log.now.log coin cell.now.openings opening.now (coin_at log.now.log coin)
        ≡ Ok opening.now.block)
        × IsCellOf (tests_by (H.digest_of h.now)) (rules_of log.now) log.now.log coin
        (with_opening cell.now opening.now change) (coin_at log.now.log coin)) }
    ensures room { OnOk result (HasRoom cell.now opening.now) }
    ensures err { IfErr result (λ why. why ≢ ArchiveRefusal.NoMemory
        → put_at (tests_by (H.digest_of h.now)) log.now.log coin cell.now.openings opening.now
        (coin_at log.now.log coin)
        ≡ Err why) }
    ensures memory { result ≡ Err ArchiveRefusal.NoMemory
        → place_in log.now.log cell.now.openings opening.now.block (coin_at log.now.log coin) ≡ Ok opening.now.block }
    ensures short { result ≡ Err ArchiveRefusal.NoMemory → length opening.now.bytes < 2 ^ 32 }
{
    let Some(made) = log.coin(coin) else {
        return Err(ArchiveRefusal::NoCoin);
    };
    place_of(log, &made, cell, coin, opening.block)?;
    if !fits(opening.bytes.len() as u64) {
        return Err(ArchiveRefusal::BadOpening { n: opening.block });
    }
    let leaf = opened_leaf(alloc, h, defaults, log, &made, coin, opening)?;
    Ok(move_of(alloc, log, &made, cell, coin, opening, leaf.as_slice())?)
}

// Whether a number has four bytes.
fn fits(number: u64) -> bool
    ensures { result ≡ fits number }
{
    number <= u32::MAX as u64
}

// Whether an opening of block n is the next one of those that are kept. It looks at no block before these.
fn place_of(
    log: &RootLog,
    made: &CoinView,
    cell: &CoinArchive,
    coin: u64,
    n: u64,
) -> Result<(), ArchiveRefusal>
    requires { (tests : Tests) × AreKept tests log.now.log coin made.now (reverse cell.now.openings) }
    ensures ok { OnOk result (IsNextPlace log.now.log made.now.deposit
        (newest_block made.now.deposit (reverse cell.now.openings)) n) }
    ensures err { IfErr result (λ why. place_at log.now.log made.now.deposit cell.now.openings n ≡ Err why) }
{
    let newest = cell.newest(made.deposit);
    let span = Span {
        low: made.deposit,
        high: n,
    };
    if !is_asked(log, span, n) {
        return Err(ArchiveRefusal::UnknownBlock { n });
    }
    if !fits(n) {
        return Err(ArchiveRefusal::UnknownBlock { n });
    }
    if n <= newest {
        return Err(ArchiveRefusal::HaveBlock { n });
    }
    let behind = Span {
        low: newest,
        high: n,
    };
    match first_asked(log, behind, 0, n) {
        Some(gap) => Err(ArchiveRefusal::Gap { n: gap }),
        None => Ok(()),
    }
}

// The leaf of an opening of a committed block after the deposit, which has to open the block's root.
fn opened_leaf<H: Hash32>(
    alloc: Global,
    h: &H,
    defaults: &[[u8; 32]; 64],
    log: &RootLog,
    made: &CoinView,
    coin: u64,
    opening: &RawOpening,
) -> Result<Bytes, ArchiveRefusal>
    requires defaults { AreDefaults (H.digest_of h.now) defaults.now }
    requires asked { is_asked log.now.log made.now.deposit opening.now.block opening.now.block ≡ true }
    ensures ok { IfOk result (λ leaf. (leaf ≡ leaf_of_opening opening.now)
        × (opens_block (tests_by (H.digest_of h.now)) log.now.log coin opening.now ≡ true)) }
    ensures err { IfErr result (λ why. why ≢ ArchiveRefusal.NoMemory
        → (why ≡ ArchiveRefusal.BadOpening opening.now.block)
        × (opens_block (tests_by (H.digest_of h.now)) log.now.log coin opening.now ≡ false)) }
{
    let span = Span {
        low: made.deposit,
        high: opening.block,
    };
    match leaf_at(alloc, h, defaults, log, span, coin, opening) {
        Ok(leaf) => Ok(leaf),
        Err(why) => Err(unopened(why, opening.block)),
    }
}

// What an opening of block n that has to be there is refused for.
fn unopened(why: HistoryRefusal, n: u64) -> ArchiveRefusal
    ensures memory { why ≡ HistoryRefusal.NoMemory → result ≡ ArchiveRefusal.NoMemory }
    ensures other { why ≢ HistoryRefusal.NoMemory → result ≡ ArchiveRefusal.BadOpening n }
{
    match why {
        HistoryRefusal::NoMemory => ArchiveRefusal::NoMemory,
        _ => ArchiveRefusal::BadOpening { n },
    }
}

// What an opening with this leaf does to the links. A signature is tested only where the transfer spends the
// last link and no block is broken.
fn move_of(
    alloc: Global,
    log: &RootLog,
    made: &CoinView,
    cell: &CoinArchive,
    coin: u64,
    opening: &RawOpening,
    leaf: &[u8],
) -> Result<Move, NoMemory>
    requires { leaf.now ≡ leaf_of_opening opening.now }
    ensures { (dig : List ℕ → List ℕ) → IfOk result (λ change. change
        ≡ move_of (tests_by dig) (rules_of log.now) coin made.now cell.now opening.now) }
{
    if leaf.is_empty() {
        return Ok(Move::Stays);
    }
    if cell.is_broken() {
        return Ok(Move::Stays);
    }
    let Some(tx) = leaf_tx(alloc, &log.tag(), coin, opening.block, leaf)? else {
        return Ok(Move::Breaks);
    };
    if tx.body.parent != cell.tip(made.deposit) {
        return Ok(Move::Breaks);
    }
    if !log.signed_by(&tx, &cell.owner(made.owner)) {
        return Ok(Move::Breaks);
    }
    let end = LinkEnd {
        block: opening.block,
        owner: tx.body.to,
    };
    Ok(Move::Links { end })
}
