ghost use Rattle.std.specs.Prelude.{◌≡◌, ◌≢◌, ◌==◌, ◌||◌, ◌<◌, ◌^◌, [], ℕ, length, Ok, Err, OnOk, OnErr, IfOk, IfErr, IsSome, if◌then◌else◌};
ghost use Rattle.std.specs.List.{list_any};
ghost use Rattle.std.specs.Ordering.{nat_cmp};
ghost use Rattle.std.specs.BTreeMap.{get};
ghost use Rattle.plasma_tx.specs.Shown.{tests_by, rules_of};
ghost use Rattle.plasma_tx.specs.Views.{coin_at};
ghost use Rattle.proof_archive.specs.Archives.{openings_up_to, place_in, put_at};
ghost use Rattle.proof_archive.specs.Carried.{cell_in, tip_in, with_opening, AreSpellable, HasRoom, IsCellOf, IsWhole};

use super::coin::{CoinArchive, Move};
use super::putting::judged;
use super::refusal::ArchiveRefusal;
use coin_history::Openings;
use plasma_base::{Hash32, NoMemory};
use plasma_tx::{RawOpening, RootLog};
use std::alloc::Global;
use std::collections::BTreeMap;

/// As `judged`, of the coin's cell among these.
pub fn judged_in<H: Hash32>(
    alloc: Global,
    h: &H,
    defaults: &[[u8; 32]; 64],
    log: &RootLog,
    cells: &BTreeMap<u64, CoinArchive>,
    coin: u64,
    opening: &RawOpening,
) -> Result<Move, ArchiveRefusal>
    requires { IsWhole (H.digest_of h.now) log.now defaults.now cells.now }
    ensures ok { IfOk result (λ change. (put_at (tests_by (H.digest_of h.now)) log.now.log coin
        (cell_in cells.now coin).openings opening.now (coin_at log.now.log coin) ≡ Ok opening.now.block)
        × IsCellOf (tests_by (H.digest_of h.now)) (rules_of log.now) log.now.log coin
        (with_opening (cell_in cells.now coin) opening.now change) (coin_at log.now.log coin)) }
    ensures room { OnOk result (HasRoom (cell_in cells.now coin) opening.now) }
    ensures err { IfErr result (λ why. why ≢ ArchiveRefusal.NoMemory → put_at (tests_by (H.digest_of h.now)) log.now.log
        coin (cell_in cells.now coin).openings opening.now (coin_at log.now.log coin) ≡ Err why) }
    ensures memory { result ≡ Err ArchiveRefusal.NoMemory → place_in log.now.log (cell_in cells.now coin).openings
        opening.now.block (coin_at log.now.log coin) ≡ Ok opening.now.block }
    ensures short { result ≡ Err ArchiveRefusal.NoMemory → length opening.now.bytes < 2 ^ 32 }
{
    match cells.get(&coin) {
        Some(cell) => judged(alloc, h, defaults, log, cell, coin, opening),
        None => judged(
            alloc,
            h,
            defaults,
            log,
            &CoinArchive::new(alloc),
            coin,
            opening,
        ),
    }
}

/// Keeps one more opening of the coin, which moves its links so; a bundle has to have bytes for it. `NoMemory`
/// changes nothing that is kept.
pub fn keep_in(
    alloc: Global,
    cells: &mut BTreeMap<u64, CoinArchive>,
    coin: u64,
    opening: RawOpening,
    change: Move,
) -> Result<(), NoMemory>
    requires { HasRoom (cell_in cells.old coin) opening }
    ensures ok { OnOk result ((c : ℕ) → cell_in cells.new c
        ≡ (if c == coin then with_opening (cell_in cells.old coin) opening change else cell_in cells.old c)) }
    ensures err { OnErr result ((c : ℕ) → cell_in cells.new c ≡ cell_in cells.old c) }
{
    know(alloc, cells, coin)?;
    match cells.get_mut(&coin) {
        Some(cell) => cell.keep(opening, change),
        None => unreachable!(),
    }
}

// Makes the coin's cell, in which nothing is kept where there was none.
fn know(alloc: Global, cells: &mut BTreeMap<u64, CoinArchive>, coin: u64) -> Result<(), NoMemory>
    ensures same { (c : ℕ) → cell_in cells.new c ≡ cell_in cells.old c }
    ensures known { OnOk result (IsSome (get nat_cmp cells.new coin)) }
{
    if cells.contains_key(&coin) {
        return Ok(());
    }
    cells.insert(coin, CoinArchive::new(alloc))?;
    Ok(())
}

/// Where the coin's links lead, or the deposit block.
pub fn tip_in(cells: &BTreeMap<u64, CoinArchive>, coin: u64, deposit: u64) -> u64
    ensures { result ≡ tip_in deposit (cell_in cells.now coin).ends }
{
    match cells.get(&coin) {
        Some(cell) => cell.tip(deposit),
        None => deposit,
    }
}

/// The coin's broken block.
pub fn broken_in(cells: &BTreeMap<u64, CoinArchive>, coin: u64) -> Option<u64>
    ensures { result ≡ (cell_in cells.now coin).broken }
{
    match cells.get(&coin) {
        Some(cell) => cell.broken(),
        None => None,
    }
}

/// Whether the block is the deposit block, or that of a link of the coin.
pub fn is_tip_in(cells: &BTreeMap<u64, CoinArchive>, coin: u64, deposit: u64, tip: u64) -> bool
    ensures { result ≡ ((deposit == tip) || list_any (λ end. end.block == tip) (cell_in cells.now coin).ends) }
{
    match cells.get(&coin) {
        Some(cell) => cell.is_tip(deposit, tip),
        None => deposit == tip,
    }
}

/// The openings of the coin up to a block, as copies.
pub fn openings_in(
    alloc: Global,
    cells: &BTreeMap<u64, CoinArchive>,
    coin: u64,
    tip: u64,
) -> Result<Openings, NoMemory>
    ensures openings { IfOk result
        (λ openings. openings ≡ openings_up_to tip (cell_in cells.now coin).openings) }
    ensures spellable { IfOk result (λ openings. AreSpellable openings) }
    ensures some { OnErr result (openings_up_to tip (cell_in cells.now coin).openings ≢ []) }
{
    match cells.get(&coin) {
        Some(cell) => cell.up_to(alloc, tip),
        None => Ok(Openings::from_vec(Vec::new(alloc))),
    }
}
