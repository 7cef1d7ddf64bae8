ghost use Rattle.std.specs.Prelude.{◌≡◌, ◌≢◌, ◌≤◌, ◌++◌, ℕ, false, List, Some, None, Err, OnOk};
ghost use Rattle.std.specs.Option.{option_map, option_to_list};
ghost use Rattle.plasma_tx.specs.Links.{tip_of, last_owner_of};
ghost use Rattle.plasma_tx.specs.Views.{blocks, coin_at};
ghost use Rattle.plasma_tx.specs.declared.views.CoinView.{CoinView};
ghost use Rattle.plasma_tx.specs.Shown.{tests_by, rules_of};
ghost use Rattle.coin_history.specs.Bundles.{AreRising};
ghost use Rattle.coin_history.specs.History.{tagged, leaf_of_opening, transfer_of, links_of};
ghost use Rattle.coin_history.specs.Checking.{is_asked, opening_at, lowest_failure, above, unless_failed, first_cause, link_causes, failure_in, may_be_tip, history_of, IsLookedAt, LooksAtHistory};
ghost use Rattle.coin_history.specs.Inside.{links_with};

use super::bundle::Bundle;
use super::coverage::{Span, first_asked, leaf_at, next_block, root_at};
use super::refusal::HistoryRefusal;
use plasma_base::{Hash32, NoMemory};
use plasma_tx::{CoinView, Link, Links, Owner, RawOpening, RootLog, SignedTx, Spends, leaf_tx};
use sparse_merkle::defaults;
use std::alloc::Global;

/// The links of the history that the bundle is under the log. `NoCoin` where the log has no such coin;
/// `UnknownBlock` of the tip where that is neither the deposit block nor a committed one after it.
/// Else the lowest block at which something is wrong is refused, by the first of these that holds
/// there: `MissingBlock` where it has to be opened and isn't, `UnknownBlock` where it is opened and
/// doesn't have to be, `BadOpening` where the opening doesn't read or doesn't open the root,
/// `NotLink` where its leaf is neither empty nor the next transfer, or is empty at the tip, and
/// `BadSignature` where the owner before didn't sign the transfer. Each opening is read once, and
/// memory is taken for the links and for the opening that is looked at: its block has to be opened, and
/// nothing is wrong at a block before.
pub fn check<H: Hash32>(
    alloc: Global,
    h: &H,
    log: &RootLog,
    bundle: &Bundle,
) -> Result<Links, HistoryRefusal>
    requires rising { AreRising bundle.now.openings }
    ensures value { result ≢ Err HistoryRefusal.NoMemory
        → result ≡ history_of (tests_by (H.digest_of h.now)) (rules_of log.now) log.now.log bundle.now }
    ensures coin { coin_at log.now.log bundle.now.coin ≡ None → result ≡ Err HistoryRefusal.NoCoin }
    ensures tip { (made : CoinView) → coin_at log.now.log bundle.now.coin ≡ Some made
        → may_be_tip log.now.log made.deposit bundle.now.tip ≡ false
        → result ≡ Err (HistoryRefusal.UnknownBlock bundle.now.tip) }
    ensures memory { result ≡ Err HistoryRefusal.NoMemory
        → LooksAtHistory (tests_by (H.digest_of h.now)) (rules_of log.now) log.now.log bundle.now }
{
    check_tagged(alloc, h, &log.tag(), log, bundle)
}

/// As `check`, where the transfers are to have this tag: the log's own isn't asked for.
#[tactic(auto, unfolding(crate::specs::Checking::history_of))]
pub fn check_tagged<H: Hash32>(
    alloc: Global,
    h: &H,
    tag: &[u8; 32],
    log: &RootLog,
    bundle: &Bundle,
) -> Result<Links, HistoryRefusal>
    requires rising { AreRising bundle.now.openings }
    ensures value { result ≢ Err HistoryRefusal.NoMemory
        → result ≡ history_of (tests_by (H.digest_of h.now)) (tagged tag.now) log.now.log bundle.now }
    ensures coin { coin_at log.now.log bundle.now.coin ≡ None → result ≡ Err HistoryRefusal.NoCoin }
    ensures tip { (made : CoinView) → coin_at log.now.log bundle.now.coin ≡ Some made
        → may_be_tip log.now.log made.deposit bundle.now.tip ≡ false
        → result ≡ Err (HistoryRefusal.UnknownBlock bundle.now.tip) }
    ensures memory { result ≡ Err HistoryRefusal.NoMemory
        → LooksAtHistory (tests_by (H.digest_of h.now)) (tagged tag.now) log.now.log bundle.now }
{
    let Some(made) = log.coin(bundle.coin) else {
        return Err(HistoryRefusal::NoCoin);
    };
    if !may_be_tip(log, made.deposit, bundle.tip) {
        return Err(HistoryRefusal::UnknownBlock { n: bundle.tip });
    }
    links_of(alloc, h, tag, log, &made, bundle)
}

// Whether the block is the deposit block, or a committed one after it.
fn may_be_tip(log: &RootLog, deposit: u64, tip: u64) -> bool
    ensures { result ≡ may_be_tip log.now.log deposit tip }
{
    tip == deposit || root_at(log, tip).is_some() && deposit < tip
}

// The links of a bundle whose tip is one of the log's blocks, where no block fails.
fn links_of<H: Hash32>(
    alloc: Global,
    h: &H,
    tag: &[u8; 32],
    log: &RootLog,
    made: &CoinView,
    bundle: &Bundle,
) -> Result<Links, HistoryRefusal>
    requires rising { AreRising bundle.now.openings }
    requires made { bundle.now.tip ≤ blocks log.now.log }
    ensures value { result ≢ Err HistoryRefusal.NoMemory → let links = links_of (tagged tag.now) made.now bundle.now in
        result ≡ unless_failed
        (lowest_failure (λ n. failure_in (tests_by (H.digest_of h.now)) (tagged tag.now) log.now.log bundle.now.tip
        links n (opening_at bundle.now.openings n))
        (above bundle.now.tip bundle.now.openings))
        links }
    ensures memory { result ≡ Err HistoryRefusal.NoMemory
        → IsLookedAt (is_asked log.now.log made.now.deposit bundle.now.tip)
        (λ n. failure_in (tests_by (H.digest_of h.now)) (tagged tag.now) log.now.log bundle.now.tip
        (links_of (tagged tag.now) made.now bundle.now) n (opening_at bundle.now.openings n))
        bundle.now.openings }
{
    let defaults = defaults(h);
    let span = Span {
        low: made.deposit,
        high: bundle.tip,
    };
    let mut spends = Vec::new(alloc);
    let mut passed = 0;
    for opening in bundle.openings.as_slice() {
        if let Some(n) = first_asked(log, span, passed, opening.block) {
            return Err(HistoryRefusal::MissingBlock { n });
        }
        let leaf = leaf_at(alloc, h, &defaults, log, span, bundle.coin, opening)?;
        let next = next_tx(
            alloc,
            tag,
            log,
            made,
            bundle,
            spends.as_slice(),
            opening,
            leaf.as_slice(),
        )?;
        push_link(&mut spends, next, opening)?;
        passed = next_block(log, opening.block);
    }
    match first_asked(log, span, passed, next_block(log, span.high)) {
        Some(n) => Err(HistoryRefusal::MissingBlock { n }),
        None => Ok(Links {
            coin: bundle.coin,
            deposit: made.deposit,
            owner: made.owner,
            spends: Spends::from_vec(spends),
        }),
    }
}

// The transfer in an opening's leaf, as the next link after these spends; `None` where the leaf is
// empty. A signature is tested only where the transfer spends the last link, and only where the log doesn't
// know it yet.
fn next_tx(
    alloc: Global,
    tag: &[u8; 32],
    log: &RootLog,
    made: &CoinView,
    bundle: &Bundle,
    spends: &[Link],
    opening: &RawOpening,
    leaf: &[u8],
) -> Result<Option<SignedTx>, HistoryRefusal>
    requires { leaf.now ≡ leaf_of_opening opening.now }
    ensures { (dig : List ℕ → List ℕ) → result ≢ Err HistoryRefusal.NoMemory → result ≡ unless_failed
        (first_cause (link_causes (tests_by dig) (tagged tag.now) bundle.now.tip
        (links_with bundle.now.coin made.now spends.now) opening.now))
        (transfer_of (tagged tag.now) bundle.now.coin opening.now) }
{
    let n = opening.block;
    if leaf.is_empty() {
        if n == bundle.tip {
            return Err(HistoryRefusal::NotLink { n });
        }
        return Ok(None);
    }
    let Some(tx) = leaf_tx(alloc, tag, bundle.coin, n, leaf)? else {
        return Err(HistoryRefusal::NotLink { n });
    };
    if tx.body.parent != tip(made, spends) {
        return Err(HistoryRefusal::NotLink { n });
    }
    if !log.signed_by(&tx, &last_owner(made, spends)) {
        return Err(HistoryRefusal::BadSignature { n });
    }
    Ok(Some(tx))
}

// The block of the last spend, or the deposit block.
fn tip(made: &CoinView, spends: &[Link]) -> u64
    ensures { (coin : ℕ) → result ≡ tip_of (links_with coin made.now spends.now) }
{
    match spends.last() {
        None => made.deposit,
        Some(link) => link.block,
    }
}

// To whom the last spend goes, or the depositor.
fn last_owner(made: &CoinView, spends: &[Link]) -> Owner
    ensures { (coin : ℕ) → result ≡ last_owner_of (links_with coin made.now spends.now) }
{
    match spends.last() {
        None => made.owner,
        Some(link) => link.tx.body.to,
    }
}

// Adds the link of a transfer, with a copy of the opening that shows it.
fn push_link(
    spends: &mut Vec<Link>,
    next: Option<SignedTx>,
    opening: &RawOpening,
) -> Result<(), NoMemory>
    ensures { OnOk result (spends.new.items ≡ spends.old.items ++ option_to_list (option_map
        (λ tx. record { block = opening.now.block; tx = tx; opening = opening.now }) next)) }
{
    if let Some(tx) = next {
        spends.push(Link {
            block: opening.block,
            tx,
            opening: opening.copy()?,
        })?;
    }
    Ok(())
}
