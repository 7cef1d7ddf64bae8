ghost use Rattle.std.specs.Prelude.{◌≡◌, ◌+◌, ◌≤◌, length, IfOk, None, Some, Ok, if◌then◌else◌, is_ok};
ghost use Rattle.std.specs.List.{list_all};
ghost use Rattle.std.specs.Option.{option_map};
ghost use Rattle.sparse_merkle.specs.TreeDigest.{AreDefaults};
ghost use Rattle.plasma_tx.specs.Spelling.{number_at};
ghost use Rattle.plasma_tx.specs.Openings.{opening_in};
ghost use Rattle.coin_history.specs.History.{link_of, links_in};
ghost use Rattle.node_rules.specs.Kept.{chain_of, ends_at, shows_link, only_kept, kept_in};
ghost use Rattle.node_rules.specs.KeptCoins.{kept_coin_of};

use super::kept_coin::KeptCoin;
use coin_history::{Bundle, HistoryRefusal};
use plasma_base::{Hash32, NoMemory};
use plasma_tx::{Link, OpeningRefusal, RawOpening, Spends, leaf_tx};
use sparse_merkle::defaults;
use std::alloc::Global;

/// The number that the eight bytes at a place spell, the highest first.
pub fn number_at(bytes: &[u8], place: usize) -> u64
    requires { place + 8 ≤ length bytes.now }
    ensures { result ≡ number_at bytes.now place }
{
    let mut field = [0; 8];
    field.copy_from_slice(&bytes[place..place + 8]);
    u64::from_be_bytes(field)
}

// The opening, where it reads and its leaf is a transfer with this tag of the coin: its link.
fn shown_link<H: Hash32>(
    alloc: Global,
    h: &H,
    defaults: &[[u8; 32]; 64],
    tag: &[u8; 32],
    coin: u64,
    opening: &RawOpening,
) -> Result<Option<Link>, NoMemory>
    requires { AreDefaults (H.digest_of h.now) defaults.now }
    ensures { IfOk result (λ link. link ≡
        (if is_ok (opening_in (H.digest_of h.now) opening.now) then link_of (chain_of tag.now) coin opening.now
        else None)) }
{
    let read = match opening.open_up_with_defaults(h, defaults) {
        Ok(read) => read,
        Err(OpeningRefusal::Unreadable) => return Ok(None),
        Err(OpeningRefusal::NoMemory) => return Err(NoMemory),
    };
    match leaf_tx(alloc, tag, coin, opening.block, read.leaf.as_slice())? {
        Some(tx) => Ok(Some(Link {
            block: opening.block,
            tx,
            opening: opening.copy()?,
        })),
        None => Ok(None),
    }
}

// Whether the last opening, if there is one, is of the tip.
fn ends_at(tip: u64, openings: &[RawOpening]) -> bool
    ensures { result ≡ ends_at tip openings.now }
{
    match openings.last() {
        Some(opening) => opening.block == tip,
        None => true,
    }
}

// The links that openings show, where each shows one. Without an opening it digests nothing.
fn shown_links<H: Hash32>(
    alloc: Global,
    h: &H,
    tag: &[u8; 32],
    coin: u64,
    openings: &[RawOpening],
) -> Result<Option<Spends>, NoMemory>
    ensures { IfOk result (λ spends. spends ≡
        (if list_all (shows_link (H.digest_of h.now) tag.now coin) openings.now
        then Some (links_in (chain_of tag.now) coin openings.now) else None)) }
{
    if openings.is_empty() {
        return Ok(Some(Spends::from_vec(Vec::new(alloc))));
    }
    // Many coins have one link, and a vector that grows begins with four.
    let mut spends = Vec::with_capacity(alloc, 1)?;
    let defaults = defaults(h);
    for opening in openings {
        match shown_link(alloc, h, &defaults, tag, coin, opening)? {
            Some(link) => spends.push(link)?,
            None => return Ok(None),
        }
    }
    Ok(Some(Spends::from_vec(spends)))
}

// A bundle as a kept coin, where it is one.
fn kept_coin_in<H: Hash32>(
    alloc: Global,
    h: &H,
    tag: &[u8; 32],
    bundle: &Bundle,
) -> Result<Option<KeptCoin>, NoMemory>
    ensures { IfOk result (λ kept. kept
        ≡ option_map (kept_coin_of tag.now) (only_kept (H.digest_of h.now) tag.now (Ok bundle.now))) }
{
    let openings = bundle.openings.as_slice();
    if !ends_at(bundle.tip, openings) {
        return Ok(None);
    }
    match shown_links(alloc, h, tag, bundle.coin, openings)? {
        Some(spends) => Ok(Some(KeptCoin {
            coin: bundle.coin,
            tip: bundle.tip,
            spends,
        })),
        None => Ok(None),
    }
}

/// The kept coin that the bytes of a bundle spell, for a chain with this tag: each of its openings reads, and
/// its leaf is a transfer of the tag and the coin in its block; the last one is of the tip. `None` where the
/// bytes spell none. It asks for no signature and no log.
pub fn read_kept<H: Hash32>(
    alloc: Global,
    h: &H,
    tag: &[u8; 32],
    bytes: &[u8],
) -> Result<Option<KeptCoin>, NoMemory>
    ensures { IfOk result (λ kept. kept
        ≡ option_map (kept_coin_of tag.now) (kept_in (H.digest_of h.now) tag.now bytes.now)) }
{
    match Bundle::read(alloc, bytes) {
        Ok(bundle) => kept_coin_in(alloc, h, tag, &bundle),
        Err(why) => match why {
            HistoryRefusal::NoMemory => Err(NoMemory),
            _ => Ok(None),
        },
    }
}
