ghost use Rattle.std.specs.Prelude.{◌≡◌, ◌≢◌, ◌+◌, ◌<◌, ◌*◌, ◌^◌, ℕ, [], length, slice_index_or, unwrap_or, IfOk, OnOk, OnErr, IsTrue, Some, None, min};
ghost use Rattle.std.specs.BTreeMap.{get};
ghost use Rattle.std.specs.Int.Bits.{bit_xor};
ghost use Rattle.std.specs.Option.{option_copied};
ghost use Rattle.std.specs.Ordering.{nat_cmp};
ghost use Rattle.merkle_pages.specs.Pages.{name_in, name_at, place_at, node_at, page_node, kept_digest, SameNodes, PutsNode, PutsAt, TakesSiblings};

use plasma_base::NoMemory;
use std::alloc::Global;
use std::collections::BTreeMap;

/// A page's name: its number among five, from the leaf up, and the bits of the coins above it.
#[derive(Clone, Copy, PartialEq, Eq, PartialOrd, Ord)]
pub struct PageName {
    pub number: u32,
    pub bits: u64,
}

/// The nodes of a page that differ from the default of their level, each at its place as in a heap.
pub type Page = BTreeMap<u32, [u8; 32]>;

/// The pages that keep a node, in an order that no choice of coins makes slow.
pub type Pages = BTreeMap<PageName, Page>;

// The page of that number on the way up from a coin.
fn page_name(number: usize, coin: u64) -> PageName
    requires { number < 5 }
    ensures { result ≡ name_in number coin }
{
    PageName {
        number: number as u32,
        bits: if number == 4 {
            0
        } else {
            coin >> (15 * number + 15)
        },
    }
}

// The place in its page of the node of a level on the way up from a coin.
fn place(level: usize, coin: u64) -> u32
    requires { level < 64 }
    ensures { result ≡ place_at level coin }
{
    let width = 1u64 << (15 - level % 15);
    (width + (coin >> level) % width) as u32
}

/// A coin below the sibling of a level on the way up from a coin.
pub fn sibling_coin(coin: u64, level: usize) -> u64
    requires { level < 64 }
    ensures { result ≡ bit_xor coin (2 ^ level) }
{
    coin ^ (1 << level)
}

/// The node that is kept at a level on the way up from a coin, lent.
pub fn kept_node(pages: &Pages, level: usize, coin: u64) -> Option<&[u8; 32]>
    requires { level < 64 }
    ensures { option_copied result ≡ node_at level coin pages.now }
{
    let page = pages.get(&page_name(level / 15, coin))?;
    page.get(&place(level, coin))
}

/// The siblings on the way up from a coin, from its leaf's up: the nodes that are kept, and the defaults of
/// the other levels.
pub fn siblings(pages: &Pages, coin: u64, defaults: &[[u8; 32]; 64]) -> [[u8; 32]; 64]
    ensures long { length result ≡ 64 }
    ensures are { (level : ℕ) → level < 64 → slice_index_or result level []
        ≡ unwrap_or (node_at level (bit_xor coin (2 ^ level)) pages.now) (slice_index_or defaults.now level []) }
{
    let mut siblings = *defaults;
    for number in 0..5 {
        take_siblings(pages, number, coin, &mut siblings);
    }
    siblings
}

// Puts the siblings on the way up from a coin at the levels of a page, all of which it keeps itself, in place
// of what stands there. Those that it doesn't keep stay.
fn take_siblings(pages: &Pages, number: usize, coin: u64, siblings: &mut [[u8; 32]; 64])
    requires { number < 5 }
    ensures { TakesSiblings pages.now number coin (15 * number) (min (15 * number + 15) 64) siblings.old siblings.new }
{
    let Some(page) = pages.get(&page_name(number, coin)) else {
        return;
    };
    for level in 15 * number..(15 * number + 15).min(64) {
        if let Some(digest) = page.get(&place(level, sibling_coin(coin, level))) {
            siblings[level] = *digest;
        }
    }
}

/// Keeps the digest of a node at a level on the way up from a coin, at which the pages keep none. A digest
/// that is the default of the level isn't kept.
pub fn keep_node(
    alloc: Global,
    pages: &mut Pages,
    level: usize,
    coin: u64,
    digest: &[u8; 32],
    default: &[u8; 32],
) -> Result<(), NoMemory>
    requires in_tree { level < 64 }
    requires clear { node_at level coin pages.old ≡ None }
    ensures { OnOk result (PutsAt level coin (kept_digest digest.now default.now) pages.old pages.new) }
{
    if digest == default {
        return Ok(());
    }
    put_node(alloc, pages, level, coin, *digest)
}

/// Puts a node at a level on the way up from a coin in place of what is kept there. Where memory runs out
/// no node changes, and none was kept there.
pub fn put_node(
    alloc: Global,
    pages: &mut Pages,
    level: usize,
    coin: u64,
    digest: [u8; 32],
) -> Result<(), NoMemory>
    requires { level < 64 }
    ensures ok { OnOk result (PutsAt level coin (Some digest) pages.old pages.new) }
    ensures err { OnErr result (SameNodes pages.old pages.new) }
    ensures absent { OnErr result (node_at level coin pages.old ≡ None) }
{
    insert_node(
        alloc,
        pages,
        page_name(level / 15, coin),
        place(level, coin),
        digest,
    )
}

/// Takes the node at a level on the way up from a coin away.
pub fn remove_node(pages: &mut Pages, level: usize, coin: u64)
    requires { level < 64 }
    ensures { PutsAt level coin None pages.old pages.new }
{
    let name = page_name(level / 15, coin);
    take_node(pages, name, place(level, coin));
    drop_empty(pages, name);
}

// Puts a node at a place of a page, which is made where there is none.
fn insert_node(
    alloc: Global,
    pages: &mut Pages,
    name: PageName,
    place: u32,
    digest: [u8; 32],
) -> Result<(), NoMemory>
    ensures ok { OnOk result (PutsNode name place (Some digest) pages.old pages.new) }
    ensures err { OnErr result (SameNodes pages.old pages.new) }
    ensures absent { OnErr result (page_node pages.old name place ≡ None) }
{
    if let Some(page) = pages.get_mut(&name) {
        return insert_in_page(page, place, digest);
    }
    let mut page = BTreeMap::new(alloc);
    insert_in_page(&mut page, place, digest)?;
    pages.insert(name, page)?;
    Ok(())
}

// Puts a node at a place of a page.
fn insert_in_page(page: &mut Page, place: u32, digest: [u8; 32]) -> Result<(), NoMemory>
    ensures here { OnOk result (get nat_cmp page.new place ≡ Some digest) }
    ensures elsewhere { OnOk result ((other : ℕ) → other ≢ place
        → get nat_cmp page.new other ≡ get nat_cmp page.old other) }
    ensures err { OnErr result (page.new.entries ≡ page.old.entries) }
    ensures absent { OnErr result (get nat_cmp page.old place ≡ None) }
{
    page.insert(place, digest)?;
    Ok(())
}

// Takes the node at a place of a page away.
fn take_node(pages: &mut Pages, name: PageName, place: u32)
    ensures { PutsNode name place None pages.old pages.new }
{
    if let Some(page) = pages.get_mut(&name) {
        take_from_page(page, place);
    }
}

// The same in the page.
fn take_from_page(page: &mut Page, place: u32)
    ensures here { get nat_cmp page.new place ≡ None }
    ensures elsewhere { (other : ℕ) → other ≢ place → get nat_cmp page.new other ≡ get nat_cmp page.old other }
{
    page.remove(&place);
}

// Takes a page without a node away.
fn drop_empty(pages: &mut Pages, name: PageName)
    ensures { SameNodes pages.old pages.new }
{
    if has_empty(pages, name) {
        pages.remove(&name);
    }
}

// Whether there is a page of that name, without a node.
fn has_empty(pages: &Pages, name: PageName) -> bool
    ensures { IsTrue result → (place : ℕ) → page_node pages.now name place ≡ None }
{
    match pages.get(&name) {
        Some(page) => page.is_empty(),
        None => false,
    }
}
