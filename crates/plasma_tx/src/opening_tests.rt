ghost use Rattle.std.specs.Prelude.{◌≡◌, ◌<◌, ◌≤◌, length, IfOk, IfSome, OnErr};
ghost use Rattle.sha2.specs.Sha256.{sha256};
ghost use Rattle.sparse_merkle.specs.TreeDigest.{AreDefaults};
ghost use Rattle.plasma_tx.specs.Openings.{HasOpeningLength, opening_in};
ghost use Rattle.plasma_tx.specs.Shown.{opens_root};

use super::opening::{Opening, OpeningRefusal, RawOpening};
use plasma_base::{Hash32, NoMemory};
use sparse_merkle::opens_with_defaults;
use std::alloc::Global;
use std::cell::RefCell;
use std::cmp::Ordering;

// The most tests of short openings that are remembered. No clause bounds memory.
const MOST_SHORT: usize = 8_192;

// The most tests of long openings that are remembered.
const MOST_LONG: usize = 256;

// The bytes of the longest opening that is short: a leaf with the longest signature that any key may have, and 11
// siblings.
const LONGEST_SHORT: usize = 3_000;

// The bytes of the longest opening that is remembered: the longest leaf that a line may have, and 64 siblings.
const LONGEST_LONG: usize = 68_000;

// An opening, and whether it opens the root at the coin.
#[derive(Drop)]
struct Tested {
    root: [u8; 32],
    coin: u64,
    opening: RawOpening,
    opens: bool,
    ghost is_tested: { opens_root sha256 root coin (opening_in sha256 opening) ≡ opens },
}

/// What the tests of openings under SHA-256 found, so that none is made twice: of openings of at most 3,000 bytes at
/// most 8,192, in 27 MB at most, and of longer ones 256, in 18 MB at most. Bytes that somebody else holds too lie in
/// memory once. No answer depends on it. Where there is no memory for one it isn't remembered. A call that takes no
/// `&mut` remembers too.
#[derive(Drop)]
pub struct OpeningTests {
    // In the order of `compare`, and not by a hash: nobody can choose openings that are slow to find.
    short: RefCell<Vec<Box<Tested>>>,
    long: RefCell<Vec<Box<Tested>>>,
}

impl OpeningTests {
    /// None is known. It takes no memory.
    pub fn new(alloc: Global) -> OpeningTests {
        OpeningTests {
            short: RefCell::new(Vec::new(alloc)),
            long: RefCell::new(Vec::new(alloc)),
        }
    }

    /// Whether the opening opens the root at the coin. Under SHA-256 it tests an opening that isn't known, and
    /// remembers what it found; under another digest it tests each. `NoMemory` comes only where the bytes are as long as
    /// an opening.
    pub fn opens<H: Hash32>(
        &self,
        alloc: Global,
        h: &H,
        defaults: &[[u8; 32]; 64],
        root: &[u8; 32],
        coin: u64,
        opening: &RawOpening,
    ) -> Result<bool, NoMemory>
        requires { AreDefaults (H.digest_of h.now) defaults.now }
        ensures opens { IfOk result (λ opens. opens
            ≡ opens_root (H.digest_of h.now) root.now coin (opening_in (H.digest_of h.now) opening.now)) }
        ensures memory { OnErr result (HasOpeningLength opening.now.bytes) }
    {
        if !h.is_sha256() {
            return test(alloc, h, defaults, root, coin, opening);
        }
        if let Some(opens) = self.recall(root, coin, opening) {
            return Ok(opens);
        }
        let opens = test(alloc, h, defaults, root, coin, opening)?;
        self.remember(root, coin, opening, opens);
        Ok(opens)
    }

    // What is known of whether the opening opens the root at the coin.
    fn recall(&self, root: &[u8; 32], coin: u64, opening: &RawOpening) -> Option<bool>
        ensures { IfSome result (λ opens. opens ≡ opens_root sha256 root.now coin (opening_in sha256 opening.now)) }
    {
        match self.known(opening).try_borrow() {
            Ok(known) => found_in(known.as_slice(), root, coin, opening),
            Err(_) => None,
        }
    }

    // The tests of openings as long as this one.
    fn known(&self, opening: &RawOpening) -> &RefCell<Vec<Box<Tested>>> {
        if opening.bytes.len() <= LONGEST_SHORT {
            &self.short
        } else {
            &self.long
        }
    }

    // Remembers whether the opening opens the root at the coin, where there is memory.
    fn remember(&self, root: &[u8; 32], coin: u64, opening: &RawOpening, opens: bool)
        requires { opens_root sha256 root.now coin (opening_in sha256 opening.now) ≡ opens }
    {
        let most = match opening.bytes.len() {
            0..=LONGEST_SHORT => MOST_SHORT,
            ..=LONGEST_LONG => MOST_LONG,
            _ => return,
        };
        if let (Ok(mut known), Ok(opening)) = (
            self.known(opening).try_borrow_mut(),
            opening.copy(),
        ) {
            let tested = Tested {
                root: *root,
                coin,
                opening,
                opens,
            };
            put(&mut known, most, tested);
        }
    }
}

// Whether the opening opens the root at the coin: it is read, and its leaf folds along its proof to the root.
fn test<H: Hash32>(
    alloc: Global,
    h: &H,
    defaults: &[[u8; 32]; 64],
    root: &[u8; 32],
    coin: u64,
    opening: &RawOpening,
) -> Result<bool, NoMemory>
    requires { AreDefaults (H.digest_of h.now) defaults.now }
    ensures opens { IfOk result (λ opens. opens
        ≡ opens_root (H.digest_of h.now) root.now coin (opening_in (H.digest_of h.now) opening.now)) }
    ensures memory { OnErr result (HasOpeningLength opening.now.bytes) }
{
    match opening.open_up_with_defaults(h, defaults) {
        Ok(
            Opening {
                block: _,
                leaf,
                proof,
            },
        ) => Ok(opens_with_defaults(h, defaults, root, coin, leaf.as_slice(), &proof)),
        Err(OpeningRefusal::Unreadable) => Ok(false),
        Err(OpeningRefusal::NoMemory) => Err(NoMemory),
    }
}

// What the test of the opening found, where it is one of these.
fn found_in(known: &[Box<Tested>], root: &[u8; 32], coin: u64, opening: &RawOpening) -> Option<bool>
    ensures { IfSome result (λ opens. opens ≡ opens_root sha256 root.now coin (opening_in sha256 opening.now)) }
{
    answer_of(
        known.get(place_of(known, root, coin, opening))?,
        root,
        coin,
        opening,
    )
}

// What the test found, where it was of that root, that coin and that opening.
fn answer_of(tested: &Tested, root: &[u8; 32], coin: u64, opening: &RawOpening) -> Option<bool>
    ensures { IfSome result (λ opens. opens ≡ opens_root sha256 root.now coin (opening_in sha256 opening.now)) }
{
    if tested.root == *root
        && tested.coin == coin
        && tested.opening.block == opening.block
        && tested.opening.bytes.as_slice() == opening.bytes.as_slice()
    {
        return Some(tested.opens);
    }
    None
}

// Adds a test to these at its place; to the most that there may be, in place of the next one.
fn put(known: &mut Vec<Box<Tested>>, most: usize, tested: Tested)
    requires { 0 < most }
{
    let place = place_of(known.as_slice(), &tested.root, tested.coin, &tested.opening);
    let Ok(tested) = Box::new(*known.allocator(), tested) else {
        return;
    };
    if known.len() < most {
        let _ = known.insert(place, tested);
    } else {
        let place = place.min(known.len() - 1);
        known[place] = tested;
    }
}

// The place of a test of the opening among these.
fn place_of(known: &[Box<Tested>], root: &[u8; 32], coin: u64, opening: &RawOpening) -> usize
    ensures { result ≤ length known.now }
{
    known.partition_point(|tested| compare(tested, root, coin, opening).is_lt())
}

// The order in which tests are kept: of the coins, then of the blocks, then of the roots, then of the openings' bytes.
fn compare(tested: &Tested, root: &[u8; 32], coin: u64, opening: &RawOpening) -> Ordering {
    tested
        .coin
        .cmp(&coin)
        .then(tested.opening.block.cmp(&opening.block))
        .then_with(|| tested.root.as_slice().cmp(root.as_slice()))
        .then_with(|| tested
            .opening
            .bytes
            .as_slice()
            .cmp(opening.bytes.as_slice()))
}
