ghost use Rattle.std.specs.Prelude.{◌≡◌, ◌≤◌, length, IfSome};
ghost use Rattle.plasma_tx.specs.Transfer.{is_signed_by};

use super::owner::Owner;
use super::signed_tx::{SignedTx, signed_by};
use std::alloc::Global;
use std::cell::RefCell;
use std::cmp::Ordering;

// The most tests that are remembered. No clause bounds memory.
const MOST_KNOWN: usize = 8_192;

// The bytes of the longest signature that any key may have. A longer one is refused by its length, so that
// its test costs less than to remember it.
const LONGEST_SIGNATURE: usize = 2_508;

// A transfer and an owner, and whether he signed it.
#[derive(Drop)]
struct Tested {
    tx: SignedTx,
    owner: Owner,
    is_valid: bool,
    ghost is_tested: { is_signed_by tx owner ≡ is_valid },
}

/// What the tests of signatures found, so that none is made twice: at most 8,192, which take 24 MB at most.
/// No answer depends on it. Where there is no memory for one it isn't remembered. A call that takes no
/// `&mut` remembers too.
#[derive(Drop)]
pub struct Signatures {
    // In the order of `compare`, and not by a hash: nobody can choose signatures that are slow to find.
    known: RefCell<Vec<Box<Tested>>>,
}

impl Signatures {
    /// None is known. It takes no memory.
    pub fn new(alloc: Global) -> Signatures {
        Signatures {
            known: RefCell::new(Vec::new(alloc)),
        }
    }

    /// Whether the owner signed the transfer. It tests a signature that isn't known, and remembers what it
    /// found.
    pub fn signed_by(&self, tx: &SignedTx, owner: &Owner) -> bool
        ensures { result ≡ is_signed_by tx.now owner.now }
    {
        if let Some(is_valid) = self.recall(tx, owner) {
            return is_valid;
        }
        let is_valid = signed_by(tx, owner);
        self.remember(tx, owner, is_valid);
        is_valid
    }

    // What is known of whether the owner signed the transfer.
    fn recall(&self, tx: &SignedTx, owner: &Owner) -> Option<bool>
        ensures { IfSome result (λ is_valid. is_valid ≡ is_signed_by tx.now owner.now) }
    {
        match self.known.try_borrow() {
            Ok(known) => found_in(known.as_slice(), tx, owner),
            Err(_) => None,
        }
    }

    // Remembers whether the owner signed the transfer, where there is memory.
    fn remember(&self, tx: &SignedTx, owner: &Owner, is_valid: bool)
        requires { is_signed_by tx.now owner.now ≡ is_valid }
    {
        if tx.signature.len() > LONGEST_SIGNATURE {
            return;
        }
        if let (Ok(mut known), Ok(tx)) = (self.known.try_borrow_mut(), tx.copy()) {
            let tested = Tested {
                tx,
                owner: *owner,
                is_valid,
            };
            put(&mut known, tested);
        }
    }
}

// What the test of the transfer and the owner found, where it is one of these.
fn found_in(known: &[Box<Tested>], tx: &SignedTx, owner: &Owner) -> Option<bool>
    ensures { IfSome result (λ is_valid. is_valid ≡ is_signed_by tx.now owner.now) }
{
    answer_of(known.get(place_of(known, tx, owner))?, tx, owner)
}

// What the test found, where it was of that transfer and that owner.
fn answer_of(tested: &Tested, tx: &SignedTx, owner: &Owner) -> Option<bool>
    ensures { IfSome result (λ is_valid. is_valid ≡ is_signed_by tx.now owner.now) }
{
    if tested.tx.body == tx.body
        && tested.owner == *owner
        && tested.tx.signature.as_slice() == tx.signature.as_slice()
    {
        return Some(tested.is_valid);
    }
    None
}

// Adds a test to these at its place; to as many as are remembered, in place of the next one.
fn put(known: &mut Vec<Box<Tested>>, tested: Tested) {
    let place = place_of(known.as_slice(), &tested.tx, &tested.owner);
    let Ok(tested) = Box::new(*known.allocator(), tested) else {
        return;
    };
    if known.len() < MOST_KNOWN {
        let _ = known.insert(place, tested);
    } else {
        let place = place.min(known.len() - 1);
        known[place] = tested;
    }
}

// The place of a test of the transfer and the owner among these.
fn place_of(known: &[Box<Tested>], tx: &SignedTx, owner: &Owner) -> usize
    ensures { result ≤ length known.now }
{
    known.partition_point(|tested| compare(tested, tx, owner).is_lt())
}

// The order in which tests are kept: of the signatures, then of the owners, then of what is signed.
fn compare(tested: &Tested, tx: &SignedTx, owner: &Owner) -> Ordering {
    match tested.tx.signature.as_slice().cmp(tx.signature.as_slice()) {
        Ordering::Equal => {}
        order => return order,
    }
    match tested.owner.write().cmp(&owner.write()) {
        Ordering::Equal => {}
        order => return order,
    }
    let body = tested.tx.body.write();
    body.as_slice().cmp(tx.body.write().as_slice())
}
