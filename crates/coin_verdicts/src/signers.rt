ghost use Rattle.std.specs.Prelude.{◌≡◌, ◌++◌, ◌∷◌, [], ℕ, not, if◌then◌else◌, length, slice_get, IfOk, OnOk, IsSome, None};
ghost use Rattle.std.specs.Ordering.{nat_cmp};
ghost use Rattle.std.specs.BTreeMap.{get};
ghost use Rattle.coin_verdicts.specs.Facts.{has};
ghost use Rattle.coin_verdicts.specs.Books.{nothing_signed, with_leaf, with_taken, signing_of};

use super::note::Leaf;
use plasma_base::NoMemory;
use std::alloc::Global;
use std::collections::{BTreeMap, BTreeSet};
use std::marker::Model;

/// A wallet's leaves in the order of time, and the numbers of those that it took back.
#[derive(Drop)]
pub struct Signer {
    leaves: Vec<Leaf>,
    taken: BTreeSet<u64>,
}

impl Model for Signer {
    ghost use Rattle.coin_verdicts.specs.Books.{Signing};

    ghost Value = { Signing };

    ghost view = { λ s. record { leaves = s.leaves.items; taken = s.taken.keys } };
}

impl Signer {
    /// A wallet that signed nothing.
    pub fn new(alloc: Global) -> Signer
        ensures { result ≡ nothing_signed }
    {
        Signer {
            leaves: Vec::new(alloc),
            taken: BTreeSet::new(alloc),
        }
    }

    /// Binds the next leaf. Whether it isn't taken back already.
    pub fn bind(&mut self, leaf: Leaf) -> Result<bool, NoMemory>
        ensures signing { OnOk result (self.new ≡ with_leaf leaf self.old) }
        ensures stands { IfOk result (λ stands. stands ≡ not (has self.old.taken (length self.old.leaves))) }
    {
        let stands = !self.taken.contains(&(self.leaves.len() as u64));
        self.leaves.push(leaf)?;
        Ok(stands)
    }

    /// Takes a leaf back. What it bound, where it did and wasn't taken back before.
    pub fn take_back(&mut self, number: u64) -> Result<Option<Leaf>, NoMemory>
        ensures signing { OnOk result (self.new ≡ with_taken number self.old) }
        ensures leaf { IfOk result (λ leaf. leaf
            ≡ (if has self.old.taken number then None else slice_get self.old.leaves number)) }
    {
        let was_taken = self.taken.contains(&number);
        self.taken.insert(number)?;
        Ok(if was_taken {
            None
        } else {
            leaf_at(&self.leaves, number)
        })
    }
}

/// What each wallet signed.
#[derive(Drop)]
pub struct Signers {
    alloc: Global,
    wallets: BTreeMap<u64, Signer>,
}

impl Signers {
    ghost use Rattle.coin_verdicts.specs.Signings.{signed_in, IsSigned};

    /// No wallet signed anything.
    pub fn new(alloc: Global) -> Signers
        ensures { (w : ℕ) → signed_in result w ≡ nothing_signed }
    {
        Signers {
            alloc,
            wallets: BTreeMap::new(alloc),
        }
    }

    /// A wallet binds its next leaf. Whether it isn't taken back already.
    pub fn bind(&mut self, wallet: u64, leaf: Leaf) -> Result<bool, NoMemory>
        ensures signing { OnOk result (IsSigned self.old self.new wallet (with_leaf leaf (signed_in self.old wallet))) }
        ensures stands { IfOk result (λ stands. stands
            ≡ not (has (signed_in self.old wallet).taken (length (signed_in self.old wallet).leaves))) }
    {
        know(&mut self.wallets, self.alloc, wallet)?;
        match self.wallets.get_mut(&wallet) {
            Some(signer) => signer.bind(leaf),
            None => unreachable!(),
        }
    }

    /// A wallet takes a leaf back. What it bound, where it did and wasn't taken back before.
    pub fn take_back(&mut self, wallet: u64, number: u64) -> Result<Option<Leaf>, NoMemory>
        ensures signing { OnOk result (IsSigned self.old self.new wallet
            (with_taken number (signed_in self.old wallet))) }
        ensures leaf { IfOk result (λ leaf. leaf ≡ (if has (signed_in self.old wallet).taken number then None
            else slice_get (signed_in self.old wallet).leaves number)) }
    {
        know(&mut self.wallets, self.alloc, wallet)?;
        match self.wallets.get_mut(&wallet) {
            Some(signer) => signer.take_back(number),
            None => unreachable!(),
        }
    }
}

// The leaf with this number.
fn leaf_at(leaves: &[Leaf], number: u64) -> Option<Leaf>
    ensures { result ≡ slice_get leaves.now number }
{
    leaves.get(number as usize).copied()
}

// Makes the wallet's entry, in which nothing is signed where there was none.
fn know(wallets: &mut BTreeMap<u64, Signer>, alloc: Global, wallet: u64) -> Result<(), NoMemory>
    ensures same { (w : ℕ) → signing_of wallets.new w ≡ signing_of wallets.old w }
    ensures known { OnOk result (IsSome (get nat_cmp wallets.new wallet)) }
{
    if wallets.contains_key(&wallet) {
        return Ok(());
    }
    wallets.insert(wallet, Signer::new(alloc))?;
    Ok(())
}
