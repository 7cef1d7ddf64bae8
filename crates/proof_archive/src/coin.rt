ghost use Rattle.std.specs.Prelude.{◌≡◌, ◌≢◌, [], ◌==◌, ◌||◌, ◌<◌, reverse, is_some, vec_len, vec_capacity, OnOk, OnErr, IfOk};
ghost use Rattle.std.specs.List.{list_any};
ghost use Rattle.proof_archive.specs.Scan.{newest_block};
ghost use Rattle.proof_archive.specs.Archives.{openings_up_to};
ghost use Rattle.proof_archive.specs.Carried.{no_cell, tip_in, owner_in, ends_with, broken_with, with_opening, AreSpellable, HasRoom};

use coin_history::Openings;
use plasma_base::NoMemory;
use plasma_tx::{Owner, RawOpening};
use std::alloc::{AllocError, AllocFailed, Global};
use std::marker::Model;

/// Where a link leads: its block, and to whom the coin goes there.
#[derive(Clone, Copy, PartialEq, Eq)]
pub struct LinkEnd {
    pub block: u64,
    pub owner: Owner,
}

/// What an opening that is kept does to the links of its coin.
#[derive(Clone, Copy, PartialEq, Eq)]
pub enum Move {
    /// Its leaf is empty, or a block is broken already.
    Stays,
    /// Its leaf is the next link, which leads here.
    Links { end: LinkEnd },
    /// Its leaf is neither empty nor the next link.
    Breaks,
}

/// What is kept of a coin: the openings in the order of their blocks, where its links lead, and the broken
/// block. A bundle of all openings has bytes.
#[derive(Drop)]
pub struct CoinArchive {
    openings: Vec<RawOpening>,
    ends: Vec<LinkEnd>,
    broken: Option<u64>,
}

impl Model for CoinArchive {
    ghost use Rattle.proof_archive.specs.Carried.{CoinCell, AreSpellable};

    ghost Value = { CoinCell };

    ghost view = { λ c. record { openings = c.openings.items; ends = c.ends.items; broken = c.broken } };

    ghost invariant = { λ c. AreSpellable c.openings.items };
}

impl CoinArchive {
    /// Nothing is kept. It takes no memory.
    pub fn new(alloc: Global) -> CoinArchive
        ensures { result ≡ no_cell }
    {
        CoinArchive {
            openings: Vec::new(alloc),
            ends: Vec::new(alloc),
            broken: None,
        }
    }

    /// The block of the newest opening, or the deposit block where there is none.
    pub fn newest(&self, deposit: u64) -> u64
        ensures { result ≡ newest_block deposit (reverse self.now.openings) }
    {
        match self.openings.as_slice().last() {
            None => deposit,
            Some(opening) => opening.block,
        }
    }

    /// The block where the links lead, or the deposit block where there is none.
    pub fn tip(&self, deposit: u64) -> u64
        ensures { result ≡ tip_in deposit self.now.ends }
    {
        match self.ends.as_slice().last() {
            None => deposit,
            Some(end) => end.block,
        }
    }

    /// Who owns the coin where the links lead, or the depositor where there is none.
    pub fn owner(&self, depositor: Owner) -> Owner
        ensures { result ≡ owner_in depositor self.now.ends }
    {
        match self.ends.as_slice().last() {
            None => depositor,
            Some(end) => end.owner,
        }
    }

    /// The lowest block with a leaf that is neither empty nor the next link.
    pub fn broken(&self) -> Option<u64>
        ensures { result ≡ self.now.broken }
    {
        self.broken
    }

    /// Whether there is such a block.
    pub fn is_broken(&self) -> bool
        ensures { result ≡ is_some self.now.broken }
    {
        self.broken.is_some()
    }

    /// Whether the block is the deposit block, or that of a link.
    pub fn is_tip(&self, deposit: u64, tip: u64) -> bool
        ensures { result ≡ ((deposit == tip) || list_any (λ end. end.block == tip) self.now.ends) }
    {
        deposit == tip || leads_to(self.ends.as_slice(), tip)
    }

    /// The openings up to a block, as copies. Memory is taken only where there is one.
    pub fn up_to(&self, alloc: Global, tip: u64) -> Result<Openings, NoMemory>
        ensures openings { IfOk result (λ openings. openings ≡ openings_up_to tip self.now.openings) }
        ensures spellable { IfOk result (λ openings. AreSpellable openings) }
        ensures some { OnErr result (openings_up_to tip self.now.openings ≢ []) }
    {
        copies_up_to(alloc, self.openings.as_slice(), tip)
    }

    /// Keeps one more opening, which moves the links so; a bundle has to have bytes for it. It takes its memory
    /// first: `NoMemory` changes nothing.
    pub fn keep(&mut self, opening: RawOpening, change: Move) -> Result<(), NoMemory>
        requires { HasRoom self.old opening }
        ensures ok { OnOk result (self.new ≡ with_opening self.old opening change) }
        ensures err { OnErr result (self.new ≡ self.old) }
    {
        self.openings.reserve(1)?;
        self.ends.reserve(1)?;
        self.broken = moved(&mut self.ends, self.broken, opening.block, change);
        self.openings.push_reserved(opening);
        Ok(())
    }
}

// Whether one of these is at the block.
fn leads_to(ends: &[LinkEnd], block: u64) -> bool
    ensures { result ≡ list_any (λ end. end.block == block) ends.now }
{
    ends.iter().any(|end| end.block == block)
}

// Where the links lead after an opening of the block, for which there is room; and the broken block.
fn moved(ends: &mut Vec<LinkEnd>, broken: Option<u64>, block: u64, change: Move) -> Option<u64>
    requires { vec_len ends.old < vec_capacity ends.old }
    ensures ends { ends.new.items ≡ ends_with change ends.old.items }
    ensures broken { result ≡ broken_with change block broken }
{
    match change {
        Move::Stays => broken,
        Move::Links { end } => {
            ends.push_reserved(end);
            broken
        }
        Move::Breaks => Some(block),
    }
}

// The openings up to a block, as copies.
fn copies_up_to(alloc: Global, openings: &[RawOpening], tip: u64) -> Result<Openings, NoMemory>
    ensures copied { IfOk result (λ copied. copied ≡ openings_up_to tip openings.now) }
    ensures some { OnErr result (openings_up_to tip openings.now ≢ []) }
{
    let mut copied = Vec::new(alloc);
    for opening in openings {
        if opening.block <= tip {
            copied.push(opening.copy()?)?;
        }
    }
    Ok(Openings::from_vec(copied))
}
