ghost use Rattle.std.specs.Prelude.{◌≡◌, ◌≢◌, ◌<◌, ◌^◌, ◌==◌, ◌∷◌, [], ℕ, length, Ok, Err, OnOk, OnErr, IfOk, IsOk, if◌then◌else◌};
ghost use Rattle.std.specs.List.{All};
ghost use Rattle.plasma_tx.specs.Chain.{with_log};
ghost use Rattle.coin_history.specs.Bundles.{AreRising};
ghost use Rattle.proof_archive.specs.Archives.{kept_in, openings_up_to, place_answer, put_answer, after_put, tip_answer, broken_answer, bundle_answer};
ghost use Rattle.proof_archive.specs.Laws.{StaysAHistory};

use super::cells::{broken_in, is_tip_in, judged_in, keep_in, openings_in, tip_in};
use super::coin::CoinArchive;
use super::refusal::ArchiveRefusal;
use coin_history::Bundle;
use plasma_base::{Hash32, NoMemory};
use plasma_tx::{RawOpening, RootCall, RootLog};
use sparse_merkle::defaults;
use std::alloc::Global;
use std::collections::BTreeMap;
use std::marker::Model;

/// The log of a chain, and what its committed blocks have at coins, as openings that were put. Beside them
/// it keeps where each coin's links lead, so that no call looks at them again.
#[derive(Drop)]
pub struct Archive<H: Hash32> {
    alloc: Global,
    log: RootLog,
    hash: H,
    defaults: [[u8; 32]; 64],
    coins: BTreeMap<u64, CoinArchive>,
}

impl<H: Hash32> Model for Archive<H> {
    ghost use Rattle.std.specs.Prelude.{map};
    ghost use Rattle.proof_archive.specs.Archives.{ArchiveState};
    ghost use Rattle.proof_archive.specs.Carried.{openings_of, IsWhole};

    ghost Value = { ArchiveState H };

    ghost view = { λ a. record {
      chain = a.log;
      hash = a.hash;
      kept = map openings_of a.coins.entries;
    } };

    ghost invariant = { λ a. IsWhole (H.digest_of a.hash) a.log a.defaults a.coins };
}

impl<H: Hash32> Archive<H> {
    /// An archive of the chain with this tag, this operator's account and at most so many blocks, without
    /// calls and openings. It makes 64 digests and takes no memory.
    pub fn make(alloc: Global, tag: [u8; 32], operator: u64, most_blocks: u64, h: H) -> Archive<H>
        ensures { result ≡ record {
          chain = record { tag = tag; operator = operator; most_blocks = most_blocks; log = [] };
          hash = h;
          kept = [];
        } }
    {
        let defaults = defaults(&h);
        Archive {
            alloc,
            log: RootLog::make(alloc, tag, operator, most_blocks),
            hash: h,
            defaults,
            coins: BTreeMap::new(alloc),
        }
    }

    /// Appends a call to the log, which is taken at its word. `NoMemory` changes nothing.
    pub fn follow(&mut self, call: RootCall) -> Result<(), NoMemory>
        ensures ok { OnOk result (self.new
            ≡ record self.old { chain = with_log self.old.chain (call ∷ self.old.chain.log) }) }
        ensures err { OnErr result (self.new ≡ self.old) }
    {
        self.log.push(call)?;
        Ok(())
    }

    /// The log, lent.
    pub fn log(&self) -> &RootLog
        ensures { result.now ≡ self.now.chain }
    {
        &self.log
    }

    /// Keeps an opening of the coin, and gives its block. In this order: `NoCoin` where the log has no such
    /// coin; `UnknownBlock` where the block isn't a committed one after the deposit, or is past the limit of a
    /// log's blocks, the 2^32nd or a later one; `HaveBlock` where it is kept; `Gap` with the lowest committed
    /// block after the deposit and before this one that isn't kept; `BadOpening` where the opening has 2^32
    /// bytes or more, which no bundle has, doesn't read, or doesn't open the block's root at the coin. A refusal
    /// changes nothing. `NoMemory` comes only of an opening that is looked at: its block is the next one of the
    /// coin, and it is short enough. It makes the digests of one opening, at most 65, and tests at most one
    /// signature, whatever is kept.
    pub fn put(&mut self, coin: u64, opening: RawOpening) -> Result<u64, ArchiveRefusal>
        ensures answer { result ≢ Err ArchiveRefusal.NoMemory
            → result ≡ put_answer (H.digest_of self.old.hash) self.old.chain (kept_in self.old coin) coin opening }
        ensures memory { result ≡ Err ArchiveRefusal.NoMemory
            → place_answer self.old.chain (kept_in self.old coin) coin opening.block ≡ Ok opening.block }
        ensures short { result ≡ Err ArchiveRefusal.NoMemory → length opening.bytes < 2 ^ 32 }
        ensures kept { (c : ℕ) → kept_in self.new c
            ≡ (if c == coin then after_put (kept_in self.old coin) opening result else kept_in self.old c) }
        ensures chain { self.new.chain ≡ self.old.chain }
        ensures hash { self.new.hash ≡ self.old.hash }
    {
        let block = opening.block;
        let change = judged_in(
            self.alloc,
            &self.hash,
            &self.defaults,
            &self.log,
            &self.coins,
            coin,
            &opening,
        )?;
        keep_in(self.alloc, &mut self.coins, coin, opening, change)?;
        Ok(block)
    }

    /// The coin's greatest tip: the block of its last link, or the deposit block where there is none.
    /// `NoCoin` where the log has no such coin. It takes no memory.
    pub fn tip(&self, coin: u64) -> Result<u64, ArchiveRefusal>
        ensures { result ≡ tip_answer (H.digest_of self.now.hash) self.now.chain (kept_in self.now coin) coin }
    {
        match self.log.coin(coin) {
            Some(made) => Ok(tip_in(&self.coins, coin, made.deposit)),
            None => Err(ArchiveRefusal::NoCoin),
        }
    }

    /// The coin's lowest kept block with a leaf that is neither empty nor the next link; `None` exactly
    /// where there is none, so where the log has no such coin. It takes no memory.
    pub fn broken(&self, coin: u64) -> Option<u64>
        ensures { result ≡ broken_answer (H.digest_of self.now.hash) self.now.chain (kept_in self.now coin) coin }
    {
        broken_in(&self.coins, coin)
    }

    /// The bundle of the coin's kept openings up to a tip, which has bytes, and is a history by the log and
    /// by each that extends it. `NoCoin` where the log has no such coin; `NotTip` where the tip is neither
    /// the deposit block nor the block of a link. `NoMemory` comes only where there is a bundle to make, with an
    /// opening.
    pub fn bundle(&self, coin: u64, tip: u64) -> Result<Bundle, ArchiveRefusal>
        ensures value { result ≢ Err ArchiveRefusal.NoMemory
            → result ≡ bundle_answer (H.digest_of self.now.hash) self.now.chain (kept_in self.now coin) coin tip }
        ensures memory { result ≡ Err ArchiveRefusal.NoMemory
            → IsOk (bundle_answer (H.digest_of self.now.hash) self.now.chain (kept_in self.now coin) coin tip) }
        ensures some { result ≡ Err ArchiveRefusal.NoMemory → openings_up_to tip (kept_in self.now coin) ≢ [] }
        ensures history { IfOk result (StaysAHistory (H.digest_of self.now.hash) self.now.chain
            (kept_in self.now coin) coin tip) }
        ensures rising { IfOk result (λ bundle. AreRising bundle.openings) }
        ensures count { IfOk result (λ bundle. length bundle.openings < 2 ^ 32) }
        ensures lengths { IfOk result (λ bundle. All (λ opening. length opening.bytes < 2 ^ 32) bundle.openings) }
    {
        let Some(made) = self.log.coin(coin) else {
            return Err(ArchiveRefusal::NoCoin);
        };
        if !is_tip_in(&self.coins, coin, made.deposit, tip) {
            return Err(ArchiveRefusal::NotTip { tip });
        }
        Ok(Bundle {
            coin,
            tip,
            openings: openings_in(self.alloc, &self.coins, coin, tip)?,
        })
    }
}
