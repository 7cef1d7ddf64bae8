ghost use Rattle.std.specs.Prelude.{◌≡◌, ◌≢◌, ◌<◌, ◌^◌, ◌++◌, length, IfOk, OnOk, OnErr, Err};

use super::reading::{items_at, read_length, read_number};
use super::refusal::HistoryRefusal;
use super::spelling::push_bundle;
use plasma_base::NoMemory;
use plasma_tx::RawOpening;
use std::alloc::{AllocError, AllocFailed, Global};
use std::marker::Model;

/// Openings in order, which contracts see as a list.
#[derive(Drop)]
pub struct Openings {
    items: Vec<RawOpening>,
}

impl Model for Openings {
    ghost use Rattle.std.specs.Prelude.{List};
    ghost use Rattle.plasma_tx.specs.declared.opening.RawOpening.{RawOpening};

    ghost Value = { List RawOpening };

    ghost view = { λ o. o.items.items };
}

impl Openings {
    /// The openings of a vector. It takes no memory.
    pub fn from_vec(items: Vec<RawOpening>) -> Openings
        ensures { result ≡ items.items }
    {
        Openings { items }
    }

    /// The openings, lent.
    pub fn as_slice(&self) -> &[RawOpening]
        ensures { result.now ≡ self.now }
    {
        self.items.as_slice()
    }

    /// Equal openings, or `NoMemory`.
    pub fn copy(&self) -> Result<Openings, NoMemory>
        ensures { IfOk result (λ copied. copied ≡ self.now) }
    {
        let mut items = Vec::with_capacity(*self.items.allocator(), self.items.len())?;
        for opening in &self.items {
            items.push(opening.copy()?)?;
        }
        Ok(Openings { items })
    }
}

/// What the blocks up to a tip have at a coin, in rising order of blocks.
#[derive(Drop)]
pub struct Bundle {
    pub coin: u64,
    /// The last block that the openings are to reach. A history's tip is its last link's block, or the
    /// deposit block.
    pub tip: u64,
    pub openings: Openings,
}

impl Bundle {
    ghost use Rattle.std.specs.List.{All};
    ghost use Rattle.coin_history.specs.Bundles.{AreRising, HasFirstItem, bundle_in, bundle_text};

    /// The bundle that the bytes spell: the coin and the tip as u64, the number of items as a u32, the
    /// items and nothing after them. An item is a block number as a u64, the length of its opening as a
    /// u32, and the opening's bytes; the block numbers rise strictly. `BadBundle` comes with the place
    /// of the first field that runs past the end, or of the first block number that isn't greater than
    /// the one before, or else of the first byte after the items; `NoMemory` where memory runs out. The
    /// number of items isn't trusted: memory is taken for an item only once its bytes are found.
    #[tactic(auto, unfolding(crate::specs::Bundles::bundle_in))]
    pub fn read(alloc: Global, bytes: &[u8]) -> Result<Bundle, HistoryRefusal>
        ensures value { result ≢ Err HistoryRefusal.NoMemory → result ≡ bundle_in bytes.now }
        ensures short { length bytes.now < 20 → result ≡ bundle_in bytes.now }
        ensures memory { result ≡ Err HistoryRefusal.NoMemory → HasFirstItem bytes.now }
        ensures rising { IfOk result (λ bundle. AreRising bundle.openings) }
        ensures count { IfOk result (λ bundle. length bundle.openings < 2 ^ 32) }
        ensures lengths { IfOk result (λ bundle. All (λ opening. length opening.bytes < 2 ^ 32) bundle.openings) }
    {
        let coin = read_number(bytes, 0)?;
        let tip = read_number(bytes, 8)?;
        let count = read_length(bytes, 16)?;
        let (openings, end) = items_at(alloc, bytes, 20, count)?;
        if end != bytes.len() {
            return Err(HistoryRefusal::BadBundle { place: end as u64 });
        }
        Ok(Bundle {
            coin,
            tip,
            openings,
        })
    }

    /// Puts the bytes of the bundle at the end, which `read` reads: its blocks have to rise strictly, and
    /// the number of openings and the length of each fit a u32, as they do in every bundle that was
    /// read. Where memory runs out nothing changes.
    pub fn write(&self, out: &mut Vec<u8>) -> Result<(), NoMemory>
        requires rising { AreRising self.now.openings }
        requires count { length self.now.openings < 2 ^ 32 }
        requires lengths { All (λ opening. length opening.bytes < 2 ^ 32) self.now.openings }
        ensures ok { OnOk result (out.new.items ≡ out.old.items ++ bundle_text self.now) }
        ensures err { OnErr result (out.new.items ≡ out.old.items) }
    {
        let before = out.len();
        let pushed = push_bundle(out, self);
        if pushed.is_err() {
            out.truncate(before);
        }
        pushed
    }

    /// An equal bundle, or `NoMemory`.
    pub fn copy(&self) -> Result<Bundle, NoMemory>
        ensures { IfOk result (λ copied. copied ≡ self.now) }
    {
        Ok(Bundle {
            coin: self.coin,
            tip: self.tip,
            openings: self.openings.copy()?,
        })
    }
}
