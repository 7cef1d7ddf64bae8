ghost use Rattle.std.specs.Prelude.{◌≡◌, ◌++◌, ◌∷◌, [], true, length, OnOk, OnErr, IfOk, IfSome, Some};
ghost use Rattle.std.specs.List.{slice_get};
ghost use Rattle.trace_exhibits.specs.Met.{leaf_at};

use plasma_base::NoMemory;
use plasma_tx::{RawOpening, leaf_in};
use std::alloc::Global;
use std::collections::HashMap;
use std::marker::Model;

/// A coin and a block that one of its openings shows.
#[derive(Clone, Copy, PartialEq, Eq, Hash)]
pub(crate) struct Spot {
    coin: u64,
    block: u64,
}

/// An opening of a coin, kept.
#[derive(Drop)]
pub(crate) struct KeptOpening {
    coin: u64,
    opening: RawOpening,
}

impl Model for KeptOpening {
    ghost use Rattle.trace_exhibits.specs.Opened.{Opened};

    ghost Value = { Opened };

    ghost view = { λ k. record { coin = k.coin; opening = k.opening } };
}

/// The openings that were met, each once and in their order. By coin and block, where different ones would be a clash,
/// it has where they stand; no contract speaks of that, since a wrong entry costs memory and time alone.
#[derive(Drop)]
pub(crate) struct MetOpenings {
    openings: Vec<KeptOpening>,
    by_spot: HashMap<Spot, Vec<usize>>,
}

impl Model for MetOpenings {
    ghost use Rattle.std.specs.Prelude.{List};
    ghost use Rattle.trace_exhibits.specs.Opened.{Opened};

    ghost Value = { List Opened };

    ghost view = { λ m. m.openings.items };
}

// Whether this is the opening of the coin.
fn is_same(kept: &KeptOpening, coin: u64, opening: &RawOpening) -> bool
    ensures { result ≡ true → kept.now ≡ record { coin = coin; opening = opening.now } }
{
    kept.coin == coin
        && kept.opening.block == opening.block
        && kept.opening.bytes.as_slice() == opening.bytes.as_slice()
}

// The first of these places at which the opening of the coin stands.
fn place_among(
    openings: &[KeptOpening],
    places: &[usize],
    coin: u64,
    opening: &RawOpening,
) -> Option<usize>
    ensures { IfSome result (λ place.
        slice_get openings.now place ≡ Some (record { coin = coin; opening = opening.now })) }
{
    for place in places {
        if let Some(kept) = openings.get(*place) {
            if is_same(kept, coin, opening) {
                return Some(*place);
            }
        }
    }
    None
}

impl MetOpenings {
    /// No opening. It takes no memory.
    pub(crate) fn new(alloc: Global) -> MetOpenings
        ensures { result ≡ [] }
    {
        MetOpenings {
            openings: Vec::new(alloc),
            by_spot: HashMap::new(alloc),
        }
    }

    /// The place of the opening of the coin, where it was met.
    pub(crate) fn find(&self, coin: u64, opening: &RawOpening) -> Option<usize>
        ensures { IfSome result (λ place.
            slice_get self.now place ≡ Some (record { coin = coin; opening = opening.now })) }
    {
        let spot = Spot {
            coin,
            block: opening.block,
        };
        match self.by_spot.get(&spot) {
            Some(places) => place_among(&self.openings, places, coin, opening),
            None => None,
        }
    }

    // Notes that an opening of the coin and block stands at this place.
    fn note(&mut self, alloc: Global, spot: Spot, place: usize) -> Result<(), NoMemory>
        ensures { self.new ≡ self.old }
    {
        let mut places = match self.by_spot.remove(&spot) {
            Some(places) => places,
            None => Vec::new(alloc),
        };
        places.push(place)?;
        self.by_spot.insert(spot, places)?;
        Ok(())
    }

    /// Adds an opening of the coin behind the others: its place. `NoMemory` leaves the openings as they were.
    pub(crate) fn add(
        &mut self,
        alloc: Global,
        coin: u64,
        opening: RawOpening,
    ) -> Result<usize, NoMemory>
        ensures place { IfOk result (λ place. place ≡ length self.old) }
        ensures added { OnOk result (self.new ≡ self.old ++ record { coin = coin; opening = opening } ∷ []) }
        ensures same { OnErr result (self.new ≡ self.old) }
    {
        let place = self.openings.len();
        let spot = Spot {
            coin,
            block: opening.block,
        };
        self.note(alloc, spot, place)?;
        self.openings.push(KeptOpening { coin, opening })?;
        Ok(place)
    }

    /// The leaf of the opening at a place, lent; empty where there is none.
    pub(crate) fn leaf(&self, place: usize) -> &[u8]
        ensures { result.now ≡ leaf_at self.now place }
    {
        match self.openings.get(place) {
            Some(kept) => leaf_in(kept.opening.bytes.as_slice()),
            None => &[],
        }
    }
}
