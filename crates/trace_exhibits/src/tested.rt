ghost use Rattle.std.specs.Prelude.{◌≡◌, ◌⊎◌, ℕ, nat_eq, List, OnOk, Some};
ghost use Rattle.std.specs.HashMap.{get};
ghost use Rattle.world_rules.specs.Events.{Event};
ghost use Rattle.trace_exhibits.specs.Opened.{Opened};
ghost use Rattle.trace_exhibits.specs.Tested.{count_at, KeepsTested};

use plasma_base::NoMemory;
use std::alloc::Global;
use std::collections::HashMap;

/// How many wallets had been declared when an opening was last tested, by the place at which it was met. It showed no
/// forgery then. So one that it shows later is of a wallet that was declared since: a leaf that binds a body later
/// makes none.
#[derive(Drop)]
pub(crate) struct Tested {
    places: HashMap<usize, usize>,
}

impl Tested {
    /// No opening. It takes no memory.
    pub(crate) fn new(alloc: Global) -> Tested
        ensures { (tag : List ℕ) (events : List Event) (met : List Opened) → KeepsTested tag events met result }
    {
        Tested {
            places: HashMap::new(alloc),
        }
    }

    /// How many wallets had been declared when the opening that was met at this place was last tested; 0 where it wasn't.
    pub(crate) fn count(&self, place: Option<usize>) -> usize
        ensures { result ≡ count_at self.now place }
    {
        match place {
            Some(place) => self.places.get(&place).copied().unwrap_or(0),
            None => 0,
        }
    }

    /// Notes that so many wallets had been declared when the opening that was met at this place, where it was met, was
    /// tested.
    pub(crate) fn add(&mut self, place: Option<usize>, count: usize) -> Result<(), NoMemory>
        ensures { OnOk result ((at number : ℕ) → get nat_eq self.new.places at ≡ Some number
            → (get nat_eq self.old.places at ≡ Some number) ⊎ ((place ≡ Some at) × (number ≡ count))) }
    {
        if let Some(place) = place {
            self.places.insert(place, count)?;
        }
        Ok(())
    }
}
