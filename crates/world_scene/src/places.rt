ghost use Rattle.std.specs.Prelude.{◌≡◌, ℕ, List, OnOk, OnErr};

use plasma_base::NoMemory;
use std::alloc::Global;
use std::collections::BTreeMap;

/// Where things are by their names: each name has one place at most. The map is an ordered one, since who writes a
/// schedule chooses the names.
#[derive(Drop)]
pub(crate) struct Places {
    by_name: BTreeMap<Vec<u8>, usize>,
}

impl Places {
    ghost use Rattle.world_scene.specs.Places.{place_in, PutsPlace};

    // No name has a place. It takes no memory.
    pub(crate) fn new(alloc: Global) -> Places {
        Places {
            by_name: BTreeMap::new(alloc),
        }
    }

    // The place that the name has.
    pub(crate) fn place_of(&self, name: &[u8]) -> Option<usize>
        ensures { result ≡ place_in self.now name.now }
    {
        self.by_name.get(name).copied()
    }

    // Gives the name this place. `NoMemory` changes no place.
    pub(crate) fn put(&mut self, alloc: Global, name: &[u8], place: usize) -> Result<(), NoMemory>
        ensures ok { OnOk result (PutsPlace self.old name.now place self.new) }
        ensures err { OnErr result ((other : List ℕ) → place_in self.new other ≡ place_in self.old other) }
    {
        let key = Vec::from_slice(alloc, name)?;
        self.by_name.insert(key, place)?;
        Ok(())
    }
}
