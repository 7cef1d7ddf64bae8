ghost use Rattle.std.specs.Prelude.{◌≡◌, ◌++◌, ◌∷◌, [], find, None, IfOk, OnOk, OnErr};
ghost use Rattle.std.specs.List.{list_any};
ghost use Rattle.std.specs.Option.{option_map, option_copied};
ghost use Rattle.world_rules.specs.World.{owner_of_rogue};
ghost use Rattle.world_scene.specs.Names.{is_named_rogue, is_rogue_with};

use super::places::Places;
use node_rules::WalletIdentity;
use plasma_base::NoMemory;
use plasma_tx::Owner;
use std::alloc::Global;
use std::marker::Model;
use world_tokens::{KeyPlace, KeyPlaces, Rogue};

/// The strangers that have names, in the order of their declarations, each with a name of its own, by which it is found
/// without going through all of them; and the places of their keys. Contracts see the strangers.
#[derive(Drop)]
pub(crate) struct Rogues {
    rogues: Vec<Rogue>,
    places: Places,
    keys: KeyPlaces,
}

impl Model for Rogues {
    ghost use Rattle.std.specs.Prelude.{List};
    ghost use Rattle.world_rules.specs.World.{Rogue as Stranger};
    ghost use Rattle.world_scene.specs.Places.{FindsEach};

    ghost Value = { List Stranger };

    ghost view = { λ r. r.rogues.items };

    ghost invariant = { λ r. FindsEach r.places (λ (rogue : Stranger). rogue.name) r.rogues.items };
}

// Whether the rogue has the name.
fn is_named(rogue: &Rogue, name: &[u8]) -> bool
    ensures { result ≡ is_named_rogue name.now rogue.now }
{
    rogue.name() == name
}

impl Rogues {
    // No stranger. It takes no memory.
    pub(crate) fn new(alloc: Global) -> Rogues
        ensures { result ≡ [] }
    {
        Rogues {
            rogues: Vec::new(alloc),
            places: Places::new(alloc),
            keys: KeyPlaces::new(alloc),
        }
    }

    // The rogue with the name, lent.
    pub(crate) fn named(&self, name: &[u8]) -> Option<&Rogue>
        ensures { option_copied result ≡ find (is_named_rogue name.now) self.now }
    {
        let n = self.places.place_of(name)?;
        let rogue = self.rogues.get(n)?;
        if is_named(rogue, name) {
            Some(rogue)
        } else {
            None
        }
    }

    // The owner that the rogue with the name is.
    pub(crate) fn owner_named(&self, name: &[u8]) -> Result<Option<Owner>, NoMemory>
        ensures { IfOk result (λ owner. owner ≡ option_map owner_of_rogue (find (is_named_rogue name.now) self.now)) }
    {
        match self.named(name) {
            Some(rogue) => Ok(Some(rogue.owner()?)),
            None => Ok(None),
        }
    }

    // Whether one of them has the account.
    pub(crate) fn has_account(&self, account: u64) -> bool
        ensures { result ≡ list_any (is_rogue_with account) self.now }
    {
        self.rogues.iter().any(|rogue| rogue.account() == account)
    }

    // The place of an identity's key, which all strangers with its types and seed share.
    pub(crate) fn key_place(&mut self, who: &WalletIdentity) -> Result<KeyPlace, NoMemory>
        ensures { self.new ≡ self.old }
    {
        self.keys.place_of(who)
    }

    // One more rogue, whose name is new. `NoMemory` changes nothing.
    pub(crate) fn push(&mut self, rogue: Rogue) -> Result<(), NoMemory>
        requires { find (is_named_rogue rogue.name) self.old ≡ None }
        ensures ok { OnOk result (self.new ≡ self.old ++ rogue ∷ []) }
        ensures err { OnErr result (self.new ≡ self.old) }
    {
        self.rogues.reserve(1)?;
        let alloc = *self.rogues.allocator();
        self.places.put(alloc, rogue.name(), self.rogues.len())?;
        self.rogues.push(rogue).unwrap();
        Ok(())
    }
}
