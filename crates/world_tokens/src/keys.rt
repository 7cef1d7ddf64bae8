ghost use Rattle.std.specs.Prelude.{◌≡◌, true, IfOk, IfSome};
ghost use Rattle.lms_sign.specs.Types.{is_supported};
ghost use Rattle.node_rules.specs.WalletRecords.{secret_of};

use lms_sign::SecretKey;
use node_rules::WalletIdentity;
use plasma_base::{Hash32, NoMemory, Sha};
use std::alloc::Global;
use std::cell::OnceCell;
use std::collections::BTreeMap;
use std::marker::Model;
use std::rc::Rc;

// A key with its whole tree. Contracts see it as the identity that it was made of.
#[derive(Drop)]
pub(crate) struct MadeKey {
    who: WalletIdentity,
    key: SecretKey,
}

impl Model for MadeKey {
    ghost use Rattle.std.specs.Prelude.{◌≡◌};
    ghost use Rattle.node_rules.specs.declared.identity.WalletIdentity.{WalletIdentity};
    ghost use Rattle.node_rules.specs.WalletRecords.{secret_of};

    ghost Value = { WalletIdentity };

    ghost view = { λ m. m.who };

    ghost invariant = { λ m. m.key ≡ secret_of m.who };
}

impl MadeKey {
    // Makes the key of an identity. Its identifier is the first 16 bytes of the seed's SHA-256.
    pub(crate) fn make(alloc: Global, who: &WalletIdentity) -> Result<MadeKey, NoMemory>
        requires { is_supported who.now.types ≡ true }
        ensures { IfOk result (λ made. made ≡ who.now) }
    {
        let digest = Sha.digest(&who.seed);
        let mut id = [0; 16];
        id.copy_from_slice(&digest[..16]);
        Ok(MadeKey {
            who: *who,
            key: SecretKey::make(alloc, who.types, id, who.seed)?,
        })
    }

    // The key, lent.
    pub(crate) fn key(&self) -> &SecretKey
        ensures { result.now ≡ secret_of self.now }
    {
        &self.key
    }

    // The key, lent, where it is this identity's too.
    fn key_of(&self, who: &WalletIdentity) -> Option<&SecretKey>
        ensures { IfSome result (λ key. key.now ≡ secret_of who.now) }
    {
        if self.who.types == who.types && self.who.seed == who.seed {
            Some(&self.key)
        } else {
            None
        }
    }
}

/// The place of a key, which all share that have its types and its seed: empty until one of them needs the key.
#[derive(Drop)]
pub struct KeyPlace {
    made: Rc<OnceCell<Box<MadeKey>>>,
}

impl KeyPlace {
    // An empty place.
    fn new(alloc: Global) -> Result<KeyPlace, NoMemory> {
        Ok(KeyPlace {
            made: Rc::new(alloc, OnceCell::new())?,
        })
    }

    // The same place once more.
    fn share(&self) -> Result<KeyPlace, NoMemory> {
        Ok(KeyPlace {
            made: self.made.clone()?,
        })
    }

    // The key of an identity, lent. The first call makes it. No clause knows what a cell has, so there may be none, or
    // one of another identity; whoever asks then makes the key anew.
    pub(crate) fn key_of(
        &self,
        alloc: Global,
        who: &WalletIdentity,
    ) -> Result<Option<&SecretKey>, NoMemory>
        requires { is_supported who.now.types ≡ true }
        ensures { IfOk result (λ found. IfSome found (λ key. key.now ≡ secret_of who.now)) }
    {
        if self.made.get().is_none() {
            let made = MadeKey::make(alloc, who)?;
            let _ = self.made.set(Box::new(alloc, made)?);
        }
        match self.made.get() {
            Some(made) => Ok(made.key_of(who)),
            None => Ok(None),
        }
    }
}

// What a key is made of.
#[derive(Clone, Copy, PartialEq, Eq, PartialOrd, Ord)]
struct KeySource {
    seed: [u8; 32],
    lms: u32,
    ots: u32,
}

/// The places of keys, one for each pair of types and each seed, in an order that no choice of seeds makes slow. No
/// contract speaks of which place an identity has: of a place whose key isn't the identity's the key is made anew.
#[derive(Drop)]
pub struct KeyPlaces {
    alloc: Global,
    places: BTreeMap<KeySource, KeyPlace>,
}

impl KeyPlaces {
    /// No place. It takes no memory.
    pub fn new(alloc: Global) -> KeyPlaces {
        KeyPlaces {
            alloc,
            places: BTreeMap::new(alloc),
        }
    }

    /// The place of an identity's key. Want of memory is its one refusal.
    pub fn place_of(&mut self, who: &WalletIdentity) -> Result<KeyPlace, NoMemory> {
        let source = KeySource {
            seed: who.seed,
            lms: who.types.lms,
            ots: who.types.ots,
        };
        if let Some(place) = self.places.get(&source) {
            return place.share();
        }
        let place = KeyPlace::new(self.alloc)?;
        self.places.insert(source, place.share()?)?;
        Ok(place)
    }
}
