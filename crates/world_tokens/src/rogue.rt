ghost use Rattle.std.specs.Prelude.{◌≡◌, ◌<◌, ◌++◌, true, IfOk, IfSome};
ghost use Rattle.lms_sign.specs.Types.{is_supported, leaf_count};
ghost use Rattle.lms_sign.specs.Tree.{signature_of};
ghost use Rattle.plasma_tx.specs.Spelling.{body_text};
ghost use Rattle.node_rules.specs.WalletRecords.{secret_of};
ghost use Rattle.world_rules.specs.World.{owner_of_rogue};

use super::keys::{KeyPlace, MadeKey};
use lms_sign::{LmsTypes, SecretKey, sign};
use node_rules::WalletIdentity;
use plasma_base::{Bytes, NoMemory};
use plasma_tx::{Body, Owner};
use std::alloc::Global;
use std::marker::Model;

// The body and its signature by this leaf of the key.
fn signed(alloc: Global, key: &SecretKey, leaf: u32, body: &Body) -> Result<Bytes, NoMemory>
    requires { leaf < leaf_count key.now.types }
    ensures { IfOk result (λ bytes. bytes
        ≡ body_text body.now ++ signature_of key.now leaf (body_text body.now)) }
{
    let message = body.write();
    let mut signature = vec![in alloc; 0u8; key.signature_len()]?;
    sign(key, leaf, message.as_slice(), &mut signature);
    let mut bytes = Vec::from_slice(alloc, message.as_slice())?;
    bytes.extend_from_slice(&signature)?;
    Ok(Bytes::from_vec(bytes))
}

/// A stranger's account and key, which a schedule gives a name. Contracts see it as the rogue of a world. The key is
/// the one that a wallet with this identity would have. It is made when a call first needs it, all nodes of its tree,
/// and is kept at its place, which rogues of one seed share.
#[derive(Drop)]
pub struct Rogue {
    alloc: Global,
    name: Bytes,
    account: u64,
    seed: [u8; 32],
    types: LmsTypes,
    place: KeyPlace,
}

impl Model for Rogue {
    ghost use Rattle.std.specs.Prelude.{◌≡◌, true};
    ghost use Rattle.lms_sign.specs.Types.{is_supported};
    ghost use Rattle.world_rules.specs.World.{Rogue as Stranger};
    ghost use Rattle.world_tokens.specs.Tokens.{secret_by};

    ghost Value = { Stranger };

    ghost view = { λ r. record { name = r.name; account = r.account; secret = secret_by r.types r.seed } };

    ghost invariant = { λ r. is_supported r.types ≡ true };
}

impl Rogue {
    /// Declares a rogue, whose key is kept at this place. The types of the identity have to be supported. It takes no
    /// memory.
    pub fn new(alloc: Global, name: Bytes, who: &WalletIdentity, place: KeyPlace) -> Rogue
        requires { is_supported who.now.types ≡ true }
        ensures { result ≡ record { name = name; account = who.now.account; secret = secret_of who.now } }
    {
        Rogue {
            alloc,
            name,
            account: who.account,
            seed: who.seed,
            types: who.types,
            place,
        }
    }

    /// The name, lent.
    pub fn name(&self) -> &[u8]
        ensures { result.now ≡ self.now.name }
    {
        self.name.as_slice()
    }

    /// The account.
    pub fn account(&self) -> u64
        ensures { result ≡ self.now.account }
    {
        self.account
    }

    /// The owner that it is: its account and its public key. Want of memory is its one refusal.
    pub fn owner(&self) -> Result<Owner, NoMemory>
        ensures { IfOk result (λ owner. owner ≡ owner_of_rogue self.now) }
    {
        let key = match self.kept()? {
            Some(key) => key.public(),
            None => self.make()?.key().public(),
        };
        Ok(Owner {
            account: self.account(),
            key,
        })
    }

    /// The number of leaves of its key, each of which can sign. Want of memory is its one refusal.
    pub fn leaves(&self) -> Result<u32, NoMemory>
        ensures { IfOk result (λ leaves. leaves ≡ leaf_count self.now.secret.types) }
    {
        match self.kept()? {
            Some(key) => Ok(key.leaves()),
            None => Ok(self.make()?.key().leaves()),
        }
    }

    /// The body and its signature by this leaf, which has to be one of the key's. It keeps no count of the leaves that
    /// have signed, so a rogue may sign two bodies with one leaf. Want of memory is its one refusal.
    pub fn sign(&self, alloc: Global, leaf: u32, body: &Body) -> Result<Bytes, NoMemory>
        requires { leaf < leaf_count self.now.secret.types }
        ensures { IfOk result (λ bytes. bytes
            ≡ body_text body.now ++ signature_of self.now.secret leaf (body_text body.now)) }
    {
        match self.kept()? {
            Some(key) => signed(alloc, key, leaf, body),
            None => signed(alloc, self.make()?.key(), leaf, body),
        }
    }

    // An identity with its key. A key doesn't depend on a chain, so it has no tag.
    fn identity(&self) -> WalletIdentity
        ensures secret { secret_of result ≡ self.now.secret }
        ensures types { is_supported result.types ≡ true }
    {
        WalletIdentity {
            tag: [0; 32],
            account: self.account,
            seed: self.seed,
            types: self.types,
        }
    }

    // The key, made anew.
    fn make(&self) -> Result<MadeKey, NoMemory>
        ensures { IfOk result (λ made. secret_of made ≡ self.now.secret) }
    {
        MadeKey::make(self.alloc, &self.identity())
    }

    // The key that is kept, lent, unless that of another identity is. The first call makes it.
    fn kept(&self) -> Result<Option<&SecretKey>, NoMemory>
        ensures { IfOk result (λ found. IfSome found (λ key. key.now ≡ self.now.secret)) }
    {
        self.place.key_of(self.alloc, &self.identity())
    }
}
