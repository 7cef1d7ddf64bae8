ghost use Rattle.std.specs.Prelude.{◌≡◌, ◌<◌, ◌++◌, ◌∷◌, [], None, Some, length, slice_get, vec_len, vec_capacity, IfSome, OnOk, OnErr};
ghost use Rattle.std.specs.List.{list_any, position};
ghost use Rattle.world_scene.specs.Names.{is_named_view, is_same_account};
ghost use Rattle.world_scene.specs.Indexed.{all_declared, wallet_accounts};
ghost use Rattle.world_nodes.specs.Nodes.{declared_as};
ghost use Rattle.world_scene.specs.declared.names.Roles.{Roles};

use super::names::{Roles, is_named};
use super::places::Places;
use super::seeking::is_wallet;
use plasma_base::{Hash32, NoMemory};
use std::alloc::Global;
use std::marker::Model;
use world_nodes::Entry;

/// The nodes of a world, in the order of their declarations, each with a name of its own. A node is found by its name,
/// and a wallet's account is known, without going through all of them. Contracts see the nodes.
#[derive(Drop)]
pub(crate) struct Nodes<H: Hash32 + Copy> {
    pub(crate) entries: Vec<Entry<H>>,
    pub(crate) places: Places,
    // In the order of the wallets.
    pub(crate) wallet_accounts: Vec<u64>,
}

impl<H: Hash32 + Copy> Model for Nodes<H> {
    ghost use Rattle.std.specs.Prelude.{List};
    ghost use Rattle.world_nodes.specs.Nodes.{NodeView};
    ghost use Rattle.world_scene.specs.Indexed.{all_declared, IsIndexed};

    ghost Value = { List (NodeView H) };

    ghost view = { λ n. n.entries.items };

    ghost invariant = { λ n. IsIndexed n.places n.wallet_accounts.items (all_declared n.entries.items) };
}

// Whether the account is among these.
pub(crate) fn is_in(accounts: &[u64], account: u64) -> bool
    ensures { result ≡ list_any (is_same_account account) accounts.now }
{
    accounts.iter().any(|other| *other == account)
}

impl<H: Hash32 + Copy> Nodes<H> {
    // No node. It takes no memory.
    pub(crate) fn new(alloc: Global) -> Nodes<H>
        ensures { result ≡ [] }
    {
        Nodes {
            entries: Vec::new(alloc),
            places: Places::new(alloc),
            wallet_accounts: Vec::new(alloc),
        }
    }

    // How many there are.
    pub(crate) fn len(&self) -> usize
        ensures { result ≡ length self.now }
    {
        self.entries.len()
    }

    // All of them, lent.
    pub(crate) fn as_slice(&self) -> &[Entry<H>]
        ensures { result.now ≡ self.now }
    {
        &self.entries
    }

    // The node with this number, lent.
    pub(crate) fn at(&self, n: usize) -> &Entry<H>
        requires { n < length self.now }
        ensures { slice_get self.now n ≡ Some result.now }
    {
        &self.entries[n]
    }

    // The number of the node with the name, where its role passes.
    pub(crate) fn place_of(&self, may: Roles, name: &[u8]) -> Option<usize>
        ensures place { result ≡ position (is_named_view may name.now) self.now }
        ensures within { IfSome result (λ n. n < length self.now) }
    {
        let n = self.places.place_of(name)?;
        let entry = self.entries.get(n)?;
        if is_named(entry, may, name) {
            Some(n)
        } else {
            None
        }
    }

    // How many of them are wallets.
    pub(crate) fn count_wallets(&self) -> usize
        ensures { result ≡ length (wallet_accounts (all_declared self.now)) }
    {
        self.wallet_accounts.len()
    }

    // Whether the account is a wallet's.
    pub(crate) fn is_wallet_account(&self, account: u64) -> bool
        ensures { result ≡ list_any (is_same_account account) (wallet_accounts (all_declared self.now)) }
    {
        is_in(&self.wallet_accounts, account)
    }

    // One more node, whose name is new. `NoMemory` changes nothing.
    pub(crate) fn push(&mut self, entry: Entry<H>) -> Result<(), NoMemory>
        requires { position (is_named_view Roles.Any entry.node.name) self.old ≡ None }
        ensures ok { OnOk result (self.new ≡ self.old ++ entry ∷ []) }
        ensures err { OnErr result (self.new ≡ self.old) }
    {
        self.entries.reserve(1)?;
        self.wallet_accounts.reserve(1)?;
        let alloc = *self.entries.allocator();
        self.places.put(alloc, entry.name(), self.entries.len())?;
        push_account(&mut self.wallet_accounts, &entry);
        self.entries.push(entry).unwrap();
        Ok(())
    }
}

// Puts the account of a node at the end, where it is a wallet. There has to be room.
fn push_account<H: Hash32 + Copy>(accounts: &mut Vec<u64>, entry: &Entry<H>)
    requires { vec_len accounts.old < vec_capacity accounts.old }
    ensures { accounts.new.items ≡ accounts.old.items ++ wallet_accounts (declared_as entry.now.node ∷ []) }
{
    if is_wallet(entry) {
        accounts.push(entry.account()).unwrap();
    }
}
