ghost use Rattle.std.specs.Prelude.{◌≡◌, ◌&&◌, find, Some, IfOk, IfSome, is_some};
ghost use Rattle.std.specs.Option.{option_map, option_copied};
ghost use Rattle.line_forms.specs.Tokens.{IsHexOrName};
ghost use Rattle.world_rules.specs.World.{number_of, rogue_named, owner_named, new_owner_of, key_of, is_wallet_role};
ghost use Rattle.world_rules.specs.Declarations.{is_declared, is_used};
ghost use Rattle.world_scene.specs.Scenes.{world_of};
ghost use Rattle.world_scene.specs.Names.{passes, has_kind, is_named_view, owner_in_view};

use super::node_list::Nodes;
use super::scene::Scene;
use line_forms::HexOrName;
use plasma_base::{Hash32, NoMemory};
use plasma_tx::Owner;
use world_nodes::{Entry, NodeKind};
use world_tokens::{Rogue, key_of_hex, owner_of_hex};

/// Which nodes a line may name.
#[derive(Clone, Copy, PartialEq, Eq)]
pub enum Roles {
    /// Any node.
    Any,
    /// A wallet.
    Wallets,
    /// A watcher.
    Watchers,
    /// The operator.
    Operators,
    /// A wallet or a watcher.
    Watching,
}

// Whether this kind of node passes.
fn has_kind(may: Roles, kind: NodeKind) -> bool
    ensures { result ≡ has_kind may kind }
{
    match may {
        Roles::Any => true,
        Roles::Wallets => kind == NodeKind::Wallet,
        Roles::Watchers => kind == NodeKind::Watcher,
        Roles::Operators => kind == NodeKind::Operator,
        Roles::Watching => kind != NodeKind::Operator,
    }
}

// Whether the node has the name, and a role that passes.
pub(crate) fn is_named<H: Hash32 + Copy>(entry: &Entry<H>, may: Roles, name: &[u8]) -> bool
    ensures { result ≡ is_named_view may name.now entry.now }
{
    entry.name() == name && has_kind(may, entry.kind())
}

impl<H: Hash32 + Copy> Nodes<H> {
    // Who the wallet with the name is.
    fn wallet_owner(&self, name: &[u8]) -> Option<Owner>
        ensures { result ≡ option_map owner_in_view (find (is_named_view Roles.Wallets name.now) self.now) }
    {
        match self.place_of(Roles::Wallets, name) {
            Some(n) => self.at(n).owner(),
            None => None,
        }
    }
}

impl<H: Hash32 + Copy> Scene<H> {
    // The number of the node with the name, where its role passes.
    pub(crate) fn number_of(&self, may: Roles, name: &[u8]) -> Option<usize>
        ensures { result ≡ number_of (passes may) (world_of self.now) name.now }
    {
        self.nodes.place_of(may, name)
    }

    // Whether a node with the name is declared, with a role that passes.
    pub(crate) fn is_declared(&self, may: Roles, name: &[u8]) -> bool
        ensures { result ≡ is_declared (passes may) (world_of self.now) name.now }
    {
        self.number_of(may, name).is_some()
    }

    // The rogue with the name, lent.
    pub(crate) fn rogue_named(&self, name: &[u8]) -> Option<&Rogue>
        ensures { option_copied result ≡ rogue_named (world_of self.now) name.now }
    {
        self.rogues.named(name)
    }

    // Whether the name is a node's or a rogue's.
    pub(crate) fn is_used(&self, name: &[u8]) -> bool
        ensures { result ≡ is_used (world_of self.now) name.now }
    {
        self.is_declared(Roles::Any, name) || self.rogue_named(name).is_some()
    }

    // Who the wallet with the name is, where one has it.
    pub(crate) fn wallet_named(&self, name: &[u8]) -> Option<Owner>
        ensures declared { is_some result ≡ is_declared is_wallet_role (world_of self.now) name.now }
        ensures owner { IfSome result (λ owner. owner_named (world_of self.now) name.now ≡ Some owner) }
    {
        self.nodes.wallet_owner(name)
    }

    // The owner that a name stands for: a wallet's, or a rogue's.
    pub(crate) fn owner_named(&self, name: &[u8]) -> Result<Option<Owner>, NoMemory>
        ensures { IfOk result (λ owner. owner ≡ owner_named (world_of self.now) name.now) }
    {
        match self.nodes.wallet_owner(name) {
            Some(owner) => Ok(Some(owner)),
            None => self.rogues.owner_named(name),
        }
    }

    // The owner of a token.
    pub(crate) fn new_owner_of(&self, token: &HexOrName) -> Result<Option<Owner>, NoMemory>
        requires { IsHexOrName 64 token.now }
        ensures { IfOk result (λ owner. owner ≡ new_owner_of (world_of self.now) token.now) }
    {
        match token {
            HexOrName::Hex(bytes) => Ok(Some(owner_of_hex(bytes.as_slice()))),
            HexOrName::Name(name) => self.owner_named(name.as_slice()),
        }
    }

    // The key of a token, where its name is a wallet's or a rogue's.
    pub(crate) fn key_of(&self, token: &HexOrName) -> Result<Option<[u8; 56]>, NoMemory>
        requires { IsHexOrName 56 token.now }
        ensures { IfOk result (λ key. key ≡ key_of (world_of self.now) token.now) }
    {
        match token {
            HexOrName::Hex(bytes) => Ok(Some(key_of_hex(bytes.as_slice()))),
            HexOrName::Name(name) => match self.owner_named(name.as_slice())? {
                Some(owner) => Ok(Some(owner.key)),
                None => Ok(None),
            },
        }
    }
}
