ghost use Rattle.std.specs.Prelude.{◌≡◌, ◌∷◌, [], true, false, Some, None, IfOk, OnOk, option_map, if◌then◌else◌, codes, is_some};
ghost use Rattle.crash_disk.specs.Outcomes.{HasPattern};
ghost use Rattle.lms_sign.specs.Types.{is_supported};
ghost use Rattle.node_rules.specs.WalletRecords.{who_is};
ghost use Rattle.world_rules.specs.World.{is_wallet_role, owner_of_node};
ghost use Rattle.world_nodes.specs.declared.entry.Site.{Site};
ghost use Rattle.world_nodes.specs.Nodes.{new_wallet, new_watcher, new_operator, role_of, Spells, IsOfRole};
ghost use Rattle.world_nodes.specs.Inside.{is_up, member_kind, IsDownOf, IsThere};

use super::boxed::{BoxedMember, BoxedSite};
use super::down::DownNode;
use super::order::NodeKind;
use super::up::UpNode;
use node_rules::WalletIdentity;
use plasma_base::{Bytes, Hash32, NoMemory};
use plasma_tx::{Owner, RootCall};
use std::alloc::Global;
use std::marker::Model;

/// Where a node is: up, down with its disks alone, or lost, once memory ran out.
#[derive(Drop)]
pub enum Site<H: Hash32 + Copy> {
    Up(UpNode<H>),
    Down(DownNode),
    Gone,
}

/// Who a node is. A wallet is this owner.
#[derive(Clone, Copy)]
pub enum Member {
    Wallet { who: WalletIdentity, owner: Owner },
    Watcher,
    Operator,
}

/// A node of a world, over disks in memory. It is up or down; a call that answers `NoMemory` may lose it, and
/// then no later call may come: each that needs the disks asks that they spell its records.
pub struct Entry<H: Hash32 + Copy> {
    pub(crate) alloc: Global,
    pub(crate) hash: H,
    pub(crate) name: Bytes,
    pub(crate) account: u64,
    pub(crate) member: BoxedMember,
    pub(crate) site: BoxedSite<H>,
    pub(crate) offers: Vec<RootCall>,
}

impl<H: Hash32 + Copy> Model for Entry<H> {
    ghost use Rattle.world_nodes.specs.Nodes.{NodeView};

    ghost Value = { NodeView H };

    ghost use Rattle.world_nodes.specs.Inside.{view_of, IsEntry};

    ghost view = { λ e. view_of e.hash e.name e.account e.member e.site e.offers.items };

    ghost invariant = { λ e. IsEntry H.digest_of e.hash e.member e.site };
}

// Written by hand, as that of a node that is up.
impl<H: Hash32 + Copy> Drop for Entry<H> {
    fn drop(self) {
        let Entry {
            alloc: _,
            hash: _,
            name: _,
            account: _,
            member: _,
            site: _,
            offers: _,
        } = self;
    }
}

// Takes the node out, and leaves it lost.
pub fn take<H: Hash32 + Copy>(site: &mut BoxedSite<H>) -> Site<H>
    ensures taken { result ≡ site.old }
    ensures gone { site.new ≡ Site.Gone }
{
    site.take()
}

// Puts a node there.
pub fn put<H: Hash32 + Copy>(site: &mut BoxedSite<H>, new: BoxedSite<H>)
    ensures { site.new ≡ new }
{
    *site = new;
}

// Offers these calls.
pub fn put_offers(offers: &mut Vec<RootCall>, new: Vec<RootCall>)
    ensures { offers.new.items ≡ new.items }
{
    *offers = new;
}

// Offers nothing.
pub fn offer_nothing(offers: &mut Vec<RootCall>)
    ensures { offers.new.items ≡ [] }
{
    offers.clear();
}

// A node that is up.
pub fn up_of<H: Hash32 + Copy>(site: Site<H>) -> UpNode<H>
    requires { is_up site ≡ true }
    ensures { site ≡ Site.Up result }
{
    match site {
        Site::Up(node) => node,
        _ => unreachable!(),
    }
}

// A node that is down.
pub fn closed_of<H: Hash32 + Copy>(site: Site<H>) -> DownNode
    requires is_down { is_up site ≡ false }
    requires there { IsThere site }
    ensures { site ≡ Site.Down result }
{
    match site {
        Site::Down(down) => down,
        _ => unreachable!(),
    }
}

// The disks of a node that isn't lost, and a wallet's key.
pub fn down_of<H: Hash32 + Copy>(site: Site<H>) -> DownNode
    requires { IsThere site }
    ensures { IsDownOf site result }
{
    match site {
        Site::Up(node) => node.take_down(),
        Site::Down(down) => down,
        Site::Gone => unreachable!(),
    }
}

impl<H: Hash32 + Copy> Entry<H> {
    // What holds of every node that isn't lost: its records are of its role. It does nothing.
    pub(crate) fn is_of_role(&self)
        requires { Spells self.now }
        ensures { IsOfRole (H.digest_of self.now.hash) self.now.node }
    {
        self.site.is_whole();
    }

    /// The node's name.
    pub fn name(&self) -> &[u8]
        ensures { result.now ≡ self.now.node.name }
    {
        self.name.as_slice()
    }

    /// The node's account.
    pub fn account(&self) -> u64
        ensures { result ≡ self.now.node.account }
    {
        self.account
    }

    /// What the node is.
    pub fn kind(&self) -> NodeKind
        ensures { role_of result ≡ self.now.node.role }
    {
        match self.member.get() {
            Member::Wallet { .. } => NodeKind::Wallet,
            Member::Watcher => NodeKind::Watcher,
            Member::Operator => NodeKind::Operator,
        }
    }

    /// Whether the node is up.
    pub fn is_up(&self) -> bool
        ensures { result ≡ self.now.node.is_up }
    {
        self.site.is_up()
    }

    /// The calls that it offers, in order, lent.
    pub fn offers(&self) -> &[RootCall]
        ensures { result.now ≡ self.now.node.offers }
    {
        &self.offers
    }

    /// The owner that a wallet is; `None` for another node.
    pub fn owner(&self) -> Option<Owner>
        ensures { result ≡ (if is_wallet_role self.now.node.role then Some (owner_of_node self.now.node) else None) }
    {
        match self.member.get() {
            Member::Wallet { owner, .. } => Some(owner),
            _ => None,
        }
    }

    /// The seed of a wallet's key; `None` for another node.
    pub fn seed(&self) -> Option<[u8; 32]>
        ensures { result
            ≡ (if is_wallet_role self.now.node.role then Some (who_is self.now.node.notes).seed else None) }
    {
        match self.member.get() {
            Member::Wallet { who, .. } => Some(who.seed),
            _ => None,
        }
    }
}
