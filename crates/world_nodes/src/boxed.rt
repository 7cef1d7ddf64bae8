ghost use Rattle.std.specs.Prelude.{◌≡◌, IfOk};
ghost use Rattle.world_nodes.specs.declared.entry.Site.{Site};
ghost use Rattle.world_nodes.specs.Inside.{is_up};
ghost use Rattle.world_nodes.specs.Boxed.{IsWholeSite, site_in};

use super::down::DownNode;
use super::entry::{Member, Site};
use super::up::UpNode;
use crash_disk::MemDisk;
use operator_core::Operator;
use plasma_base::{Hash32, NoMemory};
use std::alloc::Global;
use std::marker::Model;
use std::mem;
use wallet_node::WalletNode;
use watcher_node::WatcherNode;

/// A node in memory of its own, which is as large as its role's: one of many watchers takes no room for a wallet.
#[derive(Drop)]
pub enum Held<H: Hash32 + Copy> {
    Wallet(Box<WalletNode<MemDisk, H>>),
    Watcher(Box<WatcherNode<MemDisk, H>>),
    Operator(Box<Operator<MemDisk, H>>),
    DownWatcher(Box<MemDisk>),
    Down(Box<DownNode>),
    Gone,
}

/// Where a node is, as it is held. Contracts see the site.
#[derive(Drop)]
pub struct BoxedSite<H: Hash32 + Copy> {
    held: Held<H>,
}

impl<H: Hash32 + Copy> Model for BoxedSite<H> {
    ghost use Rattle.world_nodes.specs.declared.entry.Site.{Site};
    ghost use Rattle.world_nodes.specs.Boxed.{site_in};

    ghost Value = { Site H };

    ghost view = { λ s. site_in s.held };
}

// The site that is held.
fn site_of<H: Hash32 + Copy>(held: Held<H>) -> Site<H>
    ensures { result ≡ site_in held }
{
    match held {
        Held::Wallet(node) => Site::Up(UpNode::Wallet(Box::into_inner(node))),
        Held::Watcher(node) => Site::Up(UpNode::Watcher(Box::into_inner(node))),
        Held::Operator(node) => Site::Up(UpNode::Operator(Box::into_inner(node))),
        Held::DownWatcher(notes) => Site::Down(DownNode::Watcher {
            notes: Box::into_inner(notes),
        }),
        Held::Down(down) => Site::Down(Box::into_inner(down)),
        Held::Gone => Site::Gone,
    }
}

impl<H: Hash32 + Copy> BoxedSite<H> {
    /// Holds a node that is up.
    pub fn up(alloc: Global, node: UpNode<H>) -> Result<BoxedSite<H>, NoMemory>
        ensures { IfOk result (λ site. site ≡ Site.Up node) }
    {
        let held = node.hold(alloc)?;
        Ok(BoxedSite { held })
    }

    /// Holds a node that is down.
    pub fn down(alloc: Global, down: DownNode) -> Result<BoxedSite<H>, NoMemory>
        ensures { IfOk result (λ site. site ≡ Site.Down down) }
    {
        let held = down.hold(alloc)?;
        Ok(BoxedSite { held })
    }

    /// Takes the node out, and leaves it lost.
    pub fn take(&mut self) -> Site<H>
        ensures taken { result ≡ self.old }
        ensures gone { self.new ≡ Site.Gone }
    {
        site_of(mem::replace(&mut self.held, Held::Gone))
    }

    /// Whether the node is up.
    pub fn is_up(&self) -> bool
        ensures { result ≡ is_up self.now }
    {
        match &self.held {
            Held::Wallet(_) | Held::Watcher(_) | Held::Operator(_) => true,
            _ => false,
        }
    }

    /// What holds of every node that is up: its records are of its role. It does nothing.
    pub fn is_whole(&self)
        ensures { IsWholeSite H.digest_of self.now }
    {
        match &self.held {
            Held::Wallet(node) => node.is_whole(),
            Held::Watcher(node) => node.is_whole(),
            Held::Operator(node) => node.is_whole(),
            _ => {}
        }
    }
}

/// Who a node is, in a few bytes: a wallet's identity is in memory of its own. Contracts see the member.
#[derive(Drop)]
pub enum HeldMember {
    Wallet(Box<Member>),
    Watcher,
    Operator,
}

/// Who a node is, as it is held. Contracts see the member.
#[derive(Drop)]
pub struct BoxedMember {
    held: HeldMember,
}

impl Model for BoxedMember {
    ghost use Rattle.world_nodes.specs.declared.entry.Member.{Member};
    ghost use Rattle.world_nodes.specs.Boxed.{member_in};

    ghost Value = { Member };

    ghost view = { λ m. member_in m.held };
}

impl BoxedMember {
    /// Holds a member.
    pub fn new(alloc: Global, member: Member) -> Result<BoxedMember, NoMemory>
        ensures { IfOk result (λ held. held ≡ member) }
    {
        let held = match member {
            Member::Wallet { .. } => HeldMember::Wallet(Box::new(alloc, member)?),
            Member::Watcher => HeldMember::Watcher,
            Member::Operator => HeldMember::Operator,
        };
        Ok(BoxedMember { held })
    }

    /// The member.
    pub fn get(&self) -> Member
        ensures { result ≡ self.now }
    {
        match &self.held {
            HeldMember::Wallet(member) => **member,
            HeldMember::Watcher => Member::Watcher,
            HeldMember::Operator => Member::Operator,
        }
    }
}
