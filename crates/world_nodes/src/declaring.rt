ghost use Rattle.std.specs.Prelude.{◌≡◌, ◌<◌, ◌^◌, ◌∷◌, [], length, true, Some, None, codes, option_map, IfOk};
ghost use Rattle.lms_sign.specs.Types.{is_supported};
ghost use Rattle.node_rules.specs.WalletRecords.{identity_text, secret_of, who_is};
ghost use Rattle.node_rules.specs.Watcher.{identity_text as watcher_text};
ghost use Rattle.operator_rules.specs.Records.{identity_text as operator_text};
ghost use Rattle.world_rules.specs.Steps.{new_node};
ghost use Rattle.world_nodes.specs.declared.order.NodeKind.{NodeKind};
ghost use Rattle.world_nodes.specs.Nodes.{new_wallet, new_watcher, new_operator, role_of, begun_alone, begun_beside_leaves, begun_leaves, with_opening, DiskBegan, DisksBegan, Spells};
ghost use Rattle.world_nodes.specs.Inside.{empty_disk, down_halves, down_kind, member_kind, notes_told, leaves_told, first_note, AreBegun, IsDeclared, IsIdentityOf, IsOf, NoFuses};

use super::boxed::{BoxedMember, BoxedSite};
use super::down::DownNode;
use super::entry::{Entry, Member};
use super::order::NodeKind;
use crash_disk::MemDisk;
use gate_journal::InitRefusal;
use node_rules::WalletIdentity;
use operator_core::Operator;
use plasma_base::{Bytes, Hash32, NoMemory};
use plasma_tx::Owner;
use std::alloc::Global;
use wallet_node::{WalletKey, WalletNode};
use watcher_node::WatcherNode;

// The one cause for which an empty disk isn't begun.
fn no_memory(why: InitRefusal) -> NoMemory
    requires { why ≡ InitRefusal.NoMemory }
{
    match why {
        InitRefusal::NoMemory => NoMemory,
        _ => unreachable!(),
    }
}

// A disk in memory that holds nothing.
fn empty_disk(alloc: Global) -> MemDisk
    ensures { result ≡ empty_disk }
{
    MemDisk::make(alloc, Vec::new(alloc), Vec::new(alloc))
}

// An entry over disks that were begun with its identity.
fn over<H: Hash32 + Copy>(
    alloc: Global,
    hash: H,
    name: Bytes,
    account: u64,
    member: Member,
    down: DownNode,
) -> Result<Entry<H>, NoMemory>
    requires { IsDeclared member down }
    ensures node { IfOk result (λ entry.
        entry.node ≡ new_node (role_of (member_kind member)) name account (first_note down)) }
    ensures notes_disk { IfOk result (λ entry. entry.notes_disk ≡ with_opening (notes_told down)) }
    ensures leaves_disk { IfOk result (λ entry. entry.leaves_disk ≡ option_map with_opening (leaves_told down)) }
    ensures spells { IfOk result Spells }
    ensures hash { IfOk result (λ entry. entry.hash ≡ hash) }
{
    let member = BoxedMember::new(alloc, member)?;
    let node = down.open_up(alloc, hash)?;
    let site = BoxedSite::up(alloc, node)?;
    Ok(Entry {
        alloc,
        hash,
        name,
        account,
        member,
        site,
        offers: Vec::new(alloc),
    })
}

// The disks of a wallet that begins, and its key.
fn begin_wallet(alloc: Global, who: &WalletIdentity, key: WalletKey) -> Result<DownNode, NoMemory>
    requires { is_supported who.now.types ≡ true }
    ensures begun { IfOk result (AreBegun (identity_text who.now)) }
    ensures unfused { IfOk result (λ down. NoFuses (down_halves down)) }
    ensures kind { IfOk result (λ down. down_kind down ≡ NodeKind.Wallet) }
    ensures notes_told { IfOk result (λ down. notes_told down ≡ begun_beside_leaves (identity_text who.now)) }
    ensures leaves_told { IfOk result (λ down. leaves_told down ≡ Some begun_leaves) }
{
    match WalletNode::init(alloc, empty_disk(alloc), empty_disk(alloc), who) {
        (notes, leaves, Ok(())) => Ok(DownNode::Wallet { notes, leaves, key }),
        (_, _, Err(why)) => Err(no_memory(why)),
    }
}

// What the types of an identity's parts say of them. It does nothing.
fn are_sized(tag: [u8; 32], account: u64, seed: [u8; 32])
    ensures tag { length tag ≡ 32 }
    ensures account { account < 2 ^ 64 }
    ensures seed { length seed ≡ 32 }
{
    let _ = (tag, account, seed);
}

// Who a wallet is, and its owner.
fn wallet_member(key: &WalletKey, who: WalletIdentity) -> Member
    requires types { is_supported who.types ≡ true }
    requires key { key.now ≡ secret_of who }
    ensures member { member_kind result ≡ NodeKind.Wallet }
    ensures is { IsOf result (identity_text who ∷ []) }
    ensures reads { who_is (identity_text who ∷ []) ≡ who }
    ensures role { IsIdentityOf NodeKind.Wallet (identity_text who) }
{
    are_sized(who.tag, who.account, who.seed);
    let owner = Owner {
        account: who.account,
        key: key.secret_key().public(),
    };
    Member::Wallet { who, owner }
}

// The disk of a watcher that begins.
fn begin_watcher(alloc: Global, tag: &[u8; 32], account: u64) -> Result<DownNode, NoMemory>
    ensures begun { IfOk result (AreBegun (watcher_text (record { tag = tag.now; account = account }))) }
    ensures unfused { IfOk result (λ down. NoFuses (down_halves down)) }
    ensures kind { IfOk result (λ down. down_kind down ≡ NodeKind.Watcher) }
    ensures notes_told { IfOk result (λ down. notes_told down
        ≡ begun_alone (watcher_text (record { tag = tag.now; account = account }))) }
    ensures leaves_told { IfOk result (λ down. leaves_told down ≡ None) }
    ensures role { IsIdentityOf NodeKind.Watcher (watcher_text (record { tag = tag.now; account = account })) }
{
    are_sized(*tag, account, *tag);
    match WatcherNode::init(alloc, empty_disk(alloc), *tag, account) {
        (notes, Ok(())) => Ok(DownNode::Watcher { notes }),
        (_, Err(why)) => Err(no_memory(why)),
    }
}

// The disk of an operator that begins.
fn begin_operator(alloc: Global, tag: &[u8; 32], account: u64) -> Result<DownNode, NoMemory>
    ensures begun { IfOk result (AreBegun
        (operator_text (record { tag = tag.now; account = account; key_seed = None }))) }
    ensures unfused { IfOk result (λ down. NoFuses (down_halves down)) }
    ensures kind { IfOk result (λ down. down_kind down ≡ NodeKind.Operator) }
    ensures notes_told { IfOk result (λ down. notes_told down
        ≡ begun_alone (operator_text (record { tag = tag.now; account = account; key_seed = None }))) }
    ensures leaves_told { IfOk result (λ down. leaves_told down ≡ None) }
    ensures role { IsIdentityOf NodeKind.Operator
        (operator_text (record { tag = tag.now; account = account; key_seed = None })) }
{
    are_sized(*tag, account, *tag);
    match Operator::init(alloc, empty_disk(alloc), *tag, account) {
        (notes, Ok(())) => Ok(DownNode::Operator { notes }),
        (_, Err(why)) => Err(no_memory(why)),
    }
}

// The operator's name.
fn operator_name(alloc: Global) -> Result<Bytes, NoMemory>
    ensures { IfOk result (λ name. name ≡ codes "op") }
{
    Ok(Bytes::from_vec(vec![in alloc; b'o', b'p']?))
}

impl<H: Hash32 + Copy> Entry<H> {
    /// A wallet with this name that is declared: it is up, over two disks on which it was begun, under a
    /// digest. Its key is made here, once. Its types have to be supported.
    pub fn wallet(
        alloc: Global,
        hash: H,
        name: Bytes,
        who: &WalletIdentity,
    ) -> Result<Entry<H>, NoMemory>
        requires { is_supported who.now.types ≡ true }
        ensures node { IfOk result (λ entry. entry.node ≡ new_wallet name who.now) }
        ensures who { IfOk result (λ entry. who_is entry.node.notes ≡ who.now) }
        ensures began { IfOk result (DisksBegan (identity_text who.now)) }
        ensures spells { IfOk result Spells }
        ensures hash { IfOk result (λ entry. entry.hash ≡ hash) }
    {
        let key = WalletKey::make(alloc, who)?;
        let member = wallet_member(&key, *who);
        let down = begin_wallet(alloc, who, key)?;
        over(alloc, hash, name, who.account, member, down)
    }

    /// A watcher with this name and account that is declared, of the chain with this tag: it is up, over a
    /// disk on which it was begun, under a digest.
    pub fn watcher(
        alloc: Global,
        hash: H,
        name: Bytes,
        tag: &[u8; 32],
        account: u64,
    ) -> Result<Entry<H>, NoMemory>
        ensures node { IfOk result (λ entry. entry.node ≡ new_watcher name tag.now account) }
        ensures began { IfOk result (DiskBegan (watcher_text (record { tag = tag.now; account = account }))) }
        ensures spells { IfOk result Spells }
        ensures hash { IfOk result (λ entry. entry.hash ≡ hash) }
    {
        let down = begin_watcher(alloc, tag, account)?;
        over(alloc, hash, name, account, Member::Watcher, down)
    }

    /// The operator with this account of the chain with this tag: it is up, over a disk on which it was begun,
    /// under a digest.
    pub fn operator(
        alloc: Global,
        hash: H,
        tag: &[u8; 32],
        account: u64,
    ) -> Result<Entry<H>, NoMemory>
        ensures node { IfOk result (λ entry. entry.node ≡ new_operator tag.now account) }
        ensures began { IfOk result (DiskBegan
            (operator_text (record { tag = tag.now; account = account; key_seed = None }))) }
        ensures spells { IfOk result Spells }
        ensures hash { IfOk result (λ entry. entry.hash ≡ hash) }
    {
        let name = operator_name(alloc)?;
        let down = begin_operator(alloc, tag, account)?;
        over(alloc, hash, name, account, Member::Operator, down)
    }
}
