ghost use Rattle.std.specs.Prelude.{◌≡◌, true, false, IfOk, IfErr};
ghost use Rattle.sha2.specs.Sha256.{sha256};
ghost use Rattle.lms_sign.specs.Types.{is_supported};
ghost use Rattle.lms_sign.specs.Tree.{public_key_of};
ghost use Rattle.node_journal.specs.Role.{are_of};
ghost use Rattle.leaf_journal.specs.Records.{MessagesPass};
ghost use Rattle.node_rules.specs.WalletRecords.{who_is, secret_of, wallet_kinds, is_body, leaves_in, notes_of, are_bound_notes};
ghost use Rattle.node_rules.specs.WalletOpening.{are_bound};
ghost use Rattle.wallet_node.specs.State.{notes_part, leaves_part};
ghost use Rattle.wallet_node.specs.Opening.{OpensLeaves, OpensWallet, IsUnbound, RefusesBehind, RefusesWallet};
ghost use Rattle.wallet_node.specs.Inside.{memory_in};

use super::key::WalletKey;
use super::memory::Memory;
use super::node::WalletNode;
use super::reading::{read_bodies, read_memory};
use super::records::identity_in;
use super::role::{TransferBody, WalletRole};
use crash_disk::Disk;
use gate_journal::{JournalRefusal, Returned};
use leaf_journal::Leaves;
use node_journal::Notes;
use node_rules::WalletIdentity;
use plasma_base::{Bytes, Hash32, NoMemory, Sha};
use plasma_tx::Owner;
use std::alloc::Global;
use wallet_core::LeafRecord;

/// The two disks of a wallet that wasn't opened, and why.
#[derive(Drop)]
pub struct ReturnedBoth<D> {
    pub notes: D,
    pub leaves: D,
    pub why: JournalRefusal,
}

// The identity of a wallet's notes.
fn identity_of<H: Hash32>(h: &H, records: &[Bytes]) -> WalletIdentity
    requires { are_of (wallet_kinds (H.digest_of h.now)) records.now ≡ true }
    ensures value { result ≡ who_is records.now }
    ensures types { is_supported result.types ≡ true }
{
    let _ = h;
    let Some(first) = records.first() else {
        unreachable!();
    };
    let Some(who) = identity_in(first.as_slice()) else {
        unreachable!();
    };
    who
}

// The key of a wallet: the one that is at hand, where it is the wallet's own, or one that is made.
fn key_of(
    alloc: Global,
    who: &WalletIdentity,
    hint: Option<WalletKey>,
) -> Result<WalletKey, NoMemory>
    requires { is_supported who.now.types ≡ true }
    ensures { IfOk result (λ key. key ≡ secret_of who.now) }
{
    if let Some(key) = hint
        && key.is_of(who)
    {
        return Ok(key);
    }
    WalletKey::make(alloc, who)
}

// What a wallet keeps in memory of two journals.
fn kept_by<D: Disk, H: Hash32>(
    alloc: Global,
    h: &H,
    who: &WalletIdentity,
    public: [u8; 56],
    records: &[Bytes],
    leaves: &Leaves<D>,
) -> Result<(Memory, Vec<LeafRecord>), JournalRefusal>
    requires role { are_of (wallet_kinds (H.digest_of h.now)) records.now ≡ true }
    requires who { who.now ≡ who_is records.now }
    requires public { public ≡ public_key_of (secret_of who.now) }
    requires pass { MessagesPass is_body leaves.now.notes.records }
    ensures memory { IfOk result (λ kept. kept.0 ≡ memory_in (H.digest_of h.now) records.now) }
    ensures bodies { IfOk result (λ kept. kept.1.items ≡ leaves_in leaves.now.notes.records) }
    ensures bound { IfOk result (λ kept.
        are_bound_notes (leaves_in leaves.now.notes.records) (notes_of (H.digest_of h.now) records.now) ≡ true) }
    ensures refused { IfErr result
        (IsUnbound (H.digest_of h.now) (leaves_in leaves.now.notes.records) records.now) }
{
    let bodies = read_bodies(alloc, leaves)?;
    let account = who.account;
    let me = Owner {
        account,
        key: public,
    };
    let memory = read_memory(alloc, h, me, &who.tag, &bodies, records)?;
    Ok((memory, bodies))
}

// A wallet over two journals that were opened, where they fit each other.
fn over<D: Disk, H: Hash32 + Copy>(
    alloc: Global,
    who: WalletIdentity,
    key: WalletKey,
    notes: Notes<D, WalletRole<H>>,
    leaves: Leaves<D>,
    hash: H,
) -> Result<WalletNode<D, H>, ReturnedBoth<D>>
    requires role { notes.role ≡ record { hash = hash } }
    requires who { who ≡ who_is notes.notes.records }
    requires key { key ≡ secret_of who }
    requires public { leaves.key ≡ public_key_of key }
    requires pass { MessagesPass is_body leaves.notes.records }
    requires open { notes.notes.closed ≡ false }
    requires open_leaves { leaves.notes.closed ≡ false }
    ensures opened { IfOk result (λ node. node ≡ record {
      notes_disk = notes.notes.disk;
      leaves_disk = leaves.notes.disk;
      closed = false;
      records = record { notes = notes.notes.records; leaves = leaves.notes.records };
      hash = hash;
    }) }
    ensures bound { IfOk result (λ node. are_bound (H.digest_of hash) node.records ≡ true) }
    ensures refused { IfErr result (λ returned.
        IsUnbound (H.digest_of hash) (leaves_in leaves.notes.records) notes.notes.records returned.why) }
    ensures disk { IfErr result (λ returned. returned.notes ≡ notes.notes.disk) }
    ensures leaves_disk { IfErr result (λ returned. returned.leaves ≡ leaves.notes.disk) }
{
    notes.is_whole();
    let public = key.secret_key().public();
    match kept_by(alloc, &hash, &who, public, notes.records(), &leaves) {
        Ok(kept) => {
            let (memory, bodies) = kept;
            Ok(WalletNode {
                alloc,
                hash,
                who,
                key,
                notes,
                leaves,
                memory,
                bodies,
            })
        }
        Err(why) => Err(ReturnedBoth {
            notes: notes.take_disk(),
            leaves: leaves.take_disk(),
            why,
        }),
    }
}

// Opens the leaves behind notes that were opened.
fn open_behind<D: Disk, H: Hash32 + Copy>(
    alloc: Global,
    notes: Notes<D, WalletRole<H>>,
    leaves: D,
    h: H,
    hint: Option<WalletKey>,
) -> Result<WalletNode<D, H>, ReturnedBoth<D>>
    requires role { notes.role ≡ record { hash = h } }
    requires open { notes.notes.closed ≡ false }
    ensures notes { IfOk result (λ node. notes_part node ≡ notes.notes) }
    ensures opened { IfOk result (λ node.
        OpensLeaves D.told D.plan D.faults (H.digest_of h) notes.notes leaves (leaves_part node)) }
    ensures bound { IfOk result (λ node. are_bound (H.digest_of h) node.records ≡ true) }
    ensures hash { IfOk result (λ node. node.hash ≡ h) }
    ensures refused { IfErr result (λ returned. RefusesBehind D.told D.plan D.faults (H.digest_of h)
        notes.notes leaves returned.why returned.notes returned.leaves) }
{
    notes.is_whole();
    let who = identity_of(&h, notes.records());
    let key = match key_of(alloc, &who, hint) {
        Ok(key) => key,
        Err(_) => {
            return Err(ReturnedBoth {
                notes: notes.take_disk(),
                leaves,
                why: JournalRefusal::NoMemory,
            });
        }
    };
    match Leaves::open_of::<TransferBody>(alloc, leaves, key.secret_key()) {
        Ok(leaves) => over(alloc, who, key, notes, leaves, h),
        Err(returned) => {
            let Returned { disk, why } = returned;
            Err(ReturnedBoth {
                notes: notes.take_disk(),
                leaves: disk,
                why,
            })
        }
    }
}

impl<D: Disk, H: Hash32 + Copy> WalletNode<D, H> {
    /// Opens the wallet of two disks under a digest: first its notes, then its leaves. From then on each image
    /// that a crash may leave keeps its records. Device calls: those of `Journal::open` on each disk.
    ///
    /// `NotJournal` comes where the notes' image spells no records of a wallet, with the place of the gate of
    /// the first one that isn't; without any record it is place 4. Else where the leaves' image isn't that of
    /// leaves of the wallet's key that bind bodies, as `Leaves::open_of` says. Else where a note takes a leaf
    /// back that doesn't bind a body with a last block, of the note's coin and tip, with the place of the gate
    /// of the first such note. A refusal hands the disks back; where the notes are refused no call is made on
    /// the leaves' disk.
    pub fn open_with(
        alloc: Global,
        notes: D,
        leaves: D,
        h: H,
    ) -> Result<WalletNode<D, H>, ReturnedBoth<D>>
        ensures opened { IfOk result (λ opened.
            OpensWallet D.told D.plan D.faults (H.digest_of h) notes leaves opened) }
        ensures hash { IfOk result (λ opened. opened.hash ≡ h) }
        ensures refused { IfErr result (λ returned. RefusesWallet D.told D.plan D.faults (H.digest_of h)
            notes leaves returned.why returned.notes returned.leaves) }
    {
        WalletNode::open_keyed(alloc, notes, leaves, h, None)
    }

    /// Opens the wallet of two disks as `open_with`, with a key at hand: where it is the wallet's own it is
    /// used, else one is made.
    pub fn open_keyed(
        alloc: Global,
        notes: D,
        leaves: D,
        h: H,
        hint: Option<WalletKey>,
    ) -> Result<WalletNode<D, H>, ReturnedBoth<D>>
        ensures opened { IfOk result (λ opened.
            OpensWallet D.told D.plan D.faults (H.digest_of h) notes leaves opened) }
        ensures hash { IfOk result (λ opened. opened.hash ≡ h) }
        ensures refused { IfErr result (λ returned. RefusesWallet D.told D.plan D.faults (H.digest_of h)
            notes leaves returned.why returned.notes returned.leaves) }
    {
        let notes = match Notes::open(alloc, notes, WalletRole { hash: h }) {
            Ok(notes) => notes,
            Err(returned) => {
                let Returned { disk, why } = returned;
                return Err(ReturnedBoth {
                    notes: disk,
                    leaves,
                    why,
                });
            }
        };
        open_behind(alloc, notes, leaves, h, hint)
    }
}

impl<D: Disk> WalletNode<D, Sha> {
    /// Opens the wallet of two disks under SHA-256, as `open_with`.
    pub fn open(alloc: Global, notes: D, leaves: D) -> Result<WalletNode<D, Sha>, ReturnedBoth<D>>
        ensures opened { IfOk result (λ opened. OpensWallet D.told D.plan D.faults sha256 notes leaves opened) }
        ensures hash { IfOk result (λ opened. opened.hash ≡ record {}) }
        ensures refused { IfErr result (λ returned. RefusesWallet D.told D.plan D.faults sha256
            notes leaves returned.why returned.notes returned.leaves) }
    {
        WalletNode::open_with(alloc, notes, leaves, Sha)
    }
}
