ghost use Rattle.std.specs.Prelude.{◌≡◌, ◌-◌, true, false, length};
ghost use Rattle.crash_disk.specs.Calls.{WhereTold};
ghost use Rattle.gate_journal.specs.Journal.{IsSettled};
ghost use Rattle.leaf_journal.specs.Records.{messages_of};
ghost use Rattle.node_rules.specs.WalletRecords.{owner_of, secret_of};
ghost use Rattle.node_rules.specs.Wallet.{who, coin_state};
ghost use Rattle.node_rules.specs.WalletOpening.{is_wallet};

use super::key::WalletKey;
use super::memory::Memory;
use super::role::WalletRole;
use crash_disk::Disk;
use leaf_journal::Leaves;
use node_journal::Notes;
use node_rules::WalletIdentity;
use plasma_base::{Hash32, Sha};
use plasma_tx::{Owner, RootLog};
use std::alloc::Global;
use std::marker::Model;
use wallet_core::{CoinState, LeafRecord};

/// A wallet: its notes and the leaves of its key, each on a disk, and in memory what they say of coins. A
/// device fault of either disk closes it until both disks are taken back and opened again.
pub struct WalletNode<D: Disk, H: Hash32 + Copy = Sha> {
    pub(crate) alloc: Global,
    pub(crate) hash: H,
    pub(crate) who: WalletIdentity,
    pub(crate) key: WalletKey,
    pub(crate) notes: Notes<D, WalletRole<H>>,
    pub(crate) leaves: Leaves<D>,
    pub(crate) memory: Memory,
    pub(crate) bodies: Vec<LeafRecord>,
}

impl<D: Disk, H: Hash32 + Copy> Model for WalletNode<D, H> {
    ghost use Rattle.std.specs.Prelude.{◌≡◌, ◌||◌};
    ghost use Rattle.wallet_node.specs.State.{WalletState};
    ghost use Rattle.wallet_node.specs.Inside.{IsKept};

    ghost Value = { WalletState D H };

    ghost view = { λ n. record {
      notes_disk = n.notes.notes.disk;
      leaves_disk = n.leaves.notes.disk;
      closed = n.notes.notes.closed || n.leaves.notes.closed;
      records = record { notes = n.notes.notes.records; leaves = n.leaves.notes.records };
      hash = n.hash;
    } };

    ghost invariant = { λ n.
        IsKept (H.digest_of n.hash) (record { notes = n.notes.notes.records; leaves = n.leaves.notes.records })
        n.who n.key n.leaves.key n.memory n.bodies.items
        × (n.notes.role ≡ record { hash = n.hash }) };
}

// Written by hand, so that each place that lets a wallet go calls it; a derived one is proved anew at each.
impl<D: Disk + Drop, H: Hash32 + Copy> Drop for WalletNode<D, H> {
    fn drop(self) {
        let _ = self.take_apart();
    }
}

impl<D: Disk, H: Hash32 + Copy> WalletNode<D, H> {
    /// What holds of every wallet: its records are a wallet's, and while no fault closed it each image that
    /// a crash may leave of either disk keeps that disk's records. It does nothing.
    pub fn is_whole(&self)
        ensures role { is_wallet (H.digest_of self.now.hash) self.now.records ≡ true }
        ensures notes { self.now.closed ≡ false
            → WhereTold (D.told self.now.notes_disk) (λ now. IsSettled now self.now.records.notes) }
        ensures leaves { self.now.closed ≡ false
            → WhereTold (D.told self.now.leaves_disk) (λ now. IsSettled now self.now.records.leaves) }
    {
        let _ = &self.memory;
        self.notes.is_whole();
        self.leaves.is_whole();
    }

    /// Whether a device fault closed the wallet.
    pub fn is_closed(&self) -> bool
        ensures { result ≡ self.now.closed }
    {
        self.notes.is_closed() || self.leaves.is_closed()
    }

    /// The tag of its chain.
    pub fn tag(&self) -> [u8; 32]
        ensures { result ≡ (who self.now.records).tag }
    {
        self.who.tag
    }

    /// How many notes it has without the identity, and how many of its leaves are bound.
    pub fn records(&self) -> (u64, u64)
        ensures notes { result.0 ≡ length self.now.records.notes - 1 }
        ensures leaves { result.1 ≡ length (messages_of self.now.records.leaves) }
    {
        let count = self.notes.records().len() as u64;
        (count.saturating_sub(1), self.leaves.used() as u64)
    }

    /// The owner that it is: its account and its public key. It takes no memory.
    pub fn owner(&self) -> Owner
        ensures { result ≡ owner_of (who self.now.records) }
    {
        self.memory.noted().me
    }

    /// What a coin is to it, with the log, as `wallet_core::state` says. It takes no memory, and makes no
    /// device call.
    #[tactic(auto, unfolding(node_rules::specs::Wallet::coin_state))]
    pub fn state(&self, log: &RootLog, coin: u64) -> CoinState
        ensures { result ≡ coin_state (H.digest_of self.now.hash) self.now.records log.now.log coin }
    {
        let used = self.leaves.used() as usize;
        prove!(self.bodies.len() <= used);
        self.memory.state(&self.bodies, log, coin)
    }

    /// The disks of the notes and of the leaves, handed back.
    pub fn take_disks(self) -> (D, D)
        ensures notes { result.0 ≡ self.notes_disk }
        ensures leaves { result.1 ≡ self.leaves_disk }
    {
        let (notes, leaves, _) = self.take_apart();
        (notes, leaves)
    }

    /// The disks of the notes and of the leaves, and the key, which `open_keyed` takes again.
    pub fn take_apart(self) -> (D, D, WalletKey)
        ensures notes { result.0 ≡ self.notes_disk }
        ensures leaves { result.1 ≡ self.leaves_disk }
        ensures key { result.2 ≡ secret_of (who self.records) }
    {
        let WalletNode {
            alloc: _,
            hash: _,
            who: _,
            key,
            notes,
            leaves,
            memory: _,
            bodies: _,
        } = self;
        (notes.take_disk(), leaves.take_disk(), key)
    }
}
