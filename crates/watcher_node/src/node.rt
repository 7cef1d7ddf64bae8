ghost use Rattle.std.specs.Prelude.{◌≡◌, ◌-◌, ◌≤◌, true, false, length, Some, None, IfOk, IfErr};
ghost use Rattle.crash_disk.specs.Calls.{WhereTold};
ghost use Rattle.gate_journal.specs.Image.{most};
ghost use Rattle.gate_journal.specs.Journal.{IsSettled};
ghost use Rattle.node_journal.specs.Role.{are_of, role_in};
ghost use Rattle.node_journal.specs.Notes.{Did, stopped_by, Opened, RefusesRole};
ghost use Rattle.sha2.specs.Sha256.{sha256};
ghost use Rattle.node_rules.specs.Watcher.{watcher_kinds, who_is};

use super::records::{InMemory, in_memory};
use super::role::WatcherRole;
use crash_disk::Disk;
use gate_journal::{JournalRefusal, Returned};
use node_journal::Notes;
use node_rules::KeptCoin;
use plasma_base::{Hash32, Sha};
use std::alloc::Global;
use std::collections::BTreeMap;
use std::marker::Model;

/// A watcher: its notes on a disk, and in memory the guards that they leave, with the links that their
/// openings show. A device fault closes it until the disk is taken back and opened again.
pub struct WatcherNode<D: Disk, H: Hash32 + Copy = Sha> {
    pub(crate) alloc: Global,
    pub(crate) hash: H,
    pub(crate) notes: Notes<D, WatcherRole<H>>,
    pub(crate) tag: [u8; 32],
    pub(crate) account: u64,
    // by coin and tip
    pub(crate) guards: BTreeMap<(u64, u64), KeptCoin>,
}

impl<D: Disk, H: Hash32 + Copy> Model for WatcherNode<D, H> {
    ghost use Rattle.std.specs.Prelude.{◌≡◌};
    ghost use Rattle.node_journal.specs.Notes.{NodeState};
    ghost use Rattle.watcher_node.specs.Inside.{IsKept};

    ghost Value = { NodeState D H };

    ghost view = { λ n. record { notes = n.notes.notes; hash = n.hash } };

    ghost invariant = { λ n. IsKept (H.digest_of n.hash) n.notes.notes.records n.tag n.account n.guards.entries
        × (n.notes.role ≡ record { hash = n.hash }) };
}

// Written by hand, so that each place that lets a watcher go calls it; a derived one is proved anew at each.
impl<D: Disk + Drop, H: Hash32 + Copy> Drop for WatcherNode<D, H> {
    fn drop(self) {
        let _ = self.take_disk();
    }
}

// A watcher over notes that were opened; the disk where memory runs out.
fn over<D: Disk, H: Hash32 + Copy>(
    alloc: Global,
    hash: H,
    notes: Notes<D, WatcherRole<H>>,
) -> Result<WatcherNode<D, H>, D>
    requires { notes.role ≡ record { hash = hash } }
    ensures ok { IfOk result (λ node. node ≡ record { notes = notes.notes; hash = hash }) }
    ensures err { IfErr result (λ disk. disk ≡ notes.notes.disk) }
{
    notes.is_whole();
    match in_memory(alloc, &hash, notes.records()) {
        Ok(kept) => {
            let InMemory {
                tag,
                account,
                guards,
            } = kept;
            Ok(WatcherNode {
                alloc,
                hash,
                notes,
                tag,
                account,
                guards,
            })
        }
        Err(_) => Err(notes.take_disk()),
    }
}

impl<D: Disk, H: Hash32 + Copy> WatcherNode<D, H> {
    /// Opens the watcher of a disk under a digest. From then on each image that a crash may leave keeps
    /// its records. Device calls: those of `Journal::open`.
    ///
    /// `NotJournal` comes where the image spells no records of a watcher, with the place of the gate of
    /// the first one that isn't; without any record it is place 4. A refusal hands the disk back.
    pub fn open_with(alloc: Global, notes: D, h: H) -> Result<WatcherNode<D, H>, Returned<D>>
        ensures opened { IfOk result (λ opened.
            Opened D.told D.plan D.faults (role_in (watcher_kinds (H.digest_of h))) notes opened.notes) }
        ensures hash { IfOk result (λ opened. opened.hash ≡ h) }
        ensures refused { IfErr result (λ returned. RefusesRole D.told D.plan D.faults
            (role_in (watcher_kinds (H.digest_of h))) notes returned.why returned.disk) }
    {
        let notes = match Notes::open(alloc, notes, WatcherRole { hash: h }) {
            Ok(notes) => notes,
            Err(returned) => return Err(returned),
        };
        match over(alloc, h, notes) {
            Ok(node) => Ok(node),
            Err(disk) => Err(Returned {
                disk,
                why: JournalRefusal::NoMemory,
            }),
        }
    }

    /// What holds of every watcher: its records are a watcher's, and while no fault closed it each image
    /// that a crash may leave keeps them. It does nothing.
    pub fn is_whole(&self)
        ensures role { are_of (watcher_kinds (H.digest_of self.now.hash)) self.now.notes.records ≡ true }
        ensures settled { self.now.notes.closed ≡ false
            → WhereTold (D.told self.now.notes.disk) (λ now. IsSettled now self.now.notes.records) }
    {
        let _ = &self.guards;
        self.notes.is_whole();
    }

    /// Whether a device fault closed the watcher.
    pub fn is_closed(&self) -> bool
        ensures { result ≡ self.now.notes.closed }
    {
        self.notes.is_closed()
    }

    /// The tag of its chain.
    pub fn tag(&self) -> [u8; 32]
        ensures { result ≡ (who_is self.now.notes.records).tag }
    {
        self.tag
    }

    /// How many records it has without the identity, and 0: it has no leaves.
    pub fn records(&self) -> (u64, u64)
        ensures notes { result.0 ≡ length self.now.notes.records - 1 }
        ensures leaves { result.1 ≡ 0 }
    {
        let count = self.notes.records().len() as u64;
        (count.saturating_sub(1), 0)
    }

    /// The disk, handed back.
    pub fn take_disk(self) -> D
        ensures { result ≡ self.notes.disk }
    {
        let WatcherNode {
            alloc: _,
            hash: _,
            notes,
            tag: _,
            account: _,
            guards: _,
        } = self;
        notes.take_disk()
    }
}

impl<D: Disk> WatcherNode<D, Sha> {
    /// Opens the watcher of a disk under SHA-256, as `open_with`.
    pub fn open(alloc: Global, notes: D) -> Result<WatcherNode<D, Sha>, Returned<D>>
        ensures opened { IfOk result (λ opened.
            Opened D.told D.plan D.faults (role_in (watcher_kinds sha256)) notes opened.notes) }
        ensures hash { IfOk result (λ opened. opened.hash ≡ record {}) }
        ensures refused { IfErr result (λ returned. RefusesRole D.told D.plan D.faults
            (role_in (watcher_kinds sha256)) notes returned.why returned.disk) }
    {
        WatcherNode::open_with(alloc, notes, Sha)
    }
}
