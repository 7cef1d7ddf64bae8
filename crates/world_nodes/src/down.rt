ghost use Rattle.std.specs.Prelude.{◌≡◌, IfOk};
ghost use Rattle.crash_disk.specs.Disk.{content};
ghost use Rattle.crash_disk.specs.Memory.{with_fuse};
ghost use Rattle.crash_disk.specs.Outcomes.{HasPattern};
ghost use Rattle.gate_journal.specs.declared.refusal.JournalRefusal.{JournalRefusal};
ghost use Rattle.plasma_tx.specs.Spelling.{AreBytes};
ghost use Rattle.world_nodes.specs.declared.entry.Site.{Site};
ghost use Rattle.world_nodes.specs.Boxed.{site_in};
ghost use Rattle.world_nodes.specs.Inside.{crashed, down_halves, with_disks, Opens, RefusesDown, MayOpen, IsToStop, up_hash};

use super::boxed::Held;
use super::up::UpNode;
use crash_disk::{MemDisk, Outcome};
use gate_journal::{JournalRefusal, Returned};
use operator_core::Operator;
use plasma_base::{Hash32, NoMemory};
use std::alloc::Global;
use wallet_node::{ReturnedBoth, WalletKey, WalletNode};
use watcher_node::WatcherNode;

/// A node that is down: its disks, and a wallet's key, which was made once.
pub enum DownNode {
    Wallet {
        notes: MemDisk,
        leaves: MemDisk,
        key: WalletKey,
    },
    Watcher {
        notes: MemDisk,
    },
    Operator {
        notes: MemDisk,
    },
}

// Written by hand, as that of a node that is up.
impl Drop for DownNode {
    fn drop(self) {
        match self {
            DownNode::Wallet {
                notes: _,
                leaves: _,
                key: _,
            } => {}
            DownNode::Watcher { notes: _ } => {}
            DownNode::Operator { notes: _ } => {}
        }
    }
}

// What the type of bytes says of them. It does nothing.
pub fn are_bytes(bytes: &[u8])
    ensures { AreBytes bytes.now }
{
    let _ = bytes;
}

// The one cause for which a disk of a world isn't opened.
pub fn no_memory(why: JournalRefusal) -> NoMemory
    requires { why ≡ JournalRefusal.NoMemory }
{
    match why {
        JournalRefusal::NoMemory => NoMemory,
        _ => unreachable!(),
    }
}

// The disk after a crash.
fn crash_disk(disk: MemDisk, outcome: &Outcome) -> Result<MemDisk, NoMemory>
    requires { HasPattern outcome.now }
    ensures { IfOk result (λ new. new ≡ crashed outcome.now disk) }
{
    let mut disk = disk;
    disk.crash(outcome)?;
    Ok(disk)
}

// The disk, which lets so many further device calls pass.
fn fuse_disk(disk: MemDisk, calls: u64) -> MemDisk
    ensures { result ≡ with_fuse calls disk }
{
    let mut disk = disk;
    disk.fuse(calls);
    disk
}

impl DownNode {
    /// The node after its disks crashed, each with this outcome.
    pub fn crash(self, outcome: &Outcome) -> Result<DownNode, NoMemory>
        requires { HasPattern outcome.now }
        ensures { IfOk result (λ new. new ≡ with_disks (crashed outcome.now) self) }
    {
        match self {
            DownNode::Wallet { notes, leaves, key } => {
                let notes = crash_disk(notes, outcome)?;
                let leaves = crash_disk(leaves, outcome)?;
                Ok(DownNode::Wallet { notes, leaves, key })
            }
            DownNode::Watcher { notes } => {
                let notes = crash_disk(notes, outcome)?;
                Ok(DownNode::Watcher { notes })
            }
            DownNode::Operator { notes } => {
                let notes = crash_disk(notes, outcome)?;
                Ok(DownNode::Operator { notes })
            }
        }
    }

    /// The node, each of whose disks lets so many further device calls pass.
    pub fn fuse(self, calls: u64) -> DownNode
        ensures { result ≡ with_disks (with_fuse calls) self }
    {
        match self {
            DownNode::Wallet { notes, leaves, key } => {
                let notes = fuse_disk(notes, calls);
                let leaves = fuse_disk(leaves, calls);
                DownNode::Wallet { notes, leaves, key }
            }
            DownNode::Watcher { notes } => DownNode::Watcher {
                notes: fuse_disk(notes, calls),
            },
            DownNode::Operator { notes } => DownNode::Operator {
                notes: fuse_disk(notes, calls),
            },
        }
    }

    // What the type of bytes says of those on the notes' disk. It does nothing.
    pub fn are_bytes(&self)
        ensures { AreBytes (content (down_halves self.now).notes.disk.history) }
    {
        match self {
            DownNode::Wallet { notes, .. } => are_bytes(notes.bytes()),
            DownNode::Watcher { notes } => are_bytes(notes.bytes()),
            DownNode::Operator { notes } => are_bytes(notes.bytes()),
        }
    }

    // Opens the disks of a node that is down, which fails for want of memory alone.
    pub fn open_up<H: Hash32 + Copy>(self, alloc: Global, hash: H) -> Result<UpNode<H>, NoMemory>
        requires { MayOpen (H.digest_of hash) self }
        ensures opens { IfOk result (λ node. Opens (H.digest_of hash) self node) }
        ensures hash { IfOk result (λ node. up_hash node ≡ hash) }
    {
        match self {
            DownNode::Wallet { notes, leaves, key } => {
                match WalletNode::open_keyed(alloc, notes, leaves, hash, Some(key)) {
                    Ok(node) => Ok(UpNode::Wallet(node)),
                    Err(returned) => Err(no_memory(returned.why)),
                }
            }
            DownNode::Watcher { notes } => match WatcherNode::open_with(alloc, notes, hash) {
                Ok(node) => Ok(UpNode::Watcher(node)),
                Err(returned) => Err(no_memory(returned.why)),
            },
            DownNode::Operator { notes } => match Operator::open_with(alloc, notes, hash) {
                Ok(node) => Ok(UpNode::Operator(node)),
                Err(returned) => Err(no_memory(returned.why)),
            },
        }
    }

    // Opens the disks of a node that is down, of which the notes' one is to meet a device fault before a key
    // is asked for, so that the key stays.
    pub fn stop_up<H: Hash32 + Copy>(self, alloc: Global, hash: H) -> Result<DownNode, NoMemory>
        requires { IsToStop H (H.digest_of hash) self }
        ensures { IfOk result (λ left. RefusesDown (H.digest_of hash) self JournalRefusal.DeviceFault left) }
    {
        match self {
            DownNode::Wallet { notes, leaves, key } => {
                match WalletNode::open_keyed(alloc, notes, leaves, hash, None) {
                    Ok(_) => unreachable!(),
                    Err(returned) => {
                        let ReturnedBoth { notes, leaves, why } = returned;
                        match why {
                            JournalRefusal::DeviceFault => Ok(DownNode::Wallet {
                                notes,
                                leaves,
                                key,
                            }),
                            why => Err(no_memory(why)),
                        }
                    }
                }
            }
            DownNode::Watcher { notes } => match WatcherNode::open_with(alloc, notes, hash) {
                Ok(_) => unreachable!(),
                Err(returned) => {
                    let Returned { disk, why } = returned;
                    match why {
                        JournalRefusal::DeviceFault => Ok(DownNode::Watcher { notes: disk }),
                        why => Err(no_memory(why)),
                    }
                }
            },
            DownNode::Operator { notes } => match Operator::open_with(alloc, notes, hash) {
                Ok(_) => unreachable!(),
                Err(returned) => {
                    let Returned { disk, why } = returned;
                    match why {
                        JournalRefusal::DeviceFault => Ok(DownNode::Operator { notes: disk }),
                        why => Err(no_memory(why)),
                    }
                }
            },
        }
    }

    // The node, held.
    pub fn hold<H: Hash32 + Copy>(self, alloc: Global) -> Result<Held<H>, NoMemory>
        ensures { IfOk result (λ held. site_in held ≡ Site.Down self) }
    {
        Ok(match self {
            DownNode::Watcher { notes } => Held::DownWatcher(Box::new(alloc, notes)?),
            down => Held::Down(Box::new(alloc, down)?),
        })
    }
}
