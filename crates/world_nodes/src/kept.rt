ghost use Rattle.std.specs.Prelude.{◌≡◌, slice_get, length, IfOk};
ghost use Rattle.world_nodes.specs.Inside.{counts_of, down_halves, kept_behind, kept_of, HasJournal, HaveJournals};

use super::down::{DownNode, no_memory};
use crash_disk::MemDisk;
use gate_journal::Journal;
use plasma_base::{Bytes, NoMemory};
use std::alloc::Global;

/// How many records the disks of a node hold: of its notes, and of its leaves.
#[derive(Clone, Copy)]
pub struct Counts {
    pub notes: usize,
    pub leaves: usize,
}

// The records that a disk holds. They are read on a copy, so that the disk makes no call.
fn records_on(alloc: Global, disk: &MemDisk) -> Result<Vec<Bytes>, NoMemory>
    requires { HasJournal disk.now }
    ensures { IfOk result (λ records. records.items ≡ kept_of disk.now.history) }
{
    let copy = MemDisk::make(alloc, disk.bytes().to_vec(alloc)?, Vec::new(alloc));
    match Journal::open(alloc, copy) {
        Ok(opened) => {
            let (_, records) = opened;
            Ok(records)
        }
        Err(returned) => Err(no_memory(returned.why)),
    }
}

// How many records a disk holds.
fn count_on(alloc: Global, disk: &MemDisk) -> Result<usize, NoMemory>
    requires { HasJournal disk.now }
    ensures { IfOk result (λ count. count ≡ length (kept_of disk.now.history)) }
{
    let records = records_on(alloc, disk)?;
    Ok(records.len())
}

// The record of a disk behind so many.
fn kept_on(alloc: Global, disk: &MemDisk, before: usize) -> Result<Option<Bytes>, NoMemory>
    requires { HasJournal disk.now }
    ensures { IfOk result (λ kept. kept ≡ slice_get (kept_of disk.now.history) before) }
{
    let records = records_on(alloc, disk)?;
    if before < records.len() {
        let body = records[before].copy()?;
        Ok(Some(body))
    } else {
        Ok(None)
    }
}

// How many records the disks of a node hold.
pub fn count_records(alloc: Global, down: &DownNode) -> Result<Counts, NoMemory>
    requires { HaveJournals (down_halves down.now) }
    ensures { IfOk result (λ counts. counts ≡ counts_of (down_halves down.now)) }
{
    match down {
        DownNode::Wallet { notes, leaves, .. } => {
            let notes = count_on(alloc, notes)?;
            let leaves = count_on(alloc, leaves)?;
            Ok(Counts { notes, leaves })
        }
        DownNode::Watcher { notes } => {
            let notes = count_on(alloc, notes)?;
            Ok(Counts { notes, leaves: 0 })
        }
        DownNode::Operator { notes } => {
            let notes = count_on(alloc, notes)?;
            Ok(Counts { notes, leaves: 0 })
        }
    }
}

// The record that the disks of a node hold behind so many, of its notes or else of its leaves.
pub fn kept_record(
    alloc: Global,
    down: &DownNode,
    before: &Counts,
) -> Result<Option<Bytes>, NoMemory>
    requires { HaveJournals (down_halves down.now) }
    ensures { IfOk result (λ kept. kept ≡ kept_behind before.now (down_halves down.now)) }
{
    match down {
        DownNode::Wallet { notes, leaves, .. } => match kept_on(alloc, notes, before.notes)? {
            Some(body) => Ok(Some(body)),
            None => kept_on(alloc, leaves, before.leaves),
        },
        DownNode::Watcher { notes } => kept_on(alloc, notes, before.notes),
        DownNode::Operator { notes } => kept_on(alloc, notes, before.notes),
    }
}
