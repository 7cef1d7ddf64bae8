ghost use Rattle.std.specs.Prelude.{IfOk};
ghost use Rattle.crash_disk.specs.Outcomes.{HasPattern};

use super::numbers::number;
use anyhow::{Result, bail};
use crash_disk::{MemDisk, Outcome};
use plasma_base::{Bytes, take_hex};
use std::alloc::Global;
use std::mem;

/// Which device calls of a run fail: those on the list, and all behind the fuse.
#[derive(Drop)]
pub struct Faults {
    pub fails: Vec<u64>,
    pub fuse: Option<u64>,
}

impl Faults {
    /// No call fails.
    pub fn none(alloc: Global) -> Faults {
        Faults {
            fails: Vec::new(alloc),
            fuse: None,
        }
    }
}

/// The two disks of a case, which one run hands to the next.
#[derive(Drop)]
pub struct Disks {
    pub notes: MemDisk,
    pub leaves: MemDisk,
}

impl Disks {
    /// Two empty disks.
    pub fn empty(alloc: Global) -> Disks {
        Disks {
            notes: empty(alloc),
            leaves: empty(alloc),
        }
    }

    /// Takes the disks out, so that the calls of these faults fail.
    pub fn take(&mut self, alloc: Global, notes: &Faults, leaves: &Faults) -> Result<Disks> {
        let taken = Disks {
            notes: mem::replace(&mut self.notes, empty(alloc)),
            leaves: mem::replace(&mut self.leaves, empty(alloc)),
        };
        Ok(Disks {
            notes: with_faults(alloc, taken.notes, notes)?,
            leaves: with_faults(alloc, taken.leaves, leaves)?,
        })
    }

    /// Forgets which calls of a list were to fail, so that no call of a later run does.
    pub fn forget(&mut self, alloc: Global, notes: &Faults, leaves: &Faults) -> Result<()> {
        if !notes.fails.is_empty() {
            self.notes = anew(alloc, &self.notes, &[])?;
        }
        if !leaves.fails.is_empty() {
            self.leaves = anew(alloc, &self.leaves, &[])?;
        }
        Ok(())
    }

    /// Both disks crash, and are what the outcome leaves.
    pub fn crash(&mut self, alloc: Global, text: &str) -> Result<()> {
        self.notes.crash(&outcome(alloc, text)?)?;
        self.leaves.crash(&outcome(alloc, text)?)?;
        Ok(())
    }
}

fn empty(alloc: Global) -> MemDisk {
    MemDisk::make(alloc, Vec::new(alloc), Vec::new(alloc))
}

/// A disk that holds what a hex spells.
pub fn disk_of(alloc: Global, hex: &str) -> Result<MemDisk> {
    let bytes = take_hex(alloc, hex.as_bytes())?;
    Ok(MemDisk::make(alloc, bytes, Vec::new(alloc)))
}

/// A disk that holds the first bytes of another.
pub fn cut_disk(alloc: Global, disk: &MemDisk, count: u64) -> Result<MemDisk> {
    let bytes = disk.bytes();
    let count = bytes.len().min(count as usize);
    let kept = bytes.get(..count).unwrap_or(&[]).to_vec(alloc)?;
    Ok(MemDisk::make(alloc, kept, Vec::new(alloc)))
}

// A disk that holds the bytes of another, and whose calls on the list fail.
fn anew(alloc: Global, disk: &MemDisk, fails: &[u64]) -> Result<MemDisk> {
    let bytes = disk.bytes().to_vec(alloc)?;
    Ok(MemDisk::make(alloc, bytes, fails.to_vec(alloc)?))
}

// The disk as it is, or, where calls of a list are to fail, one that holds its bytes.
fn with_faults(alloc: Global, disk: MemDisk, faults: &Faults) -> Result<MemDisk> {
    let mut disk = disk;
    if !faults.fails.is_empty() {
        disk = anew(alloc, &disk, faults.fails.as_slice())?;
    }
    disk.fuse(faults.fuse.unwrap_or(u64::MAX));
    Ok(disk)
}

// What a crash leaves: `old`, `new`, or `mix`, a number and a hex of a byte or more.
fn outcome(alloc: Global, text: &str) -> Result<Outcome>
    ensures { IfOk result HasPattern }
{
    match text.split_once(' ') {
        None if text == "old" => Ok(Outcome::Old),
        None if text == "new" => Ok(Outcome::New),
        Some(("mix", rest)) => mix(alloc, rest),
        _ => bail!("no outcome: {text}"),
    }
}

fn mix(alloc: Global, text: &str) -> Result<Outcome>
    ensures { IfOk result HasPattern }
{
    let Some((extra, hex)) = text.split_once(' ') else {
        bail!("no mix: {text}");
    };
    let bytes = take_hex(alloc, hex.as_bytes())?;
    if bytes.is_empty() {
        bail!("an empty mix");
    }
    Ok(Outcome::Mix {
        extra: number(extra)?,
        bytes: Bytes::from_vec(bytes),
    })
}
