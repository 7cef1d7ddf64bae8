ghost use Rattle.std.specs.Prelude.{◌≤◌};
ghost use Rattle.std.specs.List.{All};

use super::ask::Ask;
use super::digest::CaseDigest;
use super::disks::Disks;
use anyhow::{Result, bail};
use crash_disk::{Disk, FileDisk};
use plasma_outside::{MemSink, MemSource, Source};
use std::alloc::Global;
use std::fs::{self, File, Files};

/// The files over which the runs of a case with `folder` are.
pub const NOTES: &str = "case_notes.journal";

pub const LEAVES: &str = "case_leaves.journal";

/// What came of a run: its status, what it wrote, how many bytes it left in the source, and the images behind it.
#[derive(Drop)]
pub struct Found {
    pub status: u8,
    pub output: Vec<u8>,
    pub left: u64,
    pub notes: Vec<u8>,
    pub leaves: Vec<u8>,
}

// A source of these bytes. A piece of nothing is refused.
fn source(alloc: Global, ask: &Ask) -> Result<MemSource> {
    let pieces = ask.pieces.as_slice().to_vec(alloc)?;
    if !pieces.iter().all(|piece| 1 <= *piece) {
        bail!("a piece of nothing");
    }
    let bytes = ask.input.as_slice().to_vec(alloc)?;
    let fails = ask.source_fails.as_slice().to_vec(alloc)?;
    Ok(MemSource::make(bytes, pieces, fails))
}

/// What makes the runs of cases. It stands apart, so that a player needs no proof of what it plays.
pub trait Runs {
    /// Makes a run of these words over this source, this sink and these disks, which it hands back behind the number
    /// of its status.
    fn run<D: Disk>(
        &self,
        alloc: Global,
        digest: &CaseDigest,
        words: &[String],
        source: &mut MemSource,
        sink: &mut MemSink,
        notes: D,
        leaves: D,
    ) -> (u8, D, D);
}

// How many bytes the source has left: what it gives until its end, whatever call of it is to fail.
fn left_in(alloc: Global, source: &mut MemSource, most: usize) -> Result<u64> {
    let mut room = vec![in alloc; 0u8; most.saturating_add(1)]?;
    let mut left = 0u64;
    for _ in 0..u64::MAX {
        match source.take(&mut room) {
            Ok(0) => break,
            Ok(count) => left = left.saturating_add(count as u64),
            Err(_) => {}
        }
    }
    Ok(left)
}

/// Makes a run over the disks in memory, which crash behind it where the case says so.
pub fn play<P: Runs>(
    alloc: Global,
    runs: &P,
    digest: &CaseDigest,
    ask: &Ask,
    disks: &mut Disks,
) -> Result<Found> {
    let mut source = source(alloc, ask)?;
    let mut sink = MemSink::make(alloc, ask.sink_fails.as_slice().to_vec(alloc)?);
    let Disks { notes, leaves } = disks.take(alloc, &ask.notes, &ask.leaves)?;
    let words = ask.words.as_slice();
    let (status, notes, leaves) = runs.run(
        alloc,
        digest,
        words,
        &mut source,
        &mut sink,
        notes,
        leaves,
    );
    *disks = Disks { notes, leaves };
    if let Some(text) = &ask.crash {
        disks.crash(alloc, text.as_str())?;
    }
    disks.forget(alloc, &ask.notes, &ask.leaves)?;
    Ok(Found {
        status,
        output: sink.bytes().to_vec(alloc)?,
        left: left_in(alloc, &mut source, ask.input.len())?,
        notes: disks.notes.bytes().to_vec(alloc)?,
        leaves: disks.leaves.bytes().to_vec(alloc)?,
    })
}

/// Makes a run over the two files.
pub fn play_over_files<R: Files<File = File> + AllocGlobal, P: Runs>(
    rt: &R,
    runs: &P,
    digest: &CaseDigest,
    ask: &Ask,
) -> Result<Found> {
    let alloc = rt.alloc();
    let mut source = source(alloc, ask)?;
    let mut sink = MemSink::make(alloc, ask.sink_fails.as_slice().to_vec(alloc)?);
    let words = ask.words.as_slice();
    let (status, _, _) = runs.run(
        alloc,
        digest,
        words,
        &mut source,
        &mut sink,
        FileDisk::make(rt, NOTES),
        FileDisk::make(rt, LEAVES),
    );
    Ok(Found {
        status,
        output: sink.bytes().to_vec(alloc)?,
        left: left_in(alloc, &mut source, ask.input.len())?,
        notes: content(rt, NOTES)?,
        leaves: content(rt, LEAVES)?,
    })
}

// What a file holds: nothing, where it is missing.
fn content<R: Files + AllocGlobal>(rt: &R, path: &str) -> Result<Vec<u8>> {
    if !fs::exists(rt, path)? {
        return Ok(Vec::new(rt.alloc()));
    }
    Ok(fs::read(rt, path)?)
}

/// Removes the two files, where they are there.
pub fn remove_files<R: Files>(rt: &R) -> Result<()> {
    for path in [NOTES, LEAVES] {
        if fs::exists(rt, path)? {
            fs::remove_file(rt, path)?;
        }
    }
    Ok(())
}
