//! What the players of cases play: the program's top call.
#![tactic(auto)]

use case_runs::{CaseDigest, Runs};
use crash_disk::Disk;
use plasma_outside::{MemSink, MemSource};
use replay_run::{Ended, run_with};
use std::alloc::Global;

/// The runs of the program `plasma`, under the digest of the case.
#[derive(Clone, Copy)]
pub struct PlasmaRuns;

impl Runs for PlasmaRuns {
    fn run<D: Disk>(
        &self,
        alloc: Global,
        digest: &CaseDigest,
        words: &[String],
        source: &mut MemSource,
        sink: &mut MemSink,
        notes: D,
        leaves: D,
    ) -> (u8, D, D) {
        let Ended {
            status,
            notes,
            leaves,
        } = run_with(alloc, digest, words, source, sink, notes, leaves);
        (status.code(), notes, leaves)
    }
}
