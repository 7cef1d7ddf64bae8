//! The program: it runs `safe_runs::run` on the words of the command line, standard input, standard output and the
//! files `notes.journal` and `leaves.journal` of the current folder, which it only reads, and ends with the run's status.
#![tactic(auto)]

use crash_disk::FileDisk;
use plasma_outside::{StdSink, StdSource};
use safe_runs::{Status, run};
use std::alloc::AllocError;
use std::env;
use std::io::{ErrorKind, writer};
use std::process::ExitCode;

/// The file of a node's notes, and that of the leaves of its key.
const NOTES: &str = "notes.journal";

const LEAVES: &str = "leaves.journal";

fn main(rt: HostRuntime) -> ExitCode {
    let mut source = StdSource::make(rt.reader());
    let mut sink = StdSink::make(writer(&rt));
    let status = match words(&rt) {
        Ok(words) => {
            let notes = FileDisk::make(&rt, NOTES);
            let leaves = FileDisk::make(&rt, LEAVES);
            run(rt.alloc(), &words, &mut source, &mut sink, notes, leaves).status
        }
        Err(AllocError) => Status::NoMemory,
    };
    ExitCode::from(status.code())
}

/// The words after the program's name. Where one of them, or the name, isn't text, they are no form,
/// and neither is no word.
fn words(rt: &HostRuntime) -> Result<Vec<String>, AllocError> {
    let alloc = rt.alloc();
    match env::args(rt) {
        Ok(words) => words.skip(1).collect(alloc),
        Err(error) if error.kind() == ErrorKind::OutOfMemory => Err(AllocError),
        Err(_) => Ok(Vec::new(alloc)),
    }
}
