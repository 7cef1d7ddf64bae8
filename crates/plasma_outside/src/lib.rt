//! What a run reads from and writes to: a source and a sink as traits that count their faults, both
//! in memory with calls that are to fail, and both over std's reader and writer.
#![tactic(auto)]

mod memory;
mod sink;
mod source;
mod std_io;

pub use memory::{MemSink, MemSource};
pub use sink::{Sink, SinkRefusal};
pub use source::{Source, SourceFailed};
pub use std_io::{StdSink, StdSource};
