//! A file in memory that tells its bytes, whose calls can be made to fail, and what a disk over it tells.
#![tactic(auto)]

mod log;
mod memory_file;
mod uses;

pub use memory_file::MemoryFile;
pub use uses::{added, file_holds_what_is_told, opened};
