//! Disks as a journal sees them: a trait with the device calls and what a crash may leave, a disk in
//! memory whose calls can be made to fail and which can crash, a disk over any file that notes its calls, and one over a
//! file of the operating system.
#![tactic(auto)]

mod copy;
mod disk;
mod disk_over;
mod faults;
mod file;
mod file_calls;
mod laws;
mod lazy_file;
mod log;
mod memory;
mod mix;
mod notes;
mod outcome;
mod past;
mod real_file;
mod undo;

pub use copy::overwrite;
pub use disk::{Disk, DiskFailed};
pub use disk_over::DiskOver;
pub use faults::{is_spent, shorter_fuse};
pub use file::FileDisk;
pub use file_calls::{FileCalls, was_there};
pub use laws::{
    after_calls, content_may_be_left, fresh_disk_leaves_itself, next_pass_by_fuse, none_listed,
    outcomes_may_be_left, passes_by_fuse, synced_content_is_left,
};
pub use memory::MemDisk;
pub use notes::{FileStep, Notes};
pub use outcome::Outcome;
