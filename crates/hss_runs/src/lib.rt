//! Runs of a two-level signer (RFC 8554, section 6): its two disks are begun, or opened to sign one message, and a
//! signature is tested.
#![tactic(auto)]

mod answer;
mod ending;
mod identity;
mod init;
mod next;
mod opening;
mod role;
mod run;
mod signing;
mod verdict;

pub use init::init_signer;
pub use next::NextLeaf;
pub use run::run_signer;
pub use verdict::verify_signature;
