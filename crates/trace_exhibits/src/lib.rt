//! What a trace shows that excuses a loss: two byte strings with one digest, or a valid signature that its honest
//! key never made.
#![tactic(auto)]

mod collisions;
mod digest_key;
mod findings;
mod forgeries;
mod forging;
mod hashed_string;
mod lines;
mod met;
mod shown;
mod tested;
mod wallets;
mod way;

pub use findings::Findings;
pub use forging::forges;
pub use lines::ExhibitLine;
