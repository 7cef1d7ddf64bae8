//! The world of a schedule: it steps line by line, keeps the mail and what the lines leave for verdicts and the
//! exhibit.
#![tactic(auto)]

mod counting;
mod mail;
mod running;
mod stepping;
mod world;

pub use world::World;
pub use world_scene::StepRefusal;
