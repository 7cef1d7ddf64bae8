//! The world of a schedule: it steps line by line over the contract, the nodes with their disks, and the mail.
#![tactic(auto)]

mod answer;
mod beginning;
mod calling;
mod commanding;
mod crashing;
mod cutting;
mod declaring;
mod entering;
mod lending;
mod names;
mod node_list;
mod orders;
mod places;
mod refusal;
mod rogues;
mod rules;
mod scene;
mod seeking;
mod signing;
mod stepping;
mod tokens;

pub use answer::LineAnswer;
pub use refusal::StepRefusal;
pub use scene::Scene;
