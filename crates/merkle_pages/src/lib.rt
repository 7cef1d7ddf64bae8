//! A finite map from coins to byte strings as a sparse Merkle tree that keeps its nodes, under the
//! digest that it was made with. A tree that is made of a whole map digests each node once, and a put the
//! 65 nodes on the way up from its coin; the root, each node and each proof are then at hand.
//!
//! The nodes stand in pages of 15 levels, five from the leaf up. A page is named by its number among the
//! five and by the bits of the coins above it, and keeps the nodes that differ from the default of their
//! level.
#![tactic(auto)]

mod defaults;
mod leaves;
mod nodes;
mod pages;
mod tree;
mod way;

pub use defaults::Defaults;
pub use leaves::Leaves;
pub use tree::{PagedTree, SharedTree};
