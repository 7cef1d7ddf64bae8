use super::challenges::Challenges;
use plasma_tx::Owner;

/// What is kept of a standing exit of a coin: its block and that of its parent (0 for an exit of the
/// deposit), who owned the coin after the block and after its parent, when it was started, in seconds, and
/// its challenges.
#[derive(Drop)]
pub struct Slot {
    pub coin: u64,
    pub block: u64,
    pub parent: u64,
    pub owner: Owner,
    pub parent_owner: Owner,
    pub start: u64,
    pub challenges: Challenges,
}
