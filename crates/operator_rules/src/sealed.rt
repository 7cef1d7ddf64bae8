use plasma_tx::RootCall;

/// What a seal made: the number of the tree's leaves, and the call that commits its root.
#[derive(Drop)]
pub struct Sealed {
    pub leaves: u64,
    pub call: RootCall,
}
