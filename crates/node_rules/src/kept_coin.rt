use plasma_tx::Spends;

/// A coin that a node keeps, as it stands in memory: the block at which its history ended when it was taken
/// up, and the links from the deposit up to there.
#[derive(Drop)]
pub struct KeptCoin {
    pub coin: u64,
    pub tip: u64,
    pub spends: Spends,
}
