use plasma_tx::Links;

/// What a node has of a coin: its links up to the block at which it keeps it, by which of its leaves it signed the
/// coin away from there, if it did, whether it guards the coin, as a watcher does, and whether a block is hidden: the
/// operator didn't show a block behind that one when it was asked for the coin there. Who is the owner there holds the
/// coin.
#[derive(Drop)]
pub struct Kept {
    pub links: Links,
    pub sent: Option<Sent>,
    pub guarded: bool,
    pub hidden: bool,
}

/// A leaf that signed a coin away, and the last block of its transfer, if it names one.
#[derive(Clone, Copy, PartialEq, Eq)]
pub struct Sent {
    pub leaf: u32,
    pub last: Option<u64>,
}
