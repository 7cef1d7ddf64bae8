use coin_history::Bundle;
use coin_verdicts::{Fact, Numbers};
use plasma_tx::{Body, Owner};

/// What a line did, as its run's verdicts and exhibit need it. Nodes have the numbers of the world: the operator is 0,
/// and those that are declared follow in order.
#[derive(Drop)]
pub enum LineEvent {
    /// This wallet was declared, which is this owner.
    Declares {
        wallet: u64,
        owner: Owner,
    },
    /// A call was accepted, and joined the log; verdicts need this of it.
    Joins {
        fact: Fact,
    },
    /// A wallet accepted a bundle.
    Accepts {
        wallet: u64,
        bundle: Bundle,
    },
    /// A watcher guards a bundle's coin at its tip.
    Guards {
        watcher: u64,
        bundle: Bundle,
    },
    /// A watcher let the coin at the tip go.
    Releases {
        watcher: u64,
        coin: u64,
        tip: u64,
    },
    /// The next leaf of a wallet's key binds a body.
    Binds {
        wallet: u64,
        body: Body,
    },
    /// A wallet took back what this leaf binds, by a bundle.
    TakesBack {
        wallet: u64,
        leaf: u32,
        bundle: Bundle,
    },
    /// A node watched, and offers calls of each of these coins, and of no other.
    Watches {
        node: u64,
        coins: Numbers,
    },
    /// Any other command of a node.
    Other {
        node: u64,
    },
    /// Any other line.
    Idle,
}
