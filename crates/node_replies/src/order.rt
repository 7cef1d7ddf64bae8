use plasma_base::Bytes;
use plasma_tx::Owner;

/// A command of a wallet whose tokens are resolved: the bytes of a bundle, and the owner that a coin is sent to.
#[derive(Drop)]
pub enum WalletOrder {
    /// Takes a coin up by its history.
    Accept {
        bundle: Bytes,
    },
    /// Signs a transfer of the coin. With `last` it names the last block that may hold it.
    Send {
        coin: u64,
        to: Owner,
        last: Option<u64>,
    },
    /// Gives the coin's transfer out again, as it was signed.
    Again {
        coin: u64,
    },
    /// Leaves with the coin, and offers the start of the exit.
    Leave {
        coin: u64,
    },
    /// Takes a sent coin back, by absences up to the transfer's last block.
    Reclaim {
        bundle: Bytes,
    },
    /// Puts the marker into the journal of the key's leaves.
    Migrate,
    /// Offers the calls that are due.
    Watch,
}

/// A command of a watcher, with the bytes and numbers that it names.
#[derive(Drop)]
pub enum WatcherOrder {
    /// Guards a coin by the bundle of its history, which these bytes spell.
    Guard { bundle: Bytes },
    /// Lets the guard of this coin at this tip go.
    Release { coin: u64, tip: u64 },
    /// Offers the calls that are due for the guards.
    Watch,
}

/// A command of the operator, with the bytes and numbers that it names.
#[derive(Drop)]
pub enum OperatorOrder {
    /// Puts a signed transfer, which these bytes spell, into the pool.
    Offer { transfer: Bytes },
    /// Lays bytes at a coin in the pool.
    Lay { coin: u64, leaf: Bytes },
    /// Seals the pool, and offers the commit of its root.
    Seal,
    /// Makes the bundle of a coin's history up to a tip, or up to the present tip where 0 is asked for.
    Bundle { coin: u64, tip: u64 },
    /// Makes the opening of a block at a coin.
    Prove { coin: u64, block: u64 },
    /// Makes the bundle of what the committed blocks after a block and up to the last have at a coin.
    Absences { coin: u64, after: u64, last: u64 },
}

/// A command of a node whose tokens are resolved.
#[derive(Drop)]
pub enum NodeOrder {
    /// A command of a wallet.
    Wallet(WalletOrder),
    /// A command of a watcher.
    Watcher(WatcherOrder),
    /// A command of the operator.
    Operator(OperatorOrder),
    /// The node is opened.
    Open,
}
