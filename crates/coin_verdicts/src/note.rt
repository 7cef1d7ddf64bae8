use super::fact::Numbers;
use plasma_tx::Owner;

/// What a line did to one coin.
#[derive(Drop)]
pub struct Note {
    /// The line's number, counted from 1.
    pub line: u64,
    pub change: Change,
}

/// What may befall a coin.
#[derive(Drop)]
pub enum Change {
    /// It was deposited in this block, to this owner.
    Deposits {
        block: u64,
        owner: Owner,
    },
    /// A wallet accepted it with this tip.
    Accepts {
        wallet: u64,
        tip: u64,
    },
    /// A leaf of a wallet, which isn't taken back, signs it away from this parent.
    Sends {
        wallet: u64,
        parent: u64,
    },
    /// A wallet took back such a leaf.
    Returns {
        wallet: u64,
        parent: u64,
    },
    /// Its exit at the block, which this account had started, ended.
    Ends {
        block: u64,
        account: u64,
        paid: bool,
    },
    /// A tick met a deadline of it. These wallets had watched and offered no call of it, and no call was accepted
    /// since; watchers of which the same holds guard it at these tips.
    Meets {
        wallets: Numbers,
        tips: Numbers,
    },
}

/// A wallet whose coins are asked for: its number, the line that declared it, and the owner that it is.
#[derive(Clone, Copy, Drop)]
pub struct Holder {
    pub wallet: u64,
    pub since: u64,
    pub owner: Owner,
}

/// What a coin's changes came to for one wallet and one block.
#[derive(Clone, Copy, Drop)]
pub struct Standing {
    /// It was deposited in the block, to the wallet's owner.
    pub deposited: bool,
    /// The wallet accepted it with that tip.
    pub accepted: bool,
    /// How many leaves that aren't taken back sign it away from the block.
    pub sent: u64,
    /// It is withdrawn.
    pub withdrawn: bool,
    /// The wallet held it at the block before one of the changes.
    pub ever_held: bool,
    /// The wallet's exit at the block was paid.
    pub paid: bool,
    /// It was taken: another account's exit was paid while the wallet held it, or the wallet's exit ended unpaid.
    pub taken: bool,
    /// The first line, before it was taken, that met a deadline of it while the wallet held it, and that nobody
    /// attended.
    pub unattended: Option<u64>,
}

/// A leaf of a wallet: the coin that it signs away, and from which parent.
#[derive(Clone, Copy, Drop)]
pub struct Leaf {
    pub coin: u64,
    pub parent: u64,
}

/// A watcher guards a coin at this tip.
#[derive(Clone, Copy, Drop)]
pub struct Guard {
    pub watcher: u64,
    pub tip: u64,
}
