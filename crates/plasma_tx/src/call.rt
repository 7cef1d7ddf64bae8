ghost use Rattle.std.specs.Prelude.{◌≡◌, IfOk};
ghost use Rattle.plasma_tx.specs.Views.{block_of};

use super::opening::RawOpening;
use plasma_base::NoMemory;

/// What is shown of a coin at a block: that it was deposited there, or a transfer in that block.
#[derive(Drop)]
pub enum Shown {
    Deposit { block: u64 },
    Spend { opening: RawOpening },
}

impl Shown {
    /// The block that is shown.
    pub fn block(&self) -> u64
        ensures { result ≡ block_of self.now }
    {
        match self {
            Shown::Deposit { block } => *block,
            Shown::Spend { opening } => opening.block,
        }
    }

    /// An equal value, or `NoMemory`.
    pub fn copy(&self) -> Result<Shown, NoMemory>
        ensures { IfOk result (λ copied. copied ≡ self.now) }
    {
        match self {
            Shown::Deposit { block } => Ok(Shown::Deposit { block: *block }),
            Shown::Spend { opening } => Ok(Shown::Spend {
                opening: opening.copy()?,
            }),
        }
    }
}

/// A call as an event of a log, which is the call itself.
pub type RootEvent = RootCall;

/// A call on the root contract. The log holds the accepted ones. An exit is named by its coin and
/// its block.
#[derive(Drop)]
pub enum RootCall {
    /// Money comes to an account from outside.
    Fund {
        account: u64,
        amount: u64,
    },
    /// The clock is set, in seconds.
    Tick {
        now: u64,
    },
    /// The account's money becomes a coin, which this key owns.
    Deposit {
        account: u64,
        amount: u64,
        key: [u8; 56],
    },
    /// The operator commits the root of a block.
    Commit {
        account: u64,
        root: [u8; 32],
    },
    /// The depositor begins to take the coin back, at its deposit block.
    StartDeposit {
        account: u64,
        coin: u64,
        block: u64,
    },
    /// The new owner of a transfer begins to take the coin out. The transfer and what it spends are
    /// shown.
    StartSpend {
        account: u64,
        coin: u64,
        parent: Shown,
        exit: RawOpening,
    },
    /// A later transfer that spends the exit's block cancels the exit.
    After {
        account: u64,
        coin: u64,
        exit: u64,
        spend: RawOpening,
    },
    /// An earlier transfer that spends the exit's parent cancels the exit.
    Between {
        account: u64,
        coin: u64,
        exit: u64,
        spend: RawOpening,
    },
    /// The exit is challenged at a block before its parent.
    Before {
        account: u64,
        coin: u64,
        exit: u64,
        shown: Shown,
    },
    /// The challenge at the block `challenged` is answered by a transfer that spends that block.
    Respond {
        account: u64,
        coin: u64,
        exit: u64,
        challenged: u64,
        spend: RawOpening,
    },
    /// The exit is paid or dropped.
    Finish {
        account: u64,
        coin: u64,
        exit: u64,
    },
}

impl RootCall {
    /// An equal call, or `NoMemory`.
    pub fn copy(&self) -> Result<RootCall, NoMemory>
        ensures { IfOk result (λ copied. copied ≡ self.now) }
    {
        Ok(match self {
            RootCall::Fund { account, amount } => RootCall::Fund {
                account: *account,
                amount: *amount,
            },
            RootCall::Tick { now } => RootCall::Tick { now: *now },
            RootCall::Deposit {
                account,
                amount,
                key,
            } => RootCall::Deposit {
                account: *account,
                amount: *amount,
                key: *key,
            },
            RootCall::Commit { account, root } => RootCall::Commit {
                account: *account,
                root: *root,
            },
            RootCall::StartDeposit {
                account,
                coin,
                block,
            } => RootCall::StartDeposit {
                account: *account,
                coin: *coin,
                block: *block,
            },
            RootCall::StartSpend {
                account,
                coin,
                parent,
                exit,
            } => RootCall::StartSpend {
                account: *account,
                coin: *coin,
                parent: parent.copy()?,
                exit: exit.copy()?,
            },
            RootCall::After {
                account,
                coin,
                exit,
                spend,
            } => RootCall::After {
                account: *account,
                coin: *coin,
                exit: *exit,
                spend: spend.copy()?,
            },
            RootCall::Between {
                account,
                coin,
                exit,
                spend,
            } => RootCall::Between {
                account: *account,
                coin: *coin,
                exit: *exit,
                spend: spend.copy()?,
            },
            RootCall::Before {
                account,
                coin,
                exit,
                shown,
            } => RootCall::Before {
                account: *account,
                coin: *coin,
                exit: *exit,
                shown: shown.copy()?,
            },
            RootCall::Respond {
                account,
                coin,
                exit,
                challenged,
                spend,
            } => RootCall::Respond {
                account: *account,
                coin: *coin,
                exit: *exit,
                challenged: *challenged,
                spend: spend.copy()?,
            },
            RootCall::Finish {
                account,
                coin,
                exit,
            } => RootCall::Finish {
                account: *account,
                coin: *coin,
                exit: *exit,
            },
        })
    }
}
