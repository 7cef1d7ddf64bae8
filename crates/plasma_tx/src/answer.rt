use thiserror::Error;

/// Why a call is refused. A refused call changes nothing.
#[derive(Debug, Clone, Copy, PartialEq, Eq, Error)]
pub enum Refusal {
    /// All money ever funded would pass the limit.
    #[error("all money funded would pass the limit")]
    SumTooLarge,
    /// The time is before the clock, which shows `now`.
    #[error("the time is before {now}")]
    ClockBack { now: u64 },
    /// The time is past the limit.
    #[error("the time is past the limit")]
    ClockTooLarge,
    /// The amount is 0.
    #[error("the amount is 0")]
    BadAmount,
    /// The two type numbers of the key are no supported pair.
    #[error("the key doesn't read")]
    BadKey,
    /// The account's balance is less than what is needed.
    #[error("the account has {has} of {needs}")]
    NoFunds { has: u64, needs: u64 },
    /// There are as many blocks as the contract takes.
    #[error("no further block is allowed")]
    TooManyBlocks,
    /// The account isn't the operator's.
    #[error("the account isn't the operator's")]
    NotOperator,
    /// No Deposit made the coin.
    #[error("there is no such coin")]
    NoCoin,
    /// The coin was paid out.
    #[error("the coin is withdrawn")]
    Withdrawn,
    /// A block isn't one that the call may name.
    #[error("the block isn't one of those that the call may name")]
    BadBlock,
    /// The account isn't the owner's.
    #[error("the account isn't the owner's")]
    NotOwner,
    /// The exit stands already.
    #[error("this exit stands already")]
    ExitStands,
    /// An opening doesn't read, doesn't open its block's root, or shows no transfer of the coin.
    #[error("an opening shows no transfer of the coin in its block")]
    BadOpening,
    /// The transfer's parent isn't the block that it has to spend.
    #[error("the transfer doesn't spend that block")]
    NotChild,
    /// The owner before didn't sign the transfer.
    #[error("the owner before didn't sign the transfer")]
    BadSignature,
    /// No such exit stands.
    #[error("no such exit stands")]
    NoExit,
    /// The window for the call is over.
    #[error("the window is over")]
    Late,
    /// The exit was challenged at that block.
    #[error("the exit was challenged at that block")]
    ChallengeStands,
    /// The exit wasn't challenged at that block.
    #[error("the exit wasn't challenged at that block")]
    NoChallenge,
    /// The challenge is answered.
    #[error("the challenge is answered")]
    Answered,
    /// The exit may be finished from the time `opens`.
    #[error("the exit may be finished from {opens}")]
    Early { opens: u64 },
}

/// The answer to a call. Times are in seconds.
#[derive(Clone, Copy, PartialEq, Eq)]
pub enum Answer {
    Funded,
    Ticked,
    /// The new coin and its block.
    Deposited { coin: u64, block: u64 },
    /// The new block.
    Committed { block: u64 },
    /// The time from which the exit may be finished.
    Started { opens: u64 },
    /// The exit is over without payment.
    Cancelled,
    /// The time up to which the challenge may be answered.
    Challenged { until: u64 },
    /// The challenge is answered.
    Responded,
    /// The exit's account got the amount and the bond, and the coin is withdrawn.
    Paid,
    /// The exit is over and the coin isn't paid by it.
    Dropped,
    Refused(Refusal),
    /// Memory ran out, and nothing changed.
    NoMemory,
}
