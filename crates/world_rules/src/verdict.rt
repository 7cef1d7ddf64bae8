use plasma_base::Bytes;

/// What became of a coin that a wallet ever held.
#[derive(Drop)]
pub struct Verdict {
    /// The wallet's name.
    pub wallet: Bytes,
    pub coin: u64,
    pub kind: VerdictKind,
}

/// The kinds of verdict.
#[derive(Clone, Copy, PartialEq, Eq)]
pub enum VerdictKind {
    /// None of the others.
    Held,
    /// The wallet's exit of it was paid.
    Paid,
    /// A leaf of the wallet that isn't taken back signs it away.
    Away,
    /// It was taken, although each tick before that met a deadline of the held coin was attended.
    Lost,
    /// It was taken; this line is the first tick before that met a deadline of the held coin and wasn't
    /// attended.
    Unattended { line: u64 },
}

/// What a trace shows that excuses a loss.
#[derive(Drop)]
pub enum Exhibit {
    /// Neither of the two.
    Nothing,
    /// Two byte strings with one digest.
    Collision { first: Bytes, second: Bytes },
    /// This line shows a valid signature that its honest key never made.
    Forgery { line: u64 },
}

/// How much there is of a run, in the order in which it is printed.
#[derive(Clone, Copy, PartialEq, Eq)]
pub struct Counts {
    pub lines: u64,
    /// The contract lines that were accepted.
    pub accepted: u64,
    /// The lines whose answer begins with `refused`.
    pub refused: u64,
    pub blocks: u64,
    pub coins: u64,
    /// The verdicts of each kind.
    pub held: u64,
    pub paid: u64,
    pub away: u64,
    pub lost: u64,
    pub unattended: u64,
}
