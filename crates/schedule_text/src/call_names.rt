/// The first word of a form of a call.
#[derive(Clone, Copy, PartialEq, Eq)]
pub enum CallName {
    Deposit,
    Commit,
    Start,
    Exit,
    Challenge(ChallengeName),
    Finish,
}

/// The first word of a form that challenges an exit or answers a challenge.
#[derive(Clone, Copy, PartialEq, Eq)]
pub enum ChallengeName {
    After,
    Between,
    Before,
    Respond,
}

/// The first words of the forms of a call.
pub const CALL_NAMES: [(&[u8], CallName); 9] = [
    (b"deposit", CallName::Deposit),
    (b"commit", CallName::Commit),
    (b"start", CallName::Start),
    (b"exit", CallName::Exit),
    (b"after", CallName::Challenge(ChallengeName::After)),
    (b"between", CallName::Challenge(ChallengeName::Between)),
    (b"before", CallName::Challenge(ChallengeName::Before)),
    (b"respond", CallName::Challenge(ChallengeName::Respond)),
    (b"finish", CallName::Finish),
];
