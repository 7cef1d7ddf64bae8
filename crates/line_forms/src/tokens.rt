use plasma_base::Bytes;

/// The number of letters and digits of the longest name.
pub const NAME_BYTES: usize = 16;

/// The number of bytes of a key.
pub const KEY_BYTES: usize = 56;

/// The number of bytes of an owner: an account of eight bytes, and a key.
pub const OWNER_BYTES: usize = 64;

/// A key token or a to token: the bytes of a key or of an owner, or the name of who has it.
#[derive(Drop)]
pub enum HexOrName {
    Hex(Bytes),
    Name(Bytes),
}

/// A bytes token: a hex, or the mail item of a line, spelled `#` and the line's number.
#[derive(Drop)]
pub enum HexOrItem {
    Hex(Bytes),
    Item(u64),
}

/// A shown token: the deposit, spelled `-`, or bytes.
#[derive(Drop)]
pub enum ShownToken {
    Deposit,
    Bytes(HexOrItem),
}

/// An outcome: what a crash leaves of a disk. The bytes of a mix aren't empty.
#[derive(Drop)]
pub enum OutcomeToken {
    /// `old`
    Old,
    /// `new`
    New,
    /// `mix <extra> <hex>`
    Mix { extra: u64, bytes: Bytes },
}

/// The first word of an outcome.
#[derive(Clone, Copy, PartialEq, Eq)]
pub enum OutcomeName {
    Old,
    New,
    Mix,
}

/// The first words of outcomes.
pub const OUTCOME_NAMES: [(&[u8], OutcomeName); 3] = [
    (b"old", OutcomeName::Old),
    (b"new", OutcomeName::New),
    (b"mix", OutcomeName::Mix),
];
