use line_forms::{HexOrItem, HexOrName, ShownToken};
use plasma_base::Bytes;

/// The number of bytes of a block's root.
pub const ROOT_BYTES: usize = 32;

/// The form of a `call` line, after the account. Openings are bytes tokens.
#[derive(Drop)]
pub enum CallForm {
    /// `deposit <amount> <key>`: money for a new coin of the key's owner.
    Deposit {
        amount: u64,
        key: HexOrName,
    },
    /// `commit <root>`: a block with this root, a hex of `ROOT_BYTES` bytes.
    Commit {
        root: Bytes,
    },
    /// `start <coin> <block>`: an exit of the deposit in that block.
    Start {
        coin: u64,
        block: u64,
    },
    /// `exit <coin> <parent> <shown> <exit> <opening>`: an exit of the transfer in block `exit`, whose
    /// parent in block `parent` is shown.
    Exit {
        coin: u64,
        parent: u64,
        shown: ShownToken,
        exit: u64,
        opening: HexOrItem,
    },
    /// `after <coin> <exit> <block> <opening>`: a later spend, in that block, of what the exit shows.
    After {
        coin: u64,
        exit: u64,
        block: u64,
        opening: HexOrItem,
    },
    /// `between <coin> <exit> <block> <opening>`: another spend, in that block, of the exit's parent.
    Between {
        coin: u64,
        exit: u64,
        block: u64,
        opening: HexOrItem,
    },
    /// `before <coin> <exit> <block> <shown>`: an older transaction, in that block, of the coin.
    Before {
        coin: u64,
        exit: u64,
        block: u64,
        shown: ShownToken,
    },
    /// `respond <coin> <exit> <challenged> <block> <opening>`: a spend, in that block, of the
    /// challenged transaction.
    Respond {
        coin: u64,
        exit: u64,
        challenged: u64,
        block: u64,
        opening: HexOrItem,
    },
    /// `finish <coin> <exit>`: the end of an exit.
    Finish {
        coin: u64,
        exit: u64,
    },
}
