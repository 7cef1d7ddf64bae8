use super::call_form::CallForm;
use super::command::Command;
use line_forms::{HexOrName, OutcomeToken};
use lms_sign::LmsTypes;
use plasma_base::Bytes;

/// The largest number of blocks that a `chain` line may allow.
pub const MOST_BLOCKS: u64 = 3000;

/// The largest number of a leaf in a `sign` line.
pub const LAST_LEAF: u64 = 1023;

/// One line of a schedule, with its tokens in order.
#[derive(Drop)]
pub enum Line {
    /// `chain <tag> <operator> <most>`: the contract; `most` is from 1 to `MOST_BLOCKS`.
    Chain {
        tag: u64,
        operator: u64,
        most: u64,
    },
    /// `wallet <name> <account> <seed> [<lms> <ots>]`: an honest wallet. Without types its key has the
    /// types 5 and 4.
    Wallet {
        name: Bytes,
        account: u64,
        seed: u64,
        types: Option<LmsTypes>,
    },
    /// `watcher <name> <account>`: an honest watcher.
    Watcher {
        name: Bytes,
        account: u64,
    },
    /// `rogue <name> <account> <seed> [<lms> <ots>]`: a name for a stranger's account and key. Without
    /// types the key has the types 5 and 4.
    Rogue {
        name: Bytes,
        account: u64,
        seed: u64,
        types: Option<LmsTypes>,
    },
    /// `fund <account> <amount>`: money from outside.
    Fund {
        account: u64,
        amount: u64,
    },
    /// `tick <time>`: the clock is set.
    Tick {
        time: u64,
    },
    /// `money <account>`: the balance is asked for.
    Money {
        account: u64,
    },
    /// `deposit <wallet> <amount>`: a deposit by the wallet's account with its key.
    Deposit {
        wallet: Bytes,
        amount: u64,
    },
    /// `call <account> <form>`: a call on the contract.
    Call {
        account: u64,
        form: CallForm,
    },
    /// `enter <node> <number>`: the offered call of the node with this number, counted from 1.
    Enter {
        node: Bytes,
        number: u64,
    },
    /// `<command>`: a node does something.
    Command {
        command: Command,
    },
    /// `sign <rogue> <leaf> <coin> <parent> <to> [<last>]`: a signed transfer by the rogue's key at this
    /// leaf, which is at most `LAST_LEAF`. With `last` it names the last block that may hold it.
    Sign {
        rogue: Bytes,
        leaf: u64,
        coin: u64,
        parent: u64,
        to: HexOrName,
        last: Option<u64>,
    },
    /// `crash <node> <outcome>`: the node goes down, and its disks crash.
    Crash {
        node: Bytes,
        outcome: OutcomeToken,
    },
    /// `cut <node> <calls> <outcome> <command>`: the command, with so many device calls passing on each
    /// disk of the node, and then a crash.
    Cut {
        node: Bytes,
        calls: u64,
        outcome: OutcomeToken,
        command: Command,
    },
}
