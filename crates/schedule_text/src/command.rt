ghost use Rattle.std.specs.Prelude.{◌≡◌};
ghost use Rattle.schedule_text.specs.Grammar.{node_of};

use line_forms::{HexOrItem, HexOrName};
use plasma_base::Bytes;

/// What a node is told to do.
#[derive(Drop)]
pub enum Command {
    /// A command of this wallet. Its name stands after the first word.
    Wallet {
        wallet: Bytes,
        command: WalletCommand,
    },
    /// A command of this watcher. Its name stands after the first word.
    Watcher {
        watcher: Bytes,
        command: WatcherCommand,
    },
    /// A command of the operator, whose name no token is.
    Operator {
        command: OperatorCommand,
    },
    /// `watch <node>`: a wallet or a watcher offers the calls that are due.
    Watch {
        node: Bytes,
    },
    /// `open <node>`: a node that is down is opened.
    Open {
        node: Bytes,
    },
}

/// A command of a wallet, without the wallet's name.
#[derive(Drop)]
pub enum WalletCommand {
    /// `accept <wallet> <bundle>`: takes a coin by its history.
    Accept {
        bundle: HexOrItem,
    },
    /// `send <wallet> <coin> <to> [<last>]`: signs a transfer of the coin. With `last` it names the
    /// last block that may hold it.
    Send {
        coin: u64,
        to: HexOrName,
        last: Option<u64>,
    },
    /// `again <wallet> <coin>`: the coin's transfer as it was signed.
    Again {
        coin: u64,
    },
    /// `leave <wallet> <coin>`: offers the start of an exit.
    Leave {
        coin: u64,
    },
    /// `reclaim <wallet> <bundle>`: takes a sent coin back, by absences up to the transfer's last block.
    Reclaim {
        bundle: HexOrItem,
    },
    /// `migrate <wallet>`: puts the marker into the journal of the key's leaves.
    Migrate,
}

/// A command of a watcher, without the watcher's name.
#[derive(Drop)]
pub enum WatcherCommand {
    /// `guard <watcher> <bundle>`: guards a coin, by its history.
    Guard { bundle: HexOrItem },
    /// `release <watcher> <coin> <tip>`: guards the coin at this tip no longer.
    Release { coin: u64, tip: u64 },
}

/// A command of the operator.
#[derive(Drop)]
pub enum OperatorCommand {
    /// `offer <transfer>`: takes a signed transfer into the pool.
    Offer { transfer: HexOrItem },
    /// `lay <coin> <leaf>`: puts any bytes at the coin.
    Lay { coin: u64, leaf: HexOrItem },
    /// `seal`: makes a tree of the pool, and offers its commit.
    Seal,
    /// `bundle <coin> <tip>`: the coin's history up to this tip.
    Bundle { coin: u64, tip: u64 },
    /// `prove <coin> <block>`: the opening of the block at the coin.
    Prove { coin: u64, block: u64 },
    /// `absences <coin> <after> <last>`: the openings at the coin of the blocks after `after` up to
    /// `last`.
    Absences { coin: u64, after: u64, last: u64 },
}

impl Command {
    /// The name of the node whose command it is: a wallet's or a watcher's name, or `op`.
    pub fn node(&self) -> &[u8]
        ensures { result.now ≡ node_of self.now }
    {
        match self {
            Command::Wallet { wallet, command: _ } => wallet.as_slice(),
            Command::Watcher {
                watcher,
                command: _,
            } => watcher.as_slice(),
            Command::Operator { command: _ } => b"op",
            Command::Watch { node } => node.as_slice(),
            Command::Open { node } => node.as_slice(),
        }
    }
}
