/// The first word of a command.
#[derive(Clone, Copy, PartialEq, Eq)]
pub enum CommandName {
    Wallet(WalletCommandName),
    Watcher(WatcherCommandName),
    Operator(OperatorCommandName),
    Watch,
    Open,
}

/// The first word of a wallet's command.
#[derive(Clone, Copy, PartialEq, Eq)]
pub enum WalletCommandName {
    Accept,
    Send,
    Again,
    Leave,
    Reclaim,
    Migrate,
}

/// The first word of a watcher's command.
#[derive(Clone, Copy, PartialEq, Eq)]
pub enum WatcherCommandName {
    Guard,
    Release,
}

/// The first word of an operator's command.
#[derive(Clone, Copy, PartialEq, Eq)]
pub enum OperatorCommandName {
    Offer,
    Lay,
    Seal,
    Bundle,
    Prove,
    Absences,
}

/// The first words of commands, those that come often first.
pub const COMMAND_NAMES: [(&[u8], CommandName); 16] = [
    (b"watch", CommandName::Watch),
    (b"send", CommandName::Wallet(WalletCommandName::Send)),
    (b"accept", CommandName::Wallet(WalletCommandName::Accept)),
    (b"offer", CommandName::Operator(OperatorCommandName::Offer)),
    (b"seal", CommandName::Operator(OperatorCommandName::Seal)),
    (
        b"bundle",
        CommandName::Operator(OperatorCommandName::Bundle),
    ),
    (b"prove", CommandName::Operator(OperatorCommandName::Prove)),
    (b"guard", CommandName::Watcher(WatcherCommandName::Guard)),
    (b"leave", CommandName::Wallet(WalletCommandName::Leave)),
    (b"again", CommandName::Wallet(WalletCommandName::Again)),
    (b"lay", CommandName::Operator(OperatorCommandName::Lay)),
    (
        b"release",
        CommandName::Watcher(WatcherCommandName::Release),
    ),
    (b"open", CommandName::Open),
    (b"migrate", CommandName::Wallet(WalletCommandName::Migrate)),
    (b"reclaim", CommandName::Wallet(WalletCommandName::Reclaim)),
    (
        b"absences",
        CommandName::Operator(OperatorCommandName::Absences),
    ),
];
