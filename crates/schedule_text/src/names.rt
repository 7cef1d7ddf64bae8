use super::command_names::CommandName;

/// The first word of a line.
#[derive(Clone, Copy, PartialEq, Eq)]
pub enum LineName {
    Chain,
    Fund,
    Tick,
    Money,
    Call,
    Declaration(DeclarationName),
    Deed(DeedName),
    Command(CommandName),
}

/// The first word of a line that declares a name.
#[derive(Clone, Copy, PartialEq, Eq)]
pub enum DeclarationName {
    Wallet,
    Watcher,
    Rogue,
}

/// The first word of a line of what is done with a declared name, but for commands.
#[derive(Clone, Copy, PartialEq, Eq)]
pub enum DeedName {
    Deposit,
    Enter,
    Sign,
    Crash,
    Cut,
}

/// The first words of lines but for commands, those that come often first.
pub const LINE_NAMES: [(&[u8], LineName); 13] = [
    (b"call", LineName::Call),
    (b"enter", LineName::Deed(DeedName::Enter)),
    (b"tick", LineName::Tick),
    (b"deposit", LineName::Deed(DeedName::Deposit)),
    (b"fund", LineName::Fund),
    (b"money", LineName::Money),
    (b"sign", LineName::Deed(DeedName::Sign)),
    (b"crash", LineName::Deed(DeedName::Crash)),
    (b"cut", LineName::Deed(DeedName::Cut)),
    (b"wallet", LineName::Declaration(DeclarationName::Wallet)),
    (b"watcher", LineName::Declaration(DeclarationName::Watcher)),
    (b"rogue", LineName::Declaration(DeclarationName::Rogue)),
    (b"chain", LineName::Chain),
];
