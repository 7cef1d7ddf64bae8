ghost use Rattle.std.specs.Prelude.{◌≡◌, true, Some, None, Err, IfOk};
ghost use Rattle.std.specs.Map.{lookup};
ghost use Rattle.std.specs.Str.{bytes_eq};
ghost use Rattle.line_forms.specs.Forms.{take_form, takes};
ghost use Rattle.schedule_text.specs.Grammar.{commands, command_form, wallet_form, watcher_form, operator_form, command_has_bytes};
ghost use Rattle.schedule_text.specs.declared.command_names.CommandName.{CommandName};

use super::command::{Command, OperatorCommand, WalletCommand, WatcherCommand};
use super::command_names::{
    COMMAND_NAMES, CommandName, OperatorCommandName, WalletCommandName, WatcherCommandName,
};
use line_forms::{LineRefusal, Words, named};
use std::alloc::Global;

// The wallet's command with this first word.
fn wallet_command(
    alloc: Global,
    name: WalletCommandName,
    words: &mut Words<'_>,
) -> Result<Command, LineRefusal>
    ensures found { IfOk result (λ command. takes (wallet_form name) words.old ≡ Some (command, words.new)) }
    ensures bad { result ≡ Err LineRefusal.BadLine → takes (wallet_form name) words.old ≡ None }
{
    match name {
        WalletCommandName::Accept => Ok(Command::Wallet {
            wallet: words.name(alloc)?,
            command: WalletCommand::Accept {
                bundle: words.bytes(alloc)?,
            },
        }),
        WalletCommandName::Send => send(alloc, words),
        WalletCommandName::Again => Ok(Command::Wallet {
            wallet: words.name(alloc)?,
            command: WalletCommand::Again {
                coin: words.number()?,
            },
        }),
        WalletCommandName::Leave => Ok(Command::Wallet {
            wallet: words.name(alloc)?,
            command: WalletCommand::Leave {
                coin: words.number()?,
            },
        }),
        WalletCommandName::Reclaim => Ok(Command::Wallet {
            wallet: words.name(alloc)?,
            command: WalletCommand::Reclaim {
                bundle: words.bytes(alloc)?,
            },
        }),
        WalletCommandName::Migrate => Ok(Command::Wallet {
            wallet: words.name(alloc)?,
            command: WalletCommand::Migrate,
        }),
    }
}

// `send <wallet> <coin> <to> [<last>]`, after its first word.
fn send(alloc: Global, words: &mut Words<'_>) -> Result<Command, LineRefusal>
    ensures found { IfOk result
        (λ command. takes (wallet_form WalletCommandName.Send) words.old ≡ Some (command, words.new)) }
    ensures bad { result ≡ Err LineRefusal.BadLine → takes (wallet_form WalletCommandName.Send) words.old ≡ None }
{
    Ok(Command::Wallet {
        wallet: words.name(alloc)?,
        command: WalletCommand::Send {
            coin: words.number()?,
            to: words.to(alloc)?,
            last: words.optional_number()?,
        },
    })
}

// The watcher's command with this first word.
fn watcher_command(
    alloc: Global,
    name: WatcherCommandName,
    words: &mut Words<'_>,
) -> Result<Command, LineRefusal>
    ensures found { IfOk result (λ command. takes (watcher_form name) words.old ≡ Some (command, words.new)) }
    ensures bad { result ≡ Err LineRefusal.BadLine → takes (watcher_form name) words.old ≡ None }
{
    match name {
        WatcherCommandName::Guard => Ok(Command::Watcher {
            watcher: words.name(alloc)?,
            command: WatcherCommand::Guard {
                bundle: words.bytes(alloc)?,
            },
        }),
        WatcherCommandName::Release => Ok(Command::Watcher {
            watcher: words.name(alloc)?,
            command: WatcherCommand::Release {
                coin: words.number()?,
                tip: words.number()?,
            },
        }),
    }
}

// The operator's command with this first word.
fn operator_command(
    alloc: Global,
    name: OperatorCommandName,
    words: &mut Words<'_>,
) -> Result<Command, LineRefusal>
    ensures found { IfOk result (λ command. takes (operator_form name) words.old ≡ Some (command, words.new)) }
    ensures bad { result ≡ Err LineRefusal.BadLine → takes (operator_form name) words.old ≡ None }
    ensures memory { result ≡ Err LineRefusal.NoMemory → command_has_bytes (CommandName.Operator name) ≡ true }
{
    match name {
        OperatorCommandName::Offer => Ok(of_operator(OperatorCommand::Offer {
            transfer: words.bytes(alloc)?,
        })),
        OperatorCommandName::Lay => Ok(of_operator(OperatorCommand::Lay {
            coin: words.number()?,
            leaf: words.bytes(alloc)?,
        })),
        OperatorCommandName::Seal => Ok(of_operator(OperatorCommand::Seal)),
        OperatorCommandName::Bundle => Ok(of_operator(OperatorCommand::Bundle {
            coin: words.number()?,
            tip: words.number()?,
        })),
        OperatorCommandName::Prove => Ok(of_operator(OperatorCommand::Prove {
            coin: words.number()?,
            block: words.number()?,
        })),
        OperatorCommandName::Absences => Ok(of_operator(OperatorCommand::Absences {
            coin: words.number()?,
            after: words.number()?,
            last: words.number()?,
        })),
    }
}

fn of_operator(command: OperatorCommand) -> Command
    ensures { result ≡ Command.Operator command }
{
    Command::Operator { command }
}

/// The command with this first word.
pub fn command_of(
    alloc: Global,
    name: CommandName,
    words: &mut Words<'_>,
) -> Result<Command, LineRefusal>
    ensures found { IfOk result (λ command. takes (command_form name) words.old ≡ Some (command, words.new)) }
    ensures bad { result ≡ Err LineRefusal.BadLine → takes (command_form name) words.old ≡ None }
    ensures memory { result ≡ Err LineRefusal.NoMemory → command_has_bytes name ≡ true }
{
    match name {
        CommandName::Wallet(name) => wallet_command(alloc, name, words),
        CommandName::Watcher(name) => watcher_command(alloc, name, words),
        CommandName::Operator(name) => operator_command(alloc, name, words),
        CommandName::Watch => Ok(Command::Watch {
            node: words.name(alloc)?,
        }),
        CommandName::Open => Ok(Command::Open {
            node: words.name(alloc)?,
        }),
    }
}

/// The command that a word begins.
pub fn command_name(word: &[u8]) -> Option<CommandName>
    ensures { result ≡ lookup (bytes_eq word.now) commands.names }
{
    named(&COMMAND_NAMES, word)
}

/// The command that the next words spell.
pub fn command(alloc: Global, words: &mut Words<'_>) -> Result<Command, LineRefusal>
    ensures found { IfOk result (λ command. take_form commands words.old ≡ Some (command, words.new)) }
    ensures bad { result ≡ Err LineRefusal.BadLine → take_form commands words.old ≡ None }
{
    let word = words.next().ok_or(LineRefusal::BadLine)?;
    let name = command_name(word).ok_or(LineRefusal::BadLine)?;
    command_of(alloc, name, words)
}
