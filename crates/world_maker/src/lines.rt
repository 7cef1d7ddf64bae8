ghost use Rattle.std.specs.Prelude.{◌≡◌, Some, None, IfOk};
ghost use Rattle.line_forms.specs.declared.tokens.HexOrItem.{HexOrItem};
ghost use Rattle.line_forms.specs.declared.tokens.HexOrName.{HexOrName};
ghost use Rattle.line_forms.specs.declared.tokens.OutcomeToken.{OutcomeToken};
ghost use Rattle.schedule_text.specs.declared.line.Line.{Line};
ghost use Rattle.world_maker.specs.Generator.{send, accept, leave, guard, offer, seal, bundle, watch, open_node};

use line_forms::{HexOrItem, HexOrName, OutcomeToken};
use plasma_base::{Bytes, NoMemory};
use schedule_text::{Command, Line, OperatorCommand, WalletCommand, WatcherCommand};
use std::alloc::Global;

// A name as a token.
fn token(alloc: Global, name: &[u8]) -> Result<Bytes, NoMemory>
    ensures { IfOk result (λ token. token ≡ name.now) }
{
    Ok(Bytes::from_vec(name.to_vec(alloc)?))
}

/// `wallet <name> <account> <seed>`, with a key of the types 5 and 4.
pub fn wallet_line(alloc: Global, name: &[u8], account: u64, seed: u64) -> Result<Line, NoMemory>
    ensures { IfOk result (λ line. line ≡ Line.Wallet name.now account seed None) }
{
    Ok(Line::Wallet {
        name: token(alloc, name)?,
        account,
        seed,
        types: None,
    })
}

/// `watcher <name> <account>`
pub fn watcher_line(alloc: Global, name: &[u8], account: u64) -> Result<Line, NoMemory>
    ensures { IfOk result (λ line. line ≡ Line.Watcher name.now account) }
{
    Ok(Line::Watcher {
        name: token(alloc, name)?,
        account,
    })
}

/// `fund <account> 1000000`
pub fn fund_line(account: u64) -> Line
    ensures { result ≡ Line.Fund account 1000000 }
{
    Line::Fund {
        account,
        amount: 1_000_000,
    }
}

/// `deposit <wallet> <amount>`
pub fn deposit_line(alloc: Global, wallet: &[u8], amount: u64) -> Result<Line, NoMemory>
    ensures { IfOk result (λ line. line ≡ Line.Deposit wallet.now amount) }
{
    Ok(Line::Deposit {
        wallet: token(alloc, wallet)?,
        amount,
    })
}

/// `enter <node> 1`
pub fn enter_line(alloc: Global, node: &[u8]) -> Result<Line, NoMemory>
    ensures { IfOk result (λ line. line ≡ Line.Enter node.now 1) }
{
    Ok(Line::Enter {
        node: token(alloc, node)?,
        number: 1,
    })
}

/// `crash <node> old`
pub fn crash_line(alloc: Global, node: &[u8]) -> Result<Line, NoMemory>
    ensures { IfOk result (λ line. line ≡ Line.Crash node.now OutcomeToken.Old) }
{
    Ok(Line::Crash {
        node: token(alloc, node)?,
        outcome: OutcomeToken::Old,
    })
}

// The line of a wallet's command.
fn wallet_command(alloc: Global, wallet: &[u8], command: WalletCommand) -> Result<Line, NoMemory>
    ensures { IfOk result (λ line. line ≡ Line.Command (Command.Wallet wallet.now command)) }
{
    Ok(Line::Command {
        command: Command::Wallet {
            wallet: token(alloc, wallet)?,
            command,
        },
    })
}

/// `send <wallet> <coin> <payee>`
pub fn send_line(alloc: Global, wallet: &[u8], coin: u64, payee: &[u8]) -> Result<Line, NoMemory>
    ensures { IfOk result (λ line. line ≡ send wallet.now coin payee.now) }
{
    let to = HexOrName::Name(token(alloc, payee)?);
    wallet_command(
        alloc,
        wallet,
        WalletCommand::Send {
            coin,
            to,
            last: None,
        },
    )
}

/// `accept <wallet> #<item>`
pub fn accept_line(alloc: Global, wallet: &[u8], item: u64) -> Result<Line, NoMemory>
    ensures { IfOk result (λ line. line ≡ accept wallet.now item) }
{
    let bundle = HexOrItem::Item(item);
    wallet_command(alloc, wallet, WalletCommand::Accept { bundle })
}

/// `leave <wallet> <coin>`
pub fn leave_line(alloc: Global, wallet: &[u8], coin: u64) -> Result<Line, NoMemory>
    ensures { IfOk result (λ line. line ≡ leave wallet.now coin) }
{
    wallet_command(alloc, wallet, WalletCommand::Leave { coin })
}

/// `guard <watcher> #<item>`
pub fn guard_line(alloc: Global, watcher: &[u8], item: u64) -> Result<Line, NoMemory>
    ensures { IfOk result (λ line. line ≡ guard watcher.now item) }
{
    Ok(Line::Command {
        command: Command::Watcher {
            watcher: token(alloc, watcher)?,
            command: WatcherCommand::Guard {
                bundle: HexOrItem::Item(item),
            },
        },
    })
}

// The line of a command of the operator.
fn operator_line(command: OperatorCommand) -> Line
    ensures { result ≡ Line.Command (Command.Operator command) }
{
    Line::Command {
        command: Command::Operator { command },
    }
}

/// `offer #<item>`
pub fn offer_line(item: u64) -> Line
    ensures { result ≡ offer item }
{
    operator_line(OperatorCommand::Offer {
        transfer: HexOrItem::Item(item),
    })
}

/// `seal`
pub fn seal_line() -> Line
    ensures { result ≡ seal }
{
    operator_line(OperatorCommand::Seal)
}

/// `bundle <coin> 0`: up to the present tip.
pub fn bundle_line(coin: u64) -> Line
    ensures { result ≡ bundle coin 0 }
{
    operator_line(OperatorCommand::Bundle { coin, tip: 0 })
}

/// `watch <node>`
pub fn watch_line(alloc: Global, node: &[u8]) -> Result<Line, NoMemory>
    ensures { IfOk result (λ line. line ≡ watch node.now) }
{
    Ok(Line::Command {
        command: Command::Watch {
            node: token(alloc, node)?,
        },
    })
}

/// `open <node>`
pub fn open_line(alloc: Global, node: &[u8]) -> Result<Line, NoMemory>
    ensures { IfOk result (λ line. line ≡ open_node node.now) }
{
    Ok(Line::Command {
        command: Command::Open {
            node: token(alloc, node)?,
        },
    })
}
