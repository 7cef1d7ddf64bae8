ghost use Rattle.std.specs.Prelude.{◌≡◌, ◌++◌, [], length, take, OnOk, OnErr};
ghost use Rattle.line_forms.specs.Words.{trailed};
ghost use Rattle.line_forms.specs.Pieces.{words_then};
ghost use Rattle.schedule_text.specs.Grammar.{command};
ghost use Rattle.schedule_text.specs.declared.command.Command.{Command};

use super::command::{Command, OperatorCommand, WalletCommand, WatcherCommand};
use super::printing::push_row;
use line_forms::Piece::{Name, Number, OptionalNumber};
use line_forms::{Piece, push_pieces};
use plasma_base::NoMemory;

// Puts the words of a wallet's command at the end, a blank after each.
#[tactic(auto, using(line_forms::proofs::PrintLaws::words))]
fn push_wallet_command<'a>(
    out: &mut Vec<u8>,
    wallet: &'a [u8],
    own: &'a WalletCommand,
) -> Result<(), NoMemory>
    ensures ok { OnOk result (out.new.items
        ≡ out.old.items ++ trailed (command.words (Command.Wallet wallet.now own.now))) }
    ensures front { take (length out.old.items) out.new.items ≡ out.old.items }
{
    match own {
        WalletCommand::Accept { bundle } => push_pieces(
            out,
            &[Name(b"accept"), Name(wallet), bundle.piece()],
        ),
        WalletCommand::Send { coin, to, last } => push_pieces(
            out,
            &[
                Name(b"send"),
                Name(wallet),
                Number(*coin),
                to.piece(),
                OptionalNumber(*last),
            ],
        ),
        WalletCommand::Again { coin } => push_pieces(
            out,
            &[Name(b"again"), Name(wallet), Number(*coin)],
        ),
        WalletCommand::Leave { coin } => push_pieces(
            out,
            &[Name(b"leave"), Name(wallet), Number(*coin)],
        ),
        WalletCommand::Reclaim { bundle } => push_pieces(
            out,
            &[Name(b"reclaim"), Name(wallet), bundle.piece()],
        ),
        WalletCommand::Migrate => push_pieces(out, &[Name(b"migrate"), Name(wallet)]),
    }
}

// Puts the words of a watcher's command at the end, a blank after each.
#[tactic(auto, using(line_forms::proofs::PrintLaws::words))]
fn push_watcher_command<'a>(
    out: &mut Vec<u8>,
    watcher: &'a [u8],
    own: &'a WatcherCommand,
) -> Result<(), NoMemory>
    ensures ok { OnOk result (out.new.items
        ≡ out.old.items ++ trailed (command.words (Command.Watcher watcher.now own.now))) }
    ensures front { take (length out.old.items) out.new.items ≡ out.old.items }
{
    match own {
        WatcherCommand::Guard { bundle } => push_pieces(
            out,
            &[Name(b"guard"), Name(watcher), bundle.piece()],
        ),
        WatcherCommand::Release { coin, tip } => push_pieces(
            out,
            &[Name(b"release"), Name(watcher), Number(*coin), Number(*tip)],
        ),
    }
}

// Puts the words of an operator's command at the end, a blank after each.
#[tactic(auto, using(line_forms::proofs::PrintLaws::words))]
fn push_operator_command(out: &mut Vec<u8>, own: &OperatorCommand) -> Result<(), NoMemory>
    ensures ok { OnOk result (out.new.items ≡ out.old.items ++ trailed (command.words (Command.Operator own.now))) }
    ensures front { take (length out.old.items) out.new.items ≡ out.old.items }
{
    match own {
        OperatorCommand::Offer { transfer } => push_row(out, b"offer", &[], transfer.piece()),
        OperatorCommand::Lay { coin, leaf } => push_row(out, b"lay", &[*coin], leaf.piece()),
        OperatorCommand::Seal => push_pieces(out, &[Name(b"seal")]),
        OperatorCommand::Bundle { coin, tip } => push_row(out, b"bundle", &[*coin], Number(*tip)),
        OperatorCommand::Prove { coin, block } => push_row(out, b"prove", &[*coin], Number(*block)),
        OperatorCommand::Absences { coin, after, last } => {
            push_row(out, b"absences", &[*coin, *after], Number(*last))
        }
    }
}

/// Puts the words of a command at the end, a blank after each.
#[tactic(auto, using(line_forms::proofs::PrintLaws::words))]
pub fn push_command(out: &mut Vec<u8>, own: &Command) -> Result<(), NoMemory>
    ensures ok { OnOk result (out.new.items ≡ out.old.items ++ trailed (command.words own.now)) }
    ensures front { take (length out.old.items) out.new.items ≡ out.old.items }
{
    match own {
        Command::Wallet { wallet, command } => {
            push_wallet_command(out, wallet.as_slice(), command)
        }
        Command::Watcher { watcher, command } => {
            push_watcher_command(out, watcher.as_slice(), command)
        }
        Command::Operator { command } => push_operator_command(out, command),
        Command::Watch { node } => push_pieces(out, &[Name(b"watch"), Name(node.as_slice())]),
        Command::Open { node } => push_pieces(out, &[Name(b"open"), Name(node.as_slice())]),
    }
}

/// Puts the words of pieces and of a command at the end, a blank after each.
#[tactic(auto, using(line_forms::proofs::PrintLaws::words))]
pub fn push_with_command(
    out: &mut Vec<u8>,
    pieces: &[Piece<'_>],
    own: &Command,
) -> Result<(), NoMemory>
    ensures ok { OnOk result (out.new.items
        ≡ out.old.items ++ trailed (words_then pieces.now (command.words own.now ++ []))) }
    ensures front { take (length out.old.items) out.new.items ≡ out.old.items }
{
    push_pieces(out, pieces)?;
    push_command(out, own)
}
