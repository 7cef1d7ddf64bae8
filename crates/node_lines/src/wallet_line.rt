ghost use Rattle.std.specs.Prelude.{◌≡◌, true, Some, None, Err, IfOk};
ghost use Rattle.line_forms.specs.Forms.{takes};
ghost use Rattle.node_lines.specs.Grammar.{wallet_form, wallet_has_bytes, wallet_line_in, wallet_begins_with_bytes, IsWalletLine};

use super::owner_word::take_owner;
use line_forms::{LineRefusal, Words, named};
use node_replies::WalletOrder;
use std::alloc::Global;

/// A command of a wallet's run.
#[derive(Drop)]
pub enum WalletLine {
    /// An order: `accept <hex>`, `send <coin> <hex of 64 bytes> [<last>]`, `again <coin>`, `leave <coin>`,
    /// `reclaim <hex>`, `migrate` or `watch`.
    Order { order: WalletOrder },
    /// `state <coin>`: how the coin stands with the wallet.
    State { coin: u64 },
    /// `who`: the wallet's owner.
    Who,
}

/// The first word of a wallet's command.
#[derive(Clone, Copy, PartialEq, Eq)]
pub enum WalletLineName {
    Accept,
    Send,
    Again,
    Leave,
    Reclaim,
    Migrate,
    Watch,
    State,
    Who,
}

/// The first words of a wallet's commands.
pub const WALLET_LINE_NAMES: [(&[u8], WalletLineName); 9] = [
    (b"accept", WalletLineName::Accept),
    (b"send", WalletLineName::Send),
    (b"again", WalletLineName::Again),
    (b"leave", WalletLineName::Leave),
    (b"reclaim", WalletLineName::Reclaim),
    (b"migrate", WalletLineName::Migrate),
    (b"watch", WalletLineName::Watch),
    (b"state", WalletLineName::State),
    (b"who", WalletLineName::Who),
];

// A command that is an order.
fn of_order(order: WalletOrder) -> WalletLine
    ensures { result ≡ WalletLine.Order order }
{
    WalletLine::Order { order }
}

// The command with this first word.
fn wallet_line_of(
    alloc: Global,
    name: WalletLineName,
    words: &mut Words<'_>,
) -> Result<WalletLine, LineRefusal>
    ensures found { IfOk result (λ line. takes (wallet_form name) words.old ≡ Some (line, words.new)) }
    ensures bad { result ≡ Err LineRefusal.BadLine → takes (wallet_form name) words.old ≡ None }
    ensures memory { result ≡ Err LineRefusal.NoMemory → wallet_has_bytes name ≡ true }
{
    match name {
        WalletLineName::Accept => Ok(of_order(WalletOrder::Accept {
            bundle: words.hex(alloc)?,
        })),
        WalletLineName::Send => Ok(of_order(WalletOrder::Send {
            coin: words.number()?,
            to: take_owner(alloc, words)?,
            last: words.optional_number()?,
        })),
        WalletLineName::Again => Ok(of_order(WalletOrder::Again {
            coin: words.number()?,
        })),
        WalletLineName::Leave => Ok(of_order(WalletOrder::Leave {
            coin: words.number()?,
        })),
        WalletLineName::Reclaim => Ok(of_order(WalletOrder::Reclaim {
            bundle: words.hex(alloc)?,
        })),
        WalletLineName::Migrate => Ok(of_order(WalletOrder::Migrate)),
        WalletLineName::Watch => Ok(of_order(WalletOrder::Watch)),
        WalletLineName::State => Ok(WalletLine::State {
            coin: words.number()?,
        }),
        WalletLineName::Who => Ok(WalletLine::Who),
    }
}

/// The wallet's command that a line spells, without a line feed. It refuses `BadLine` exactly where it
/// spells none, and takes memory only where its first word begins a command that has bytes.
#[tactic(auto, unfolding(crate::specs::Grammar::wallet_line_in, line_forms::specs::Forms::value_in))]
pub fn read_wallet_line(alloc: Global, line: &[u8]) -> Result<WalletLine, LineRefusal>
    ensures found { IfOk result (λ it. wallet_line_in line.now ≡ Some it) }
    ensures bad { result ≡ Err LineRefusal.BadLine → wallet_line_in line.now ≡ None }
    ensures memory { result ≡ Err LineRefusal.NoMemory → wallet_begins_with_bytes line.now ≡ true }
    ensures grammar { IfOk result IsWalletLine }
{
    let mut words = Words::of(line);
    let word = words.next().ok_or(LineRefusal::BadLine)?;
    let name = named(&WALLET_LINE_NAMES, word).ok_or(LineRefusal::BadLine)?;
    let command = wallet_line_of(alloc, name, &mut words)?;
    words.end()?;
    Ok(command)
}
