ghost use Rattle.std.specs.Prelude.{◌≡◌, IfOk};
ghost use Rattle.world_rules.specs.World.{World, bytes_of, item_of, opening_of, shown_of};

use line_forms::{HexOrItem, ShownToken};
use plasma_base::{Bytes, NoMemory};
use plasma_tx::{RawOpening, Shown};
use std::alloc::Global;

// A copy of the mail item of a line, which shares its bytes where they are many; or `NoMemory`. There are no bytes for
// the number 0, and for a line that has no item yet.
fn item_of(alloc: Global, mail: &[Bytes], line: u64) -> Result<Bytes, NoMemory>
    ensures { IfOk result (λ bytes. (world : World) → mail.now ≡ world.mail → bytes ≡ item_of world line) }
{
    if line == 0 {
        return Ok(Bytes::from_vec(Vec::new(alloc)));
    }
    match mail.get((line - 1) as usize) {
        Some(item) => item.copy(),
        None => Ok(Bytes::from_vec(Vec::new(alloc))),
    }
}

/// A copy of the bytes of a token, its own or those of the mail item that it names; or `NoMemory`.
pub fn bytes_of(alloc: Global, mail: &[Bytes], token: &HexOrItem) -> Result<Bytes, NoMemory>
    ensures { IfOk result (λ bytes. (world : World) → mail.now ≡ world.mail
        → bytes ≡ bytes_of world token.now) }
{
    match token {
        HexOrItem::Hex(bytes) => bytes.copy(),
        HexOrItem::Item(line) => item_of(alloc, mail, *line),
    }
}

/// The opening of a block that a token has, or `NoMemory`.
pub fn opening_of(
    alloc: Global,
    mail: &[Bytes],
    block: u64,
    token: &HexOrItem,
) -> Result<RawOpening, NoMemory>
    ensures { IfOk result (λ opening. (world : World) → mail.now ≡ world.mail
        → opening ≡ opening_of world block token.now) }
{
    Ok(RawOpening {
        block,
        bytes: bytes_of(alloc, mail, token)?,
    })
}

/// What a token shows at a block: a deposit, or a transfer by its opening; or `NoMemory`.
pub fn shown_of(
    alloc: Global,
    mail: &[Bytes],
    block: u64,
    token: &ShownToken,
) -> Result<Shown, NoMemory>
    ensures { IfOk result (λ shown. (world : World) → mail.now ≡ world.mail
        → shown ≡ shown_of world block token.now) }
{
    Ok(match token {
        ShownToken::Deposit => Shown::Deposit { block },
        ShownToken::Bytes(opening) => Shown::Spend {
            opening: opening_of(alloc, mail, block, opening)?,
        },
    })
}
