ghost use Rattle.std.specs.Prelude.{◌≡◌, IfOk};
ghost use Rattle.plasma_tx.specs.Transfer.{transfer_in, is_transfer};

use super::body::Body;
use super::signed_tx::{SignedTx, signature_behind};
use plasma_base::NoMemory;
use std::alloc::Global;

/// The transfer with this tag and of this coin that a leaf of the block spells. `None` exactly where
/// the leaf spells no signed transfer with this tag, or one of another coin, or one whose last block
/// is less than `block`; an empty leaf spells none. It takes memory for the signature of a transfer
/// alone. Every layer reads leaves by this call.
#[tactic(auto, unfolding(crate::specs::Transfer::transfer_in, crate::specs::Spelling::signed_in))]
pub fn leaf_tx(
    alloc: Global,
    tag: &[u8; 32],
    coin: u64,
    block: u64,
    leaf: &[u8],
) -> Result<Option<SignedTx>, NoMemory>
    ensures { IfOk result (λ found. found ≡ transfer_in tag.now coin block leaf.now) }
{
    match Body::read(tag, leaf) {
        Ok(body) if is_transfer(coin, block, &body) => Ok(Some(SignedTx {
            body,
            signature: signature_behind(alloc, leaf)?,
        })),
        _ => Ok(None),
    }
}

/// Whether the transfer is of the coin and may stand in the block.
fn is_transfer(coin: u64, block: u64, body: &Body) -> bool
    ensures { result ≡ is_transfer coin block body.now }
{
    let in_time = match body.last {
        None => true,
        Some(last) => block <= last,
    };
    body.coin == coin && in_time
}
