ghost use Rattle.std.specs.Prelude.{◌≡◌, IfOk};
ghost use Rattle.std.specs.Option.{option_copied, option_and_then};
ghost use Rattle.coin_safety.specs.Advice.{tip, left_in, left_by};
ghost use Rattle.coin_safety.specs.Answered.{left_at};
ghost use Rattle.coin_safety.specs.Words.{signing_leaf};

use super::look::Look;
use plasma_base::{NoMemory, get_u32};
use plasma_tx::{RawOpening, RootCall, RootLog, SignedTx, TxRefusal, leaf_in};
use std::alloc::Global;

impl Look<'_> {
    /// The spend of the tip that the last answer to a challenge there showed: one pass over the log.
    pub(crate) fn left_by(&self) -> Option<&RawOpening>
        ensures { option_copied result
            ≡ left_by self.now.log.now.log self.now.kept.now.links.coin (tip self.now.kept.now) }
    {
        let place = left_place(self.log, self.coin(), self.tip())?;
        left_at(self.log, self.coin(), self.tip(), place)
    }
}

/// Where the last answer to a challenge of the coin's exits at the tip stands among the log's calls.
fn left_place(log: &RootLog, coin: u64, tip: u64) -> Option<usize>
    ensures { option_and_then (left_at log.now.log coin tip) result ≡ left_by log.now.log coin tip }
{
    let events = log.events();
    let mut found = None;
    for (place, call) in events.iter().enumerate() {
        if left_in(coin, tip, call).is_some() {
            found = Some(place);
        }
    }
    found
}

/// The spend that the call at the place shows, where it is such an answer.
fn left_at(log: &RootLog, coin: u64, tip: u64, place: usize) -> Option<&RawOpening>
    ensures { option_copied result ≡ left_at log.now.log coin tip place }
{
    left_in(coin, tip, log.events().get(place)?)
}

/// The spend that the call shows, where it answers a challenge of an exit of the coin at the tip.
fn left_in(coin: u64, tip: u64, call: &RootCall) -> Option<&RawOpening>
    ensures { option_copied result ≡ left_in coin tip call.now }
{
    match call {
        RootCall::Respond {
            coin: of,
            challenged,
            spend,
            ..
        } if *of == coin && *challenged == tip => Some(spend),
        _ => None,
    }
}

/// The leaf that signed the transfer in the opening, if it reads.
#[tactic(auto, unfolding(plasma_tx::specs::Spelling::body_in, plasma_tx::specs::Spelling::signed_in))]
pub(crate) fn signing_leaf(alloc: Global, opening: &RawOpening) -> Result<Option<u32>, NoMemory>
    ensures { IfOk result (λ leaf. leaf ≡ signing_leaf opening.now) }
{
    let leaf = leaf_in(opening.bytes.as_slice());
    if leaf.len() < 36 {
        return Ok(None);
    }
    let mut tag = [0; 32];
    tag.copy_from_slice(&leaf[4..36]);
    match SignedTx::read(alloc, &tag, leaf) {
        Ok(tx) => Ok(get_u32(tx.signature.as_slice(), 0)),
        Err(TxRefusal::NoMemory) => Err(NoMemory),
        Err(_) => Ok(None),
    }
}
