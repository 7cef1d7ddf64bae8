ghost use Rattle.std.specs.Prelude.{◌≡◌, IfOk};
ghost use Rattle.plasma_tx.specs.Shown.{tests_by, rules_of, shown_tx, shown_owner};

use super::contract::Contract;
use plasma_base::{Hash32, NoMemory};
use plasma_tx::{Owner, RawOpening, Shown, SignedTx, leaf_in, leaf_tx};
use sparse_merkle::defaults;

impl Contract {
    // The transfer of the coin that an opening shows; `None` where the opening doesn't read, doesn't open
    // its block's root, or has no transfer of the coin in its leaf. An opening that the log remembers isn't tested
    // again.
    pub(crate) fn shown<H: Hash32>(
        &self,
        h: &H,
        coin: u64,
        opening: &RawOpening,
    ) -> Result<Option<SignedTx>, NoMemory>
        ensures { IfOk result (λ tx.
            tx ≡ shown_tx (tests_by (H.digest_of h.now)) (rules_of self.now) self.now.log coin opening.now) }
    {
        let root = match self.root_at(opening.block) {
            Some(root) => root,
            None => return Ok(None),
        };
        let is_open = self.log.opens(h, &defaults(h), &root, coin, opening)?;
        if !is_open {
            return Ok(None);
        }
        let leaf = leaf_in(opening.bytes.as_slice());
        leaf_tx(self.alloc, &self.log.tag(), coin, opening.block, leaf)
    }

    // Who owns the coin after what is shown; `None` where an opening shows no transfer.
    pub(crate) fn shown_owner<H: Hash32>(
        &self,
        h: &H,
        coin: u64,
        shown: &Shown,
    ) -> Result<Option<Owner>, NoMemory>
        ensures { IfOk result (λ owner. owner
            ≡ shown_owner (tests_by (H.digest_of h.now)) (rules_of self.now) self.now.log coin shown.now) }
    {
        match shown {
            Shown::Deposit { block: _ } => Ok(self.coin_at(coin).map(|made| made.owner)),
            Shown::Spend { opening } => Ok(self.shown(h, coin, opening)?.map(|tx| tx.body.to)),
        }
    }
}
