ghost use Rattle.std.specs.Prelude.{◌≡◌, false, true, None, Ok, slice_get};
ghost use Rattle.std.specs.Option.{option_map_or};
ghost use Rattle.wallet_core.specs.State.{spends_tip};
ghost use Rattle.coin_history.specs.Bundles.{AreRising};
ghost use Rattle.node_rules.specs.WalletRecords.{leaves_in};
ghost use Rattle.node_rules.specs.Wallet.{last_of, reclaim_shown, reclaim_last, reclaim_effect};
ghost use Rattle.wallet_node.specs.State.{wallet_stop, DidNote};
ghost use Rattle.wallet_node.specs.Inside.{is_bound_change};

use super::change::Change;
use super::node::WalletNode;
use super::note_texts::reclaimed_note;
use super::stops::{history_refusal, stop_refusal};
use coin_history::{Bundle, absent};
use crash_disk::Disk;
use node_rules::{Reclaimed, WalletRefusal};
use plasma_base::Hash32;
use plasma_tx::RootLog;
use wallet_core::CoinState;

impl<D: Disk, H: Hash32 + Copy> WalletNode<D, H> {
    // Takes a transfer back that may be, of a coin from a tip, which this leaf signs.
    fn take_back(
        &mut self,
        log: &RootLog,
        coin: u64,
        tip: u64,
        q: u32,
    ) -> Result<Reclaimed, WalletRefusal>
        requires open { self.old.closed ≡ false }
        requires bound { is_bound_change (leaves_in self.old.records.leaves) (Change.Reclaims coin tip q) ≡ true }
        ensures answer { wallet_stop result ≡ None → result
            ≡ (reclaim_shown log.now.log (record { coin = coin; tip = tip; q = q }) (Ok tt)).answer }
        ensures did { DidNote D.told D.plan D.faults
            (reclaim_shown log.now.log (record { coin = coin; tip = tip; q = q }) (Ok tt)).note
            self.old (wallet_stop result) self.new }
    {
        if let Some(exit) = log.exits(coin).first() {
            return Err(WalletRefusal::ExitStands { block: exit.block });
        }
        let body = match reclaimed_note(self.alloc, coin, tip, q) {
            Ok(body) => body,
            Err(_) => return Err(WalletRefusal::NoMemory),
        };
        match self.add_note(body, Change::Reclaims { coin, tip, q }) {
            Ok(()) => Ok(Reclaimed { coin, tip, q }),
            Err(stop) => Err(stop_refusal(stop)),
        }
    }

    // Takes the transfer in a leaf back, where a bundle shows that no block has it.
    fn reclaim_leaf(
        &mut self,
        log: &RootLog,
        bundle: &Bundle,
        taken: Reclaimed,
    ) -> Result<Reclaimed, WalletRefusal>
        requires open { self.old.closed ≡ false }
        requires rising { AreRising bundle.now.openings }
        requires spends { option_map_or (spends_tip taken.coin taken.tip)
            (slice_get (leaves_in self.old.records.leaves) taken.q) false ≡ true }
        ensures answer { wallet_stop result ≡ None → result ≡ (reclaim_last (H.digest_of self.old.hash) log.now.log
            bundle.now taken (last_of (leaves_in self.old.records.leaves) taken.q)).answer }
        ensures did { DidNote D.told D.plan D.faults (reclaim_last (H.digest_of self.old.hash) log.now.log
            bundle.now taken (last_of (leaves_in self.old.records.leaves) taken.q)).note
            self.old (wallet_stop result) self.new }
    {
        let Some(last) = self.last_of(taken.q) else {
            return Err(WalletRefusal::NoLast);
        };
        if log.blocks() < last {
            return Err(WalletRefusal::NotYet { last });
        }
        match absent(self.alloc, &self.hash, log, taken.tip, last, bundle) {
            Ok(()) => self.take_back(log, taken.coin, taken.tip, taken.q),
            Err(why) => Err(history_refusal(why)),
        }
    }

    // The last block of a leaf's transfer, where it has one.
    fn last_of(&self, q: u32) -> Option<u64>
        ensures { result ≡ last_of (leaves_in self.now.records.leaves) q }
    {
        let leaf = self.bodies.get(q as usize)?;
        leaf.body.last
    }

    /// Takes a transfer back that no block up to its last one has, which the bundle shows: from then on the
    /// coin is the wallet's again. Device calls: those of an append on the notes' disk.
    ///
    /// In this order: `Closed` after a device fault; `History` where the bytes spell no bundle; `NotSending`
    /// where the coin isn't one that the wallet is sending; `NoLast`; `NotYet`; `History` where the bundle
    /// doesn't show the coin absent in each block behind the tip up to the last one; `ExitStands`;
    /// `DeviceFault`, which closes the wallet. `NoMemory` may come in place of each but the first; nothing
    /// changed then.
    #[tactic(auto, unfolding(node_rules::specs::Wallet::reclaim_effect))]
    pub fn reclaim(&mut self, log: &RootLog, bundle: &[u8]) -> Result<Reclaimed, WalletRefusal>
        ensures answer { wallet_stop result ≡ None → result ≡
            (reclaim_effect (H.digest_of self.old.hash) self.old.records log.now.log bundle.now).answer }
        ensures did { DidNote D.told D.plan D.faults
            (reclaim_effect (H.digest_of self.old.hash) self.old.records log.now.log bundle.now).note
            self.old (wallet_stop result) self.new }
    {
        if self.is_closed() {
            return Err(WalletRefusal::Closed);
        }
        let bundle = match Bundle::read(self.alloc, bundle) {
            Ok(bundle) => bundle,
            Err(why) => return Err(history_refusal(why)),
        };
        let coin = bundle.coin;
        match self.state(log, coin) {
            CoinState::Sending { tip, q } => {
                self.reclaim_leaf(log, &bundle, Reclaimed { coin, tip, q })
            }
            _ => Err(WalletRefusal::NotSending),
        }
    }
}
