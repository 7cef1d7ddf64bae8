ghost use Rattle.std.specs.Prelude.{◌≡◌, ◌⊎◌, ◌<◌, false, None, Some, IfSome, IfErr};
ghost use Rattle.node_journal.specs.Effect.{first_cause};
ghost use Rattle.node_rules.specs.WalletRecords.{leaves_in};
ghost use Rattle.node_rules.specs.Wallet.{send_causes, send_effect, names_coin, last_leaf, again_answer, migrate_effect};
ghost use Rattle.wallet_node.specs.State.{stop_in, wallet_stop, DidLeaf};
ghost use Rattle.wallet_node.specs.Inside.{migrate_refusal};

use super::node::WalletNode;
use crash_disk::Disk;
use leaf_journal::MigrateRefusal;
use node_rules::{Sent, WalletRefusal};
use plasma_base::Hash32;
use plasma_tx::{Body, Owner, RootLog};
use wallet_core::CoinState;

impl<D: Disk, H: Hash32 + Copy> WalletNode<D, H> {
    // What a transfer is refused for that has this last block, or none.
    fn send_refusal(&self, log: &RootLog, last: Option<u64>) -> Option<WalletRefusal>
        ensures first { result ≡ first_cause (send_causes self.now.records log.now.log last) }
        ensures free { IfSome result (λ why. stop_in why ≡ None) }
    {
        if let Some(last) = last {
            let blocks = log.blocks();
            if last <= blocks {
                return Some(WalletRefusal::BadLast { blocks });
            }
            if !self.leaves.marked() {
                return Some(WalletRefusal::OldJournal);
            }
        }
        let used = self.leaves.used();
        if self.key.secret_key().leaves() <= used {
            return Some(WalletRefusal::KeySpent { used });
        }
        None
    }

    // Sends a coin, with a last block or without one.
    #[tactic(auto, unfolding(node_rules::specs::Wallet::send_effect))]
    fn send_with(
        &mut self,
        log: &RootLog,
        coin: u64,
        to: &Owner,
        last: Option<u64>,
    ) -> Result<Sent, WalletRefusal>
        ensures answer { wallet_stop result ≡ None → result ≡ (send_effect (H.digest_of self.old.hash)
            self.old.records log.now.log coin to.now last).answer }
        ensures did { DidLeaf D.told D.plan D.faults (send_effect (H.digest_of self.old.hash)
            self.old.records log.now.log coin to.now last).leaf self.old (wallet_stop result) self.new }
    {
        if self.is_closed() {
            return Err(WalletRefusal::Closed);
        }
        let parent = match self.state(log, coin) {
            CoinState::Held { tip } => tip,
            CoinState::Leaving { .. } => return Err(WalletRefusal::Leaving),
            _ => return Err(WalletRefusal::NotHeld),
        };
        let tag = self.who.tag;
        let to = *to;
        match self.send_refusal(log, last) {
            Some(why) => Err(why),
            None => self.send_body(Body {
                tag,
                coin,
                parent,
                to,
                last,
            }),
        }
    }

    /// Sends a coin to an owner: the next leaf is bound to the transfer, and then signs it. Device calls:
    /// those of an append on the leaves' disk.
    ///
    /// In this order: `Closed` after a device fault; `NotHeld` where the wallet doesn't have the coin or is
    /// sending it; `Leaving`; `KeySpent` where every leaf is bound; `DeviceFault`, which closes the wallet.
    /// `NoMemory` may come in place of each but the first; nothing changed then.
    pub fn send(&mut self, log: &RootLog, coin: u64, to: &Owner) -> Result<Sent, WalletRefusal>
        ensures answer { wallet_stop result ≡ None → result ≡ (send_effect (H.digest_of self.old.hash)
            self.old.records log.now.log coin to.now None).answer }
        ensures did { DidLeaf D.told D.plan D.faults (send_effect (H.digest_of self.old.hash)
            self.old.records log.now.log coin to.now None).leaf self.old (wallet_stop result) self.new }
    {
        self.send_with(log, coin, to, None)
    }

    /// Sends a coin to an owner by a transfer that no block after `last` may hold, as `send`. It refuses as
    /// `send`, and between `Leaving` and `KeySpent` with `BadLast` where there are so many blocks already,
    /// and then `OldJournal` where the leaves' journal has no marker.
    pub fn send_until(
        &mut self,
        log: &RootLog,
        coin: u64,
        to: &Owner,
        last: u64,
    ) -> Result<Sent, WalletRefusal>
        ensures answer { wallet_stop result ≡ None → result ≡ (send_effect (H.digest_of self.old.hash)
            self.old.records log.now.log coin to.now (Some last)).answer }
        ensures did { DidLeaf D.told D.plan D.faults (send_effect (H.digest_of self.old.hash)
            self.old.records log.now.log coin to.now (Some last)).leaf self.old (wallet_stop result) self.new }
    {
        self.send_with(log, coin, to, Some(last))
    }

    // The last leaf that names the coin.
    fn last_leaf(&self, coin: u64) -> Option<u32>
        ensures { result ≡ last_leaf (leaves_in self.now.records.leaves) coin }
    {
        let mut q = self.leaves.used();
        while q > 0 {
            q -= 1;
            if self.names_coin(q, coin) {
                return Some(q);
            }
        }
        None
    }

    // Whether a leaf names the coin.
    fn names_coin(&self, q: u32, coin: u64) -> bool
        ensures { result ≡ names_coin (leaves_in self.now.records.leaves) coin q }
    {
        match self.bodies.get(q as usize) {
            Some(leaf) => leaf.body.coin == coin,
            None => false,
        }
    }

    /// The transfer of a coin that was signed last, with the same bytes. `NotSending` where no leaf names the
    /// coin. It makes no device call, also after a device fault, so it answers neither `Closed` nor
    /// `DeviceFault`. `NoMemory` may come.
    #[tactic(auto, unfolding(node_rules::specs::Wallet::again_answer))]
    pub fn again(&self, coin: u64) -> Result<Sent, WalletRefusal>
        ensures answer { wallet_stop result ≡ None → result ≡ again_answer self.now.records coin }
        ensures stops { IfErr result (λ why. (stop_in why ≡ None) ⊎ (why ≡ WalletRefusal.NoMemory)) }
    {
        match self.last_leaf(coin) {
            Some(q) => self.signed_again(q),
            None => Err(WalletRefusal::NotSending),
        }
    }

    /// Adds the marker to the leaves' journal, behind which transfers may have a last block. Device calls:
    /// those of an append on the leaves' disk. It takes no memory.
    ///
    /// In this order: `Closed` after a device fault; `AlreadyNew` where the marker is there; `DeviceFault`,
    /// which closes the wallet.
    #[tactic(auto, unfolding(node_rules::specs::Wallet::migrate_effect))]
    pub fn migrate(&mut self) -> Result<(), WalletRefusal>
        ensures answer { wallet_stop result ≡ None → result ≡ (migrate_effect self.old.records).answer }
        ensures did { DidLeaf D.told D.plan D.faults (migrate_effect self.old.records).leaf
            self.old (wallet_stop result) self.new }
    {
        if self.is_closed() {
            return Err(WalletRefusal::Closed);
        }
        match self.leaves.migrate() {
            Ok(()) => Ok(()),
            Err(why) => Err(migrate_refusal(why)),
        }
    }
}

// Why the marker wasn't added, as a refusal.
fn migrate_refusal(why: MigrateRefusal) -> WalletRefusal
    ensures { result ≡ migrate_refusal why }
{
    match why {
        MigrateRefusal::AlreadyNew => WalletRefusal::AlreadyNew,
        MigrateRefusal::DeviceFault => WalletRefusal::DeviceFault,
        MigrateRefusal::Closed => WalletRefusal::Closed,
    }
}
