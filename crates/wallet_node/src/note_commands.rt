ghost use Rattle.std.specs.Prelude.{◌≡◌, ◌⊎◌, ◌≤◌, false, true, is_some, is_ok, length, None, Some, Ok, Err, IfSome};
ghost use Rattle.std.specs.Option.{option_map};
ghost use Rattle.gate_journal.specs.Image.{most};
ghost use Rattle.node_journal.specs.Effect.{first_cause};
ghost use Rattle.node_journal.specs.Notes.{stopped_by};
ghost use Rattle.plasma_tx.specs.Views.{coin_at};
ghost use Rattle.coin_history.specs.Bundles.{HasFirstItem, IsBundle};
ghost use Rattle.node_rules.specs.KeptCoins.{IsShown};
ghost use Rattle.node_rules.specs.Kept.{kept_of, links_handed};
ghost use Rattle.node_rules.specs.WalletRecords.{Note, note_text, note_in, leaves_in};
ghost use Rattle.node_rules.specs.Wallet.{who, noted, accept_causes, is_known, accept_taken, accept_by, accept_effect, exit_start, leave_effect};
ghost use Rattle.wallet_node.specs.State.{stop_in, wallet_stop, DidNote};
ghost use Rattle.wallet_node.specs.Inside.{change_of, is_bound_change};

use super::change::Change;
use super::memory::Undo;
use super::node::WalletNode;
use super::note_texts::{accepted_note, leaving_note};
use super::stops::{history_refusal, stop_refusal};
use crash_disk::Disk;
use node_journal::Stop;
use node_rules::{Accepted, KeptCoin, WalletRefusal, links_handed};
use plasma_base::{Bytes, Hash32};
use plasma_tx::{Links, RootCall, RootLog};
use wallet_core::CoinState;

// The change stays.
fn let_go(_undo: Undo) {}

impl<D: Disk, H: Hash32 + Copy> WalletNode<D, H> {
    // Adds a note that spells this change, and takes the change over. It is taken over in memory first, so
    // that no memory is asked for behind the record, and taken back where the record isn't durable.
    pub(crate) fn add_note(&mut self, body: Bytes, change: Change) -> Result<(), Stop>
        requires fits { length body ≤ most }
        requires spells { Some change ≡ option_map (change_of (who self.old.records).tag)
            (note_in (H.digest_of self.old.hash) (who self.old.records).tag body) }
        requires bound { is_bound_change (leaves_in self.old.records.leaves) change ≡ true }
        ensures { DidNote D.told D.plan D.faults (Some body) self.old (stopped_by result) self.new }
    {
        if self.is_closed() {
            return Err(Stop::Closed);
        }
        let undo = self.memory.try_over(change)?;
        self.notes.is_whole();
        match self.notes.add(body) {
            Ok(()) => {
                let_go(undo);
                Ok(())
            }
            Err(stop) => {
                self.memory.undo(undo);
                Err(stop)
            }
        }
    }

    // What a history is refused for whose note has so many bytes.
    fn accept_refusal(&self, log: &RootLog, links: &Links, count: usize) -> Option<WalletRefusal>
        requires { count ≡ length (note_text (Note.Accepts (kept_of links.now))) }
        ensures first { result ≡ first_cause
            (accept_causes (noted (H.digest_of self.now.hash) self.now.records).me log.now.log links.now) }
        ensures free { IfSome result (λ why. stop_in why ≡ None) }
    {
        if links.last_owner() != self.memory.noted().me {
            return Some(WalletRefusal::NotMine);
        }
        if log.withdrawn(links.coin) {
            return Some(WalletRefusal::Withdrawn);
        }
        if let Some(exit) = log.exits(links.coin).first() {
            return Some(WalletRefusal::ExitStands { block: exit.block });
        }
        if 16_777_216 < count {
            return Some(WalletRefusal::NoteTooLong {
                length: count as u64,
            });
        }
        None
    }

    // Whether the tip of a history is the wallet's own deposit, or was taken up before.
    fn is_known(&self, links: &Links) -> bool
        ensures { result ≡ is_known (noted (H.digest_of self.now.hash) self.now.records) links.now }
    {
        let tip = links.tip();
        tip == links.deposit || self.memory.noted().accepted.has(links.coin, tip)
    }

    // Takes a coin up by its history, which nothing refuses, whose note this is.
    fn take_coin(&mut self, links: Links, body: Bytes) -> Result<Accepted, WalletRefusal>
        requires open { self.old.closed ≡ false }
        requires fits { length body ≤ most }
        requires note { body ≡ note_text (Note.Accepts (kept_of links)) }
        requires read { IsShown (H.digest_of self.old.hash) (who self.old.records).tag links }
        ensures answer { wallet_stop result ≡ None → result
            ≡ (accept_taken (noted (H.digest_of self.old.hash) self.old.records) links).answer }
        ensures did { DidNote D.told D.plan D.faults
            (accept_taken (noted (H.digest_of self.old.hash) self.old.records) links).note
            self.old (wallet_stop result) self.new }
    {
        let tip = links.tip();
        let coin = links.coin;
        let accepted = Accepted { coin, tip };
        if self.is_known(&links) {
            return Ok(accepted);
        }
        let Links { spends, .. } = links;
        let kept = KeptCoin { coin, tip, spends };
        match self.add_note(body, Change::Accepts { coin: kept }) {
            Ok(()) => Ok(accepted),
            Err(stop) => Err(stop_refusal(stop)),
        }
    }

    // What a history does.
    fn accept_links(&mut self, log: &RootLog, links: Links) -> Result<Accepted, WalletRefusal>
        requires open { self.old.closed ≡ false }
        requires spelled { IsBundle (kept_of links) }
        requires read { IsShown (H.digest_of self.old.hash) (who self.old.records).tag links }
        ensures answer { wallet_stop result ≡ None → result
            ≡ (accept_by log.now.log (noted (H.digest_of self.old.hash) self.old.records) (Ok links)).answer }
        ensures did { DidNote D.told D.plan D.faults
            (accept_by log.now.log (noted (H.digest_of self.old.hash) self.old.records) (Ok links)).note
            self.old (wallet_stop result) self.new }
    {
        let body = match accepted_note(self.alloc, &links) {
            Ok(body) => body,
            Err(_) => return Err(WalletRefusal::NoMemory),
        };
        match self.accept_refusal(log, &links, body.len()) {
            Some(why) => Err(why),
            None => self.take_coin(links, body),
        }
    }

    /// Takes a coin up by the bundle of its history. Device calls: those of an append on the notes' disk,
    /// where the coin isn't the wallet's own deposit and wasn't taken up with this tip before.
    ///
    /// In this order: `Closed` after a device fault; `History` where the bytes spell no bundle, or it is no
    /// history of its coin; `NotMine`; `Withdrawn`; `ExitStands`; `NoteTooLong`; `DeviceFault`, which closes
    /// the wallet. `NoMemory` may come in place of each but the first, where the bytes have a first item or are a
    /// history of its coin; nothing changed then.
    #[tactic(auto, unfolding(node_rules::specs::Wallet::accept_effect))]
    pub fn accept(&mut self, log: &RootLog, bundle: &[u8]) -> Result<Accepted, WalletRefusal>
        ensures answer { wallet_stop result ≡ None → result ≡
            (accept_effect (H.digest_of self.old.hash) self.old.records log.now.log bundle.now).answer }
        ensures did { DidNote D.told D.plan D.faults
            (accept_effect (H.digest_of self.old.hash) self.old.records log.now.log bundle.now).note
            self.old (wallet_stop result) self.new }
        ensures memory { result ≡ Err WalletRefusal.NoMemory → HasFirstItem bundle.now
            ⊎ (is_ok (links_handed (H.digest_of self.old.hash) (who self.old.records).tag log.now.log bundle.now)
            ≡ true) }
    {
        if self.is_closed() {
            return Err(WalletRefusal::Closed);
        }
        match links_handed(self.alloc, &self.hash, &self.who.tag, log, bundle) {
            Ok(links) => self.accept_links(log, links),
            Err(why) => Err(history_refusal(why)),
        }
    }

    // Leaves with a coin that is held at this tip.
    fn leave_held(&mut self, log: &RootLog, coin: u64, tip: u64) -> Result<RootCall, WalletRefusal>
        requires open { self.old.closed ≡ false }
        requires made { is_some (coin_at log.now.log coin) ≡ true }
        ensures answer { wallet_stop result ≡ None → result
            ≡ exit_start (H.digest_of self.old.hash) self.old.records log.now.log coin tip }
        ensures did { DidNote D.told D.plan D.faults (Some (note_text (Note.LeavesWith coin tip)))
            self.old (wallet_stop result) self.new }
    {
        let call = self.exit_start(log, coin, tip)?;
        let body = match leaving_note(self.alloc, coin, tip) {
            Ok(body) => body,
            Err(_) => return Err(WalletRefusal::NoMemory),
        };
        match self.add_note(body, Change::LeavesWith { coin, tip }) {
            Ok(()) => Ok(call),
            Err(stop) => Err(stop_refusal(stop)),
        }
    }

    /// Leaves with a coin, and gives the call that starts its exit. Device calls: those of an append on the
    /// notes' disk, where the wallet wasn't leaving with the coin yet.
    ///
    /// In this order: `Closed` after a device fault; `NotHeld` where the wallet doesn't have the coin or is
    /// sending it; `DeviceFault`, which closes the wallet. `NoMemory` may come in place of each but the
    /// first; nothing changed then.
    #[tactic(auto, unfolding(node_rules::specs::Wallet::leave_effect))]
    pub fn leave(&mut self, log: &RootLog, coin: u64) -> Result<RootCall, WalletRefusal>
        ensures answer { wallet_stop result ≡ None → result ≡
            (leave_effect (H.digest_of self.old.hash) self.old.records log.now.log coin).answer }
        ensures did { DidNote D.told D.plan D.faults
            (leave_effect (H.digest_of self.old.hash) self.old.records log.now.log coin).note
            self.old (wallet_stop result) self.new }
    {
        if self.is_closed() {
            return Err(WalletRefusal::Closed);
        }
        match self.state(log, coin) {
            CoinState::Held { tip } => self.leave_held(log, coin, tip),
            CoinState::Leaving { tip } => self.exit_start(log, coin, tip),
            _ => Err(WalletRefusal::NotHeld),
        }
    }
}
