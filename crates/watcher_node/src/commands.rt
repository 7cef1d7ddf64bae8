ghost use Rattle.std.specs.Prelude.{◌≡◌, ◌≢◌, ◌⊎◌, ◌≤◌, false, true, length, Some, None, Ok, Err, is_ok, IfOk, IfSome};
ghost use Rattle.std.specs.Option.{option_map};
ghost use Rattle.std.specs.List.{list_any};
ghost use Rattle.gate_journal.specs.Image.{most};
ghost use Rattle.node_journal.specs.Effect.{first_cause};
ghost use Rattle.node_journal.specs.Notes.{Did, stopped_by};
ghost use Rattle.node_rules.specs.Kept.{kept_of, links_handed};
ghost use Rattle.node_rules.specs.Watcher.{Note, Released, note_text, who_is, note_in, is_of, guards_in, guard_causes, guard_taken, guard_by, guard_effect, release_effect};
ghost use Rattle.watcher_node.specs.declared.watched.Change.{Change};
ghost use Rattle.watcher_node.specs.State.{stop_in, watcher_stop};
ghost use Rattle.watcher_node.specs.Inside.{change_of, history_refusal};
ghost use Rattle.node_rules.specs.KeptCoins.{IsShown};
ghost use Rattle.coin_history.specs.Bundles.{HasFirstItem, IsBundle};

use super::bundles::{guarded_note, released_note};
use super::node::WatcherNode;
use super::watched::{insert_guard, remove_guard};
use coin_history::HistoryRefusal;
use crash_disk::Disk;
use node_journal::Stop;
use node_rules::{Accepted, KeptCoin, WatcherRefusal, links_handed};
use plasma_base::{Bytes, Hash32};
use plasma_tx::{Links, RootLog};

// What stopped a note, as a refusal.
fn stop_refusal(stop: Stop) -> WatcherRefusal
    ensures { stop_in result ≡ Some stop }
{
    match stop {
        Stop::Closed => WatcherRefusal::Closed,
        Stop::NoMemory => WatcherRefusal::NoMemory,
        Stop::DeviceFault => WatcherRefusal::DeviceFault,
    }
}

// Why a history is refused, as a refusal.
fn history_refusal(why: HistoryRefusal) -> WatcherRefusal
    ensures is { result ≡ history_refusal why }
    ensures memory { result ≡ WatcherRefusal.NoMemory → why ≡ HistoryRefusal.NoMemory }
{
    match why {
        HistoryRefusal::NoMemory => WatcherRefusal::NoMemory,
        _ => WatcherRefusal::History { why },
    }
}

// What a history is refused for whose note has so many bytes.
fn guard_refusal(log: &RootLog, links: &Links, count: usize) -> Option<WatcherRefusal>
    requires { count ≡ length (note_text (Note.Guarded (kept_of links.now))) }
    ensures first { result ≡ first_cause (guard_causes log.now.log links.now) }
    ensures free { IfSome result (λ why. stop_in why ≡ None) }
{
    if log.withdrawn(links.coin) {
        return Some(WatcherRefusal::Withdrawn);
    }
    if let Some(exit) = log.exits(links.coin).first() {
        return Some(WatcherRefusal::ExitStands { block: exit.block });
    }
    if 16_777_216 < count {
        return Some(WatcherRefusal::NoteTooLong {
            length: count as u64,
        });
    }
    None
}

impl<D: Disk, H: Hash32 + Copy> WatcherNode<D, H> {
    // Adds the note of a guard that isn't there, and puts the guard into memory. That is done first, so that no memory
    // is asked for behind the record, and undone where the record isn't durable.
    fn note_guard(&mut self, body: Bytes, watched: KeptCoin) -> Result<(), Stop>
        requires fits { length body ≤ most }
        requires spells { Some (Change.Guards watched) ≡ option_map (change_of (who_is self.old.notes.records).tag)
            (note_in (H.digest_of self.old.hash) (who_is self.old.notes.records).tag body) }
        requires absent { list_any (is_of watched.coin watched.tip)
            (guards_in (H.digest_of self.old.hash) self.old.notes.records) ≡ false }
        ensures did { Did D.told D.plan D.faults (Some body) self.old.notes (stopped_by result) self.new.notes }
        ensures hash { self.new.hash ≡ self.old.hash }
    {
        if self.notes.is_closed() {
            return Err(Stop::Closed);
        }
        let place = (watched.coin, watched.tip);
        insert_guard(&mut self.guards, watched)?;
        self.notes.is_whole();
        match self.notes.add(body) {
            Ok(()) => Ok(()),
            Err(stop) => {
                self.guards.remove(&place);
                Err(stop)
            }
        }
    }

    // Adds the note of a guard that is let go, and takes it out of memory.
    fn note_release(&mut self, body: Bytes, coin: u64, tip: u64) -> Result<(), Stop>
        requires fits { length body ≤ most }
        requires spells { Some (Change.Releases coin tip) ≡ option_map (change_of (who_is self.old.notes.records).tag)
            (note_in (H.digest_of self.old.hash) (who_is self.old.notes.records).tag body) }
        ensures did { Did D.told D.plan D.faults (Some body) self.old.notes (stopped_by result) self.new.notes }
        ensures hash { self.new.hash ≡ self.old.hash }
    {
        if self.notes.is_closed() {
            return Err(Stop::Closed);
        }
        self.notes.is_whole();
        match self.notes.add(body) {
            Ok(()) => {
                remove_guard(&mut self.guards, coin, tip);
                Ok(())
            }
            Err(stop) => Err(stop),
        }
    }

    // Whether the coin is guarded at this tip.
    fn has(&self, coin: u64, tip: u64) -> bool
        ensures { result ≡ list_any (is_of coin tip) (guards_in (H.digest_of self.now.hash) self.now.notes.records) }
    {
        self.guards.contains_key(&(coin, tip))
    }

    // What a history does that nothing refuses, whose note this is.
    fn take_guard(&mut self, links: Links, body: Bytes) -> Result<Accepted, WatcherRefusal>
        requires open { self.old.notes.closed ≡ false }
        requires fits { length body ≤ most }
        requires note { body ≡ note_text (Note.Guarded (kept_of links)) }
        requires read { IsShown (H.digest_of self.old.hash) (who_is self.old.notes.records).tag links }
        ensures answer { watcher_stop result ≡ None → result
            ≡ (guard_taken (guards_in (H.digest_of self.old.hash) self.old.notes.records) links).answer }
        ensures did { Did D.told D.plan D.faults
            (guard_taken (guards_in (H.digest_of self.old.hash) self.old.notes.records) links).note
            self.old.notes (watcher_stop result) self.new.notes }
        ensures hash { self.new.hash ≡ self.old.hash }
    {
        let tip = links.tip();
        let coin = links.coin;
        let accepted = Accepted { coin, tip };
        if self.has(coin, tip) {
            return Ok(accepted);
        }
        let Links { spends, .. } = links;
        let watched = KeptCoin { coin, tip, spends };
        match self.note_guard(body, watched) {
            Ok(()) => Ok(accepted),
            Err(stop) => Err(stop_refusal(stop)),
        }
    }

    // What a history does.
    fn guard_links(&mut self, log: &RootLog, links: Links) -> Result<Accepted, WatcherRefusal>
        requires open { self.old.notes.closed ≡ false }
        requires spelled { IsBundle (kept_of links) }
        requires read { IsShown (H.digest_of self.old.hash) (who_is self.old.notes.records).tag links }
        ensures answer { watcher_stop result ≡ None → result ≡ (guard_by log.now.log
            (guards_in (H.digest_of self.old.hash) self.old.notes.records) (Ok links)).answer }
        ensures did { Did D.told D.plan D.faults (guard_by log.now.log
            (guards_in (H.digest_of self.old.hash) self.old.notes.records) (Ok links)).note
            self.old.notes (watcher_stop result) self.new.notes }
        ensures hash { self.new.hash ≡ self.old.hash }
    {
        let body = match guarded_note(self.alloc, &links) {
            Ok(body) => body,
            Err(_) => return Err(WatcherRefusal::NoMemory),
        };
        match guard_refusal(log, &links, body.len()) {
            Some(why) => Err(why),
            None => self.take_guard(links, body),
        }
    }

    /// Guards a coin by the bundle of its history. Device calls: those of an append, where the coin isn't
    /// guarded at this tip already.
    ///
    /// In this order: `Closed` after a device fault; `History` where the bytes spell no bundle, or it is no
    /// history of its coin; `Withdrawn`; `ExitStands`; `NoteTooLong`; `DeviceFault`, which closes the
    /// watcher. `NoMemory` may come in place of each but the first, where the bytes have a first item or are a
    /// history of its coin; nothing changed then.
    #[tactic(auto, unfolding(node_rules::specs::Watcher::guard_effect))]
    pub fn guard(&mut self, log: &RootLog, bundle: &[u8]) -> Result<Accepted, WatcherRefusal>
        ensures answer { watcher_stop result ≡ None → result ≡
            (guard_effect (H.digest_of self.old.hash) self.old.notes.records log.now.log bundle.now).answer }
        ensures did { Did D.told D.plan D.faults
            (guard_effect (H.digest_of self.old.hash) self.old.notes.records log.now.log bundle.now).note
            self.old.notes (watcher_stop result) self.new.notes }
        ensures memory { result ≡ Err WatcherRefusal.NoMemory → HasFirstItem bundle.now
            ⊎ (is_ok (links_handed (H.digest_of self.old.hash) (who_is self.old.notes.records).tag log.now.log
            bundle.now) ≡ true) }
        ensures hash { self.new.hash ≡ self.old.hash }
    {
        if self.notes.is_closed() {
            return Err(WatcherRefusal::Closed);
        }
        match links_handed(self.alloc, &self.hash, &self.tag, log, bundle) {
            Ok(links) => self.guard_links(log, links),
            Err(why) => Err(history_refusal(why)),
        }
    }

    /// Lets the guard of a coin at a tip go. Device calls: those of an append.
    ///
    /// In this order: `Closed` after a device fault; `NoGuard` where there is none; `DeviceFault`, which
    /// closes the watcher. `NoMemory` may come in place of the last; nothing changed then.
    #[tactic(auto, unfolding(node_rules::specs::Watcher::release_effect))]
    pub fn release(&mut self, coin: u64, tip: u64) -> Result<(), WatcherRefusal>
        ensures answer { watcher_stop result ≡ None → result ≡
            (release_effect (H.digest_of self.old.hash) self.old.notes.records coin tip).answer }
        ensures did { Did D.told D.plan D.faults
            (release_effect (H.digest_of self.old.hash) self.old.notes.records coin tip).note
            self.old.notes (watcher_stop result) self.new.notes }
        ensures memory { result ≡ Err WatcherRefusal.NoMemory
            → list_any (is_of coin tip) (guards_in (H.digest_of self.old.hash) self.old.notes.records) ≡ true }
        ensures hash { self.new.hash ≡ self.old.hash }
    {
        if self.notes.is_closed() {
            return Err(WatcherRefusal::Closed);
        }
        if !self.has(coin, tip) {
            return Err(WatcherRefusal::NoGuard);
        }
        let body = match released_note(self.alloc, coin, tip) {
            Ok(body) => body,
            Err(_) => return Err(WatcherRefusal::NoMemory),
        };
        match self.note_release(body, coin, tip) {
            Ok(()) => Ok(()),
            Err(stop) => Err(stop_refusal(stop)),
        }
    }
}
