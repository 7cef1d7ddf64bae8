ghost use Rattle.std.specs.Prelude.{◌≡◌, ◌≢◌, ◌-◌, ◌≤◌, ◌<◌, ◌^◌, None, Some, Ok, Err, true, false, length, IfOk, IfErr};
ghost use Rattle.std.specs.List.{All};
ghost use Rattle.crash_disk.specs.Calls.{WhereTold};
ghost use Rattle.gate_journal.specs.Journal.{IsSettled};
ghost use Rattle.node_journal.specs.Role.{are_of, role_in};
ghost use Rattle.node_journal.specs.Notes.{Did, stopped_by, Opened, RefusesRole};
ghost use Rattle.operator_core.specs.State.{offer_stop, lay_stop, seal_stop};
ghost use Rattle.operator_core.specs.Inside.{AddsRecord, offer_refusal, lay_refusal, seal_refusal};
ghost use Rattle.operator_core.specs.Known.{is_known, first_is_known, is_begun, has_its_coin};
ghost use Rattle.coin_history.specs.Bundles.{AreRising};
ghost use Rattle.operator_rules.specs.Records.{Offered, Laid, Sealed as NoteSealed, note_text, operator_kinds, who_is};
ghost use Rattle.coin_history.specs.History.{committed_blocks};
ghost use Rattle.plasma_tx.specs.Spelling.{signed_in};
ghost use Rattle.plasma_tx.specs.Views.{blocks, coin_at};
ghost use Rattle.operator_rules.specs.Commands.{forest_in, offer_effect, lay_effect, seal_effect, prove_answer, bundle_answer, absences_answer};

use super::offering::offer_of;
use super::pool::Pool;
use super::rebuild::{long_record, read_records};
use super::records::{Who, laid_record, offered_record, same_offer, sealed_record};
use super::role::OperatorRole;
use super::showing::{bundle_between, bundle_of, opening_at};
use super::trees::Trees;
use super::walk::walk_on;
use coin_history::Bundle;
use crash_disk::Disk;
use gate_journal::{JournalRefusal, Returned};
use node_journal::{Notes, Stop};
use operator_rules::{LayRefusal, MOST_LAID, OfferRefusal, ProveRefusal, SealRefusal, Sealed};
use plasma_base::{Bytes, Hash32, NoMemory, Sha};
use plasma_tx::{Body, RawOpening, RootCall, RootLog};
use std::alloc::Global;
use std::marker::Model;

// How many of the last records are looked at for one that comes again.
const LOOKED_AT: usize = 8;

// What a stop is for an offer, for a lay, and for a seal.
fn offer_refusal(stop: Stop) -> OfferRefusal
    ensures { result ≡ offer_refusal stop }
{
    match stop {
        Stop::Closed => OfferRefusal::Closed,
        Stop::NoMemory => OfferRefusal::NoMemory,
        Stop::DeviceFault => OfferRefusal::DeviceFault,
    }
}

fn lay_refusal(stop: Stop) -> LayRefusal
    ensures { result ≡ lay_refusal stop }
{
    match stop {
        Stop::Closed => LayRefusal::Closed,
        Stop::NoMemory => LayRefusal::NoMemory,
        Stop::DeviceFault => LayRefusal::DeviceFault,
    }
}

fn seal_refusal(stop: Stop) -> SealRefusal
    ensures { result ≡ seal_refusal stop }
{
    match stop {
        Stop::Closed => SealRefusal::Closed,
        Stop::NoMemory => SealRefusal::NoMemory,
        Stop::DeviceFault => SealRefusal::DeviceFault,
    }
}

/// The operator of a chain over the disk of its notes. Contracts see its notes, and the digest that it was
/// opened with. A device fault closes it until the disk is taken back and opened again; a closed one still
/// shows what its records say.
#[derive(Drop)]
pub struct Operator<D: Disk, H: Hash32 + Copy = Sha> {
    alloc: Global,
    notes: Notes<D, OperatorRole>,
    hash: H,
    who: Who,
    pool: Pool<H>,
    trees: Trees<H>,
}

impl<D: Disk, H: Hash32 + Copy> Model for Operator<D, H> {
    ghost use Rattle.node_journal.specs.Notes.{NodeState};

    ghost Value = { NodeState D H };

    ghost use Rattle.operator_core.specs.Inside.{IsRight};

    ghost view = { λ o. record { notes = o.notes.notes; hash = o.hash } };

    ghost invariant = { λ o. IsRight o.hash o.notes.notes.records o.who o.pool o.trees };
}

impl<D: Disk> Operator<D> {
    /// Opens the operator of a disk with SHA-256: as `open_with`.
    pub fn open(alloc: Global, notes: D) -> Result<Operator<D>, Returned<D>>
        ensures opened { IfOk result (λ opened.
            Opened D.told D.plan D.faults (role_in operator_kinds) notes opened.notes) }
        ensures refused { IfErr result (λ returned.
            RefusesRole D.told D.plan D.faults (role_in operator_kinds) notes returned.why returned.disk) }
    {
        Operator::open_with(alloc, notes, Sha)
    }
}

impl<D: Disk, H: Hash32 + Copy> Operator<D, H> {
    /// Opens the operator of a disk: its journal is read, and the pool and the sealed trees are built from
    /// the notes, with 65 digests, and one for each node of a sealed tree's part with a leaf. Device calls:
    /// those of `Journal::open`.
    ///
    /// `NotJournal` comes where the image spells no records, or not those of an operator. It comes also for a
    /// record of more than 2^24 bytes, which no disk that tells what it holds gives. A refusal hands the disk
    /// back.
    #[tactic(auto, using(crate::proofs::Opening::given_up))]
    pub fn open_with(alloc: Global, notes: D, h: H) -> Result<Operator<D, H>, Returned<D>>
        ensures opened { IfOk result (λ opened.
            Opened D.told D.plan D.faults (role_in operator_kinds) notes opened.notes) }
        ensures hash { IfOk result (λ opened. opened.hash ≡ h) }
        ensures refused { IfErr result (λ returned.
            RefusesRole D.told D.plan D.faults (role_in operator_kinds) notes returned.why returned.disk) }
    {
        let notes = match Notes::open(alloc, notes, OperatorRole) {
            Ok(notes) => notes,
            Err(returned) => return Err(returned),
        };
        notes.is_whole();
        if let Some(place) = long_record(notes.records()) {
            return Err(Returned {
                disk: notes.take_disk(),
                why: JournalRefusal::NotJournal { place },
            });
        }
        match read_records(alloc, h, notes.records()) {
            Ok((who, pool, trees)) => Ok(Operator {
                alloc,
                notes,
                hash: h,
                who,
                pool,
                trees,
            }),
            Err(_) => Err(Returned {
                disk: notes.take_disk(),
                why: JournalRefusal::NoMemory,
            }),
        }
    }

    /// Whether a device fault closed it.
    pub fn is_closed(&self) -> bool
        ensures { result ≡ self.now.notes.closed }
    {
        self.notes.is_closed()
    }

    /// What holds of every operator: its records are an operator's, and while no fault closed it each image
    /// that a crash may leave keeps them. It does nothing.
    pub fn is_whole(&self)
        ensures role { are_of operator_kinds self.now.notes.records ≡ true }
        ensures settled { self.now.notes.closed ≡ false
            → WhereTold (D.told self.now.notes.disk) (λ now. IsSettled now self.now.notes.records) }
    {
        self.notes.is_whole();
    }

    /// The chain's tag.
    pub fn tag(&self) -> [u8; 32]
        ensures { result ≡ (who_is self.now.notes.records).tag }
    {
        self.who.tag
    }

    /// The operator's account.
    pub fn account(&self) -> u64
        ensures { result ≡ (who_is self.now.notes.records).account }
    {
        self.who.account
    }

    /// The seed of its key, if it has one.
    pub fn key_seed(&self) -> Option<[u8; 32]>
        ensures { result ≡ (who_is self.now.notes.records).key_seed }
    {
        self.who.key_seed
    }

    /// How many records it has beside its identity, and of leaves none.
    pub fn records(&self) -> (u64, u64)
        ensures { result ≡ (length self.now.notes.records - 1, 0) }
    {
        let records = self.notes.records();
        (records.len().saturating_sub(1) as u64, 0)
    }

    /// What block `block` has at a coin, by its tree. It makes no digest.
    ///
    /// `UnknownBlock` comes where no sealed tree has the root of the block, or it isn't a committed one, also
    /// where there is no memory. `NoMemory` may come in place of an opening alone.
    #[tactic(auto, unfolding(operator_rules::specs::Commands::prove_answer))]
    pub fn prove(&self, log: &RootLog, coin: u64, block: u64) -> Result<RawOpening, ProveRefusal>
        ensures value { result ≢ Err ProveRefusal.NoMemory → result
            ≡ prove_answer (H.digest_of self.now.hash) self.now.notes.records log.now.log coin block }
        ensures memory { result ≡ Err ProveRefusal.NoMemory → is_known (H.digest_of self.now.hash) log.now.log
            (forest_in self.now.notes.records).sealed block ≡ true }
    {
        opening_at(self.alloc, &self.trees, log, coin, block)
    }

    /// The history of a coin up to a tip, or up to the present tip where 0 is asked for. It can be written.
    /// It makes no digest, and tests the signatures on the way that aren't remembered.
    ///
    /// `NoCoin` comes where the log has no such coin; then `UnknownBlock` where the tip is neither the
    /// deposit block nor a committed one after it, and where no sealed tree has the root of a committed
    /// block on the way. `NoMemory` may come once a bundle is begun: behind the first two, and where a tip is
    /// asked for behind the third of the first block on the way. It comes too for a 2^32nd opening, which no
    /// bundle's count tells; a log within the limits of a chain has fewer blocks.
    #[tactic(auto, unfolding(operator_rules::specs::Commands::bundle_answer))]
    pub fn bundle(&self, log: &RootLog, coin: u64, tip: u64) -> Result<Bundle, ProveRefusal>
        ensures value { result ≢ Err ProveRefusal.NoMemory → result
            ≡ bundle_answer (H.digest_of self.now.hash) self.now.notes.records log.now.log coin tip }
        ensures memory { result ≡ Err ProveRefusal.NoMemory → is_begun (H.digest_of self.now.hash) log.now.log
            (forest_in self.now.notes.records).sealed tip (coin_at log.now.log coin) ≡ true }
        ensures rising { IfOk result (λ bundle. AreRising bundle.openings) }
        ensures count { IfOk result (λ bundle. length bundle.openings < 2 ^ 32) }
        ensures lengths { IfOk result (λ bundle. All (λ opening. length opening.bytes < 2 ^ 32) bundle.openings) }
    {
        bundle_of(self.alloc, &self.trees, log, &self.who.tag, coin, tip)
    }

    /// Walks on to the present tip of a coin, and keeps where the walk ended, if there is memory. So `offer` and
    /// `bundle` need not go over the same blocks again. No answer depends on it. It makes no digest, and tests the
    /// signatures on the way that aren't remembered.
    pub fn walk_on(&mut self, log: &RootLog, coin: u64)
        ensures { self.new ≡ self.old }
    {
        let Some(made) = log.coin(coin) else {
            return;
        };
        walk_on(self.alloc, &mut self.trees, log, &self.who.tag, coin, &made);
    }

    /// What the committed blocks after a block and up to the last have at a coin. It can be written. It makes
    /// no digest.
    ///
    /// `UnknownBlock` comes where there are fewer blocks than the last, and where no sealed tree has the
    /// root of a committed block between. `NoMemory` may come once an opening is made: behind both for the
    /// first block between; and it comes for a 2^32nd opening, as of `bundle`.
    #[tactic(auto, unfolding(operator_rules::specs::Commands::absences_answer))]
    pub fn absences(
        &self,
        log: &RootLog,
        coin: u64,
        after: u64,
        last: u64,
    ) -> Result<Bundle, ProveRefusal>
        ensures value { result ≢ Err ProveRefusal.NoMemory → result
            ≡ absences_answer (H.digest_of self.now.hash) self.now.notes.records log.now.log coin after last }
        ensures within { result ≡ Err ProveRefusal.NoMemory → last ≤ blocks log.now.log }
        ensures memory { result ≡ Err ProveRefusal.NoMemory → first_is_known (H.digest_of self.now.hash) log.now.log
            (forest_in self.now.notes.records).sealed (committed_blocks log.now.log after last) ≡ true }
        ensures rising { IfOk result (λ bundle. AreRising bundle.openings) }
        ensures count { IfOk result (λ bundle. length bundle.openings < 2 ^ 32) }
        ensures lengths { IfOk result (λ bundle. All (λ opening. length opening.bytes < 2 ^ 32) bundle.openings) }
    {
        if log.blocks() < last {
            return Err(ProveRefusal::UnknownBlock { n: last });
        }
        bundle_between(self.alloc, &self.trees, log, coin, after, last)
    }

    /// Offers a signed transfer, which is put into the pool at its coin. The note is durable at `Ok`, which
    /// answers the coin. It makes no digest. Device calls: those of `Journal::append`.
    ///
    /// In this order: `Closed`; `NotTransfer` where the bytes spell no signed transfer of this chain;
    /// `NoCoin`; `WrongParent` where it spends another block than the coin's present tip; `BadSignature`;
    /// `TooLate` where its last block is there already; `PoolHasCoin` where the pool has a leaf of the coin,
    /// or a sealed tree has one whose root isn't committed; `DeviceFault`. `NoMemory` may come in place of
    /// any after the third.
    pub fn offer(&mut self, log: &RootLog, tx: &[u8]) -> Result<u64, OfferRefusal>
        ensures answer { offer_stop result ≡ None → result
            ≡ (offer_effect (H.digest_of self.old.hash) self.old.notes.records log.now.log tx.now).answer }
        ensures memory { result ≡ Err OfferRefusal.NoMemory
            → has_its_coin log.now.log (signed_in (who_is self.old.notes.records).tag tx.now) ≡ true }
        ensures did { Did D.told D.plan D.faults
            (offer_effect (H.digest_of self.old.hash) self.old.notes.records log.now.log tx.now).note
            self.old.notes (offer_stop result) self.new.notes }
        ensures hash { self.new.hash ≡ self.old.hash }
    {
        if self.is_closed() {
            return Err(OfferRefusal::Closed);
        }
        self.walk_offered(log, tx);
        self.is_whole();
        let coin = match self.offer_answer(log, tx) {
            Ok(coin) => coin,
            Err(why) => return Err(why),
        };
        match self.add_offer(coin, tx) {
            Ok(()) => Ok(coin),
            Err(stop) => Err(offer_refusal(stop)),
        }
    }

    // Walks on to the present tip of the coin that offered bytes name.
    fn walk_offered(&mut self, log: &RootLog, tx: &[u8])
        ensures { self.new ≡ self.old }
    {
        let Ok(body) = Body::read(&self.who.tag, tx) else {
            return;
        };
        self.walk_on(log, body.coin);
    }

    // The answer to an offer, before its record is added.
    #[tactic(auto, unfolding(operator_rules::specs::Commands::offer_effect))]
    fn offer_answer(&self, log: &RootLog, tx: &[u8]) -> Result<u64, OfferRefusal>
        ensures value { result ≢ Err OfferRefusal.NoMemory → result
            ≡ (offer_effect (H.digest_of self.now.hash) self.now.notes.records log.now.log tx.now).answer }
        ensures memory { result ≡ Err OfferRefusal.NoMemory
            → has_its_coin log.now.log (signed_in (who_is self.now.notes.records).tag tx.now) ≡ true }
    {
        offer_of(self.alloc, &self.pool, &self.trees, log, &self.who.tag, tx)
    }

    // Adds the record of an offered transfer.
    fn add_offer(&mut self, coin: u64, bytes: &[u8]) -> Result<(), Stop>
        requires { AddsRecord self.old.notes.records (note_text (Offered bytes.now)) (Some (coin, bytes.now)) }
        ensures did { Did D.told D.plan D.faults (Some (note_text (Offered bytes.now))) self.old.notes
            (stopped_by result) self.new.notes }
        ensures hash { self.new.hash ≡ self.old.hash }
    {
        if self.notes.is_closed() {
            return Err(Stop::Closed);
        }
        let body = self.offered_body(bytes)?;
        self.add_put(coin, bytes, body)
    }

    // The record of an offered transfer. One that was taken out and comes again lies in memory once, where its record
    // is among the last.
    fn offered_body(&self, bytes: &[u8]) -> Result<Bytes, NoMemory>
        ensures { IfOk result (λ text. text ≡ note_text (Offered bytes.now)) }
    {
        let records = self.notes.records();
        match same_offer(&records[records.len().saturating_sub(LOOKED_AT)..], bytes) {
            Some(body) => body.copy(),
            None => offered_record(self.alloc, bytes),
        }
    }

    /// Lays bytes at a coin in place of its leaf in the pool; empty bytes take it out. The note is durable at
    /// `Ok`. It makes no digest. Device calls: those of `Journal::append`.
    ///
    /// In this order: `Closed`; `LeafTooLong` for more than 65,536 bytes; `NoMemory`; `DeviceFault`.
    pub fn lay(&mut self, coin: u64, bytes: &[u8]) -> Result<(), LayRefusal>
        ensures answer { lay_stop result ≡ None → result ≡ (lay_effect coin bytes.now).answer }
        ensures memory { result ≡ Err LayRefusal.NoMemory → length bytes.now ≤ MOST_LAID }
        ensures did { Did D.told D.plan D.faults (lay_effect coin bytes.now).note self.old.notes (lay_stop result)
            self.new.notes }
        ensures hash { self.new.hash ≡ self.old.hash }
    {
        if self.notes.is_closed() {
            return Err(LayRefusal::Closed);
        }
        if bytes.len() as u64 > MOST_LAID {
            return Err(LayRefusal::LeafTooLong {
                length: bytes.len() as u64,
            });
        }
        match self.lay_short(coin, bytes) {
            Ok(()) => Ok(()),
            Err(stop) => Err(lay_refusal(stop)),
        }
    }

    // The same of bytes that aren't too long.
    #[tactic(auto, using(crate::proofs::Adds::laid_adds))]
    fn lay_short(&mut self, coin: u64, bytes: &[u8]) -> Result<(), Stop>
        requires { length bytes.now ≤ MOST_LAID }
        ensures did { Did D.told D.plan D.faults (Some (note_text (Laid coin bytes.now))) self.old.notes
            (stopped_by result) self.new.notes }
        ensures hash { self.new.hash ≡ self.old.hash }
    {
        if self.notes.is_closed() {
            return Err(Stop::Closed);
        }
        let body = laid_record(self.alloc, coin, bytes)?;
        self.notes.is_whole();
        self.add_put(coin, bytes, body)
    }

    /// Makes the pool a tree, empties it, and gives the call that commits the tree's root. The note is durable
    /// at `Ok`. It makes a digest for each node of a part with a leaf: at most 65 for a leaf, and for coins
    /// that stand in a row about two. Device calls: those of `Journal::append`.
    ///
    /// In this order: `Closed`; `NoMemory`; `DeviceFault`.
    #[tactic(auto, unfolding(operator_rules::specs::Commands::seal_effect))]
    pub fn seal(&mut self) -> Result<Sealed, SealRefusal>
        ensures answer { seal_stop result ≡ None
            → result ≡ (seal_effect (H.digest_of self.old.hash) self.old.notes.records).answer }
        ensures did { Did D.told D.plan D.faults (seal_effect (H.digest_of self.old.hash) self.old.notes.records).note
            self.old.notes (seal_stop result) self.new.notes }
        ensures hash { self.new.hash ≡ self.old.hash }
    {
        match self.seal_pool() {
            Ok(sealed) => Ok(sealed),
            Err(stop) => Err(seal_refusal(stop)),
        }
    }

    // As `seal`.
    #[tactic(auto, using(crate::proofs::Adds::sealed_adds), unfolding(operator_rules::specs::Commands::seal_effect))]
    fn seal_pool(&mut self) -> Result<Sealed, Stop>
        ensures answer { IfOk result (λ sealed.
            Ok sealed ≡ (seal_effect (H.digest_of self.old.hash) self.old.notes.records).answer) }
        ensures did { Did D.told D.plan D.faults (Some (note_text NoteSealed)) self.old.notes (stopped_by result)
            self.new.notes }
        ensures hash { self.new.hash ≡ self.old.hash }
    {
        if self.notes.is_closed() {
            return Err(Stop::Closed);
        }
        self.pool.undo()?;
        self.trees.make_room()?;
        let body = sealed_record(self.alloc)?;
        self.notes.is_whole();
        let tree = self.pool.take(self.trees.defaults())?;
        match self.notes.add(body) {
            Ok(()) => {
                let leaves = tree.len() as u64;
                let call = RootCall::Commit {
                    account: self.who.account,
                    root: *tree.root(),
                };
                self.trees.push(tree);
                Ok(Sealed { leaves, call })
            }
            Err(stop) => {
                self.pool.give_back(tree);
                Err(stop)
            }
        }
    }

    // Adds a record that puts a leaf.
    #[tactic(auto, using(crate::proofs::Adds::fits_more))]
    fn add_put(&mut self, coin: u64, leaf: &[u8], body: Bytes) -> Result<(), Stop>
        requires { AddsRecord self.old.notes.records body (Some (coin, leaf.now)) }
        ensures did { Did D.told D.plan D.faults (Some body) self.old.notes (stopped_by result) self.new.notes }
        ensures hash { self.new.hash ≡ self.old.hash }
    {
        if self.notes.is_closed() {
            return Err(Stop::Closed);
        }
        self.pool.put(coin, leaf)?;
        self.notes.add(body)?;
        self.pool.keep();
        Ok(())
    }

    /// The disk, handed back.
    pub fn take_disk(self) -> D
        ensures { result ≡ self.notes.disk }
    {
        let Operator { notes, .. } = self;
        notes.take_disk()
    }
}
