ghost use Rattle.std.specs.Prelude.{◌≡◌, ◌+◌, ◌<◌, ◌≤◌, [], ◌∷◌, ◌++◌, true, false, length, take, drop, Ok, Err, IfOk, OnOk, OnErr, None, Some};
ghost use Rattle.lms_sign.specs.Types.{leaf_count, signature_length};
ghost use Rattle.lms_sign.specs.Tree.{public_key_of, signature_of};
ghost use Rattle.lms_sign.specs.Valid.{IsValid};
ghost use Rattle.sparse_merkle.specs.TreeDigest.{leaf_of};
ghost use Rattle.plasma_tx.specs.Spelling.{body_at_start};
ghost use Rattle.node_journal.specs.Effect.{first_cause};
ghost use Rattle.node_journal.specs.Notes.{Did};
ghost use Rattle.node_journal.specs.declared.stop.Stop.{Stop};
ghost use Rattle.leaf_journal.specs.Records.{binding_record, is_marked, messages_of};
ghost use Rattle.operator_rules.specs.Commands.{forest_in};
ghost use Rattle.receipt_audit.specs.Promises.{is_promise, promise_text};
ghost use Rattle.receipt_audit.specs.Desk.{DidIssue, issue_causes, issue_effect, issue_stop, promise_for, unoffered};

use super::desk::Desk;
use super::promise::{PROMISE_LENGTH, Promise, number_at, put};
use super::refusal::IssueRefusal;
use crash_disk::{Disk, DiskFailed};
use leaf_journal::Bound;
use lms_sign::SecretKey;
use operator_core::Operator;
use operator_rules::OfferRefusal;
use plasma_base::{Bytes, Hash32, NoMemory};
use plasma_tx::RootLog;
use std::alloc::Global;

/// A promise of 100 bytes, and its signature.
#[derive(Drop)]
pub struct Receipt {
    pub bytes: Bytes,
}

// Room for a promise and its signature.
fn room_for(alloc: Global, key: &SecretKey) -> Result<Vec<u8>, NoMemory>
    ensures { IfOk result (λ bytes. length bytes.items ≡ 100 + signature_length key.now.types) }
{
    let length = PROMISE_LENGTH + key.signature_len();
    let bytes = vec![in alloc; 0u8; length]?;
    Ok(bytes)
}

// The promise for the bytes of a signed transfer, by so many blocks.
fn promise_for<H: Hash32>(h: &H, tag: [u8; 32], blocks: u64, tx: &[u8], due: u64) -> Promise
    requires { 52 ≤ length tx.now }
    ensures { result ≡ promise_for (H.digest_of h.now) tag blocks tx.now due }
{
    Promise {
        tag,
        coin: number_at(tx, 36),
        parent: number_at(tx, 44),
        digest: h.digest(tx),
        issued: blocks,
        due,
    }
}

// The promise's bytes in front of the room for its signature.
fn with_promise(text: &[u8; 100], room: Vec<u8>) -> Vec<u8>
    requires { 100 ≤ length room.items }
    ensures room { length result.items ≡ length room.items }
    ensures front { take 100 result.items ≡ text.now }
{
    let mut bytes = room;
    put(&mut bytes, 0, text);
    bytes
}

// Signs the promise that a leaf is bound to, in the room behind it.
fn signed(key: &SecretKey, bound: Bound, bytes: Vec<u8>) -> Receipt
    requires key { public_key_of key.now ≡ bound.key }
    requires room { length bytes.items ≡ length bound.message + signature_length key.now.types }
    requires front { take (length bound.message) bytes.items ≡ bound.message }
    ensures value { result.bytes ≡ bound.message ++ signature_of key.now bound.leaf bound.message }
    ensures valid { IsValid bound.key bound.message (signature_of key.now bound.leaf bound.message) }
{
    let mut bytes = bytes;
    let place = bound.message().len();
    bound.sign(key, &mut bytes[place..]);
    Receipt {
        bytes: Bytes::from_vec(bytes),
    }
}

// What an issue is refused for, whose offer was refused so.
fn unoffered(why: OfferRefusal) -> IssueRefusal
    ensures { result ≡ unoffered why }
{
    match why {
        OfferRefusal::NoMemory => IssueRefusal::NoMemory,
        why => IssueRefusal::Offer { why },
    }
}

impl<D: Disk> Desk<D> {
    // What an issue is refused for before the transfer is offered.
    fn cause_of(&self, key: &SecretKey, blocks: u64, due: u64) -> Option<IssueRefusal>
        ensures { result ≡ first_cause (issue_causes (leaf_count key.now.types) self.now.notes.records blocks due) }
    {
        if due <= blocks {
            return Some(IssueRefusal::BadDue { blocks });
        }
        if !self.marked() {
            return Some(IssueRefusal::OldJournal);
        }
        let used = self.used();
        if key.leaves() <= used {
            return Some(IssueRefusal::KeySpent { used });
        }
        None
    }

    // Binds the next leaf to a promise.
    fn bind_promise(&mut self, key: &SecretKey, text: &[u8; 100]) -> Result<Bound, DiskFailed>
        requires key { public_key_of key.now ≡ self.old.key }
        requires open { self.old.notes.closed ≡ false }
        requires marked { is_marked self.old.notes.records ≡ true }
        requires left { length (messages_of self.old.notes.records) < leaf_count key.now.types }
        requires promise { is_promise text.now ≡ true }
        ensures bound { IfOk result (λ bound. bound.key ≡ self.old.key) }
        ensures leaf { IfOk result (λ bound. bound.leaf ≡ length (messages_of self.old.notes.records)) }
        ensures message { IfOk result (λ bound. bound.message ≡ text.now) }
        ensures messages { OnOk result (messages_of self.new.notes.records
            ≡ messages_of self.old.notes.records ++ text.now ∷ []) }
        ensures did { OnOk result (Did D.told D.plan D.faults
            (Some (binding_record self.old.notes.records text.now)) self.old.notes None self.new.notes) }
        ensures failed { OnErr result (Did D.told D.plan D.faults
            (Some (binding_record self.old.notes.records text.now)) self.old.notes (Some Stop.DeviceFault)
            self.new.notes) }
        ensures key { self.new.key ≡ self.old.key }
    {
        let used = self.used();
        let leaves = key.leaves();
        prove!(used < leaves);
        match self.leaves.bind(text) {
            Ok(bound) => Ok(bound),
            Err(_) => Err(DiskFailed),
        }
    }

    // Binds the next leaf to a promise, and signs it in the room that there is.
    fn sign_promise(
        &mut self,
        key: &SecretKey,
        promise: &Promise,
        room: Vec<u8>,
    ) -> Result<Receipt, DiskFailed>
        requires key { public_key_of key.now ≡ self.old.key }
        requires open { self.old.notes.closed ≡ false }
        requires marked { is_marked self.old.notes.records ≡ true }
        requires left { length (messages_of self.old.notes.records) < leaf_count key.now.types }
        requires room { length room.items ≡ 100 + signature_length key.now.types }
        ensures value { IfOk result (λ receipt. receipt.bytes ≡ promise_text promise.now
            ++ signature_of key.now (length (messages_of self.old.notes.records)) (promise_text promise.now)) }
        ensures valid { IfOk result (λ receipt.
            IsValid (public_key_of key.now) (take 100 receipt.bytes) (drop 100 receipt.bytes)) }
        ensures bound { IfOk result (λ receipt. messages_of self.new.notes.records
            ≡ messages_of self.old.notes.records ++ take 100 receipt.bytes ∷ []) }
        ensures did { OnOk result (Did D.told D.plan D.faults
            (Some (binding_record self.old.notes.records (promise_text promise.now))) self.old.notes None
            self.new.notes) }
        ensures failed { OnErr result (Did D.told D.plan D.faults
            (Some (binding_record self.old.notes.records (promise_text promise.now))) self.old.notes
            (Some Stop.DeviceFault) self.new.notes) }
        ensures key { self.new.key ≡ self.old.key }
    {
        let text = promise.write();
        let bytes = with_promise(&text, room);
        match self.bind_promise(key, &text) {
            Ok(bound) => Ok(signed(key, bound, bytes)),
            Err(DiskFailed) => Err(DiskFailed),
        }
    }

    /// Issues a receipt for a transfer: offers its bytes to the operator, and then promises that a block up to
    /// the due one will have it, by the next leaf of the key. The promise's digest is that of `h`. The key has
    /// to be the one of `open`. At `Ok` the promise is signed and its record durable, and the operator's pool
    /// has the transfer at its coin. Device calls: those of `offer`, and then those of `Leaves::bind`.
    ///
    /// In this order: `Closed` of the desk; `BadDue` where the due block is there already; `OldJournal` where
    /// the desk's journal has no marker; `KeySpent` where all leaves are bound; `Offer` where the operator
    /// refuses the transfer, with its cause; `DeviceFault` of the desk's disk, which closes the desk, and
    /// after which the transfer stays offered without a receipt. `NoMemory` may come in place of any after
    /// `KeySpent`; then nothing changed.
    pub fn issue<E: Disk, H: Hash32 + Copy>(
        &mut self,
        h: H,
        key: &SecretKey,
        op: &mut Operator<E, H>,
        log: &RootLog,
        tx: &[u8],
        due: u64,
    ) -> Result<Receipt, IssueRefusal>
        requires key { public_key_of key.now ≡ self.old.key }
        ensures answer { issue_stop result ≡ None → result
            ≡ (issue_effect (H.digest_of h) (H.digest_of op.old.hash) key.now op.old.notes.records self.old.notes.records
            log.now.log tx.now due).answer }
        ensures did { DidIssue E.told E.plan E.faults D.told D.plan D.faults
            (issue_effect (H.digest_of h) (H.digest_of op.old.hash) key.now op.old.notes.records self.old.notes.records
            log.now.log tx.now due)
            op.old.notes self.old.notes (issue_stop result) op.new.notes self.new.notes }
        ensures signed { IfOk result (λ receipt.
            IsValid (public_key_of key.now) (take 100 receipt.bytes) (drop 100 receipt.bytes)) }
        ensures bound { IfOk result (λ receipt. messages_of self.new.notes.records
            ≡ messages_of self.old.notes.records ++ take 100 receipt.bytes ∷ []) }
        ensures pooled { OnOk result
            (leaf_of (forest_in op.new.notes.records).pool (body_at_start tx.now).coin ≡ tx.now) }
        ensures key_stays { self.new.key ≡ self.old.key }
        ensures hash { op.new.hash ≡ op.old.hash }
    {
        if self.is_closed() {
            return Err(IssueRefusal::Closed);
        }
        let blocks = log.blocks();
        if let Some(why) = self.cause_of(key, blocks, due) {
            return Err(why);
        }
        let Ok(room) = room_for(self.alloc, key) else {
            return Err(IssueRefusal::NoMemory);
        };
        op.is_whole();
        let tag = op.tag();
        match op.offer(log, tx) {
            Ok(_) => {}
            Err(why) => return Err(unoffered(why)),
        }
        let promise = promise_for(&h, tag, blocks, tx, due);
        match self.sign_promise(key, &promise, room) {
            Ok(receipt) => Ok(receipt),
            Err(DiskFailed) => Err(IssueRefusal::DeviceFault),
        }
    }
}
