ghost use Rattle.std.specs.Prelude.{◌≡◌, ◌≢◌, ◌≤◌, [], true, Err, OnOk};
ghost use Rattle.plasma_tx.specs.Views.{blocks};
ghost use Rattle.plasma_tx.specs.Shown.{tests_by};
ghost use Rattle.coin_history.specs.Bundles.{AreRising, HasFirstItem, bundle_in};
ghost use Rattle.coin_history.specs.Checking.{above, lowest_failure, opening_at, unless_failed};
ghost use Rattle.coin_history.specs.History.{leaf_of_opening};
ghost use Rattle.receipt_audit.specs.Audit.{audit_refusal, breach_of, conviction_answer, conviction_of, convicted, failure_of_breach, is_kept, is_of_audit, IsBroken, IsDue, shown_by};

use super::promise::{PROMISE_LENGTH, Promise, promise_in};
use super::refusal::AuditRefusal;
use coin_history::{Bundle, HistoryRefusal, Span, first_asked, leaf_at, next_block};
use lms_sign::{PublicKey, verify};
use plasma_base::Hash32;
use plasma_tx::{RawOpening, RootLog};
use sparse_merkle::defaults;
use std::alloc::Global;

/// What an operator is convicted of: a promise for a transfer of the coin that no block after it was issued
/// and up to the due one has.
#[derive(Clone, Copy, PartialEq, Eq)]
pub struct Conviction {
    pub coin: u64,
    /// How many blocks there were when the promise was issued.
    pub issued: u64,
    pub due: u64,
}

/// What a receipt's promise convicts the owner of the key of, where it is signed under the key and the bytes
/// spell a bundle with an opening of each committed block after the promise was issued and up to the due
/// one, of which none has the promised transfer. Then the promise was broken, or the opening of a block and
/// the map that the block commits show two different strings of one digest.
///
/// A receipt is a promise of 100 bytes and a signature. In this order: `BadReceipt` where it has under 100
/// bytes, or begins with another mark or another tag than the log's; `BadKey` where the key's types are no
/// supported pair; `NotSigned`; `NotYet` where there are fewer blocks than the due one; `BadBundle`;
/// `OtherCoin`; `UnknownBlock` of a tip that isn't the due block. Else the lowest block at which something
/// is wrong is refused: `MissingBlock` where it has to be opened and isn't, `UnknownBlock` where it is
/// opened and doesn't have to be, `BadOpening` where the opening doesn't read or doesn't open the root,
/// `Honoured` where its leaf isn't empty and has the promise's digest. `NoMemory` may come in place of any
/// from `BadBundle` on, where the bundle's bytes have an item, and of none before.
pub fn convict<H: Hash32>(
    alloc: Global,
    h: &H,
    log: &RootLog,
    key: &[u8; 56],
    receipt: &[u8],
    bundle: &[u8],
) -> Result<Conviction, AuditRefusal>
    ensures value { result ≢ Err AuditRefusal.NoMemory
        → result ≡ conviction_answer (H.digest_of h.now) log.now key.now receipt.now bundle.now }
    ensures memory { result ≡ Err AuditRefusal.NoMemory → IsDue log.now key.now receipt.now }
    ensures item { result ≡ Err AuditRefusal.NoMemory → HasFirstItem bundle.now }
    ensures broken { OnOk result (IsBroken (H.digest_of h.now) log.now key.now receipt.now bundle.now) }
{
    audited(alloc, h, log, key, receipt, bundle)
}

// The same answer.
#[tactic(auto, unfolding(crate::specs::Audit::conviction_answer))]
fn audited<H: Hash32>(
    alloc: Global,
    h: &H,
    log: &RootLog,
    key: &[u8; 56],
    receipt: &[u8],
    bundle: &[u8],
) -> Result<Conviction, AuditRefusal>
    ensures value { result ≢ Err AuditRefusal.NoMemory
        → result ≡ conviction_answer (H.digest_of h.now) log.now key.now receipt.now bundle.now }
    ensures memory { result ≡ Err AuditRefusal.NoMemory → IsDue log.now key.now receipt.now }
    ensures item { result ≡ Err AuditRefusal.NoMemory → HasFirstItem bundle.now }
{
    let Some(promise) = promise_in(&log.tag(), receipt) else {
        return Err(AuditRefusal::BadReceipt);
    };
    let Ok(key) = PublicKey::read(key) else {
        return Err(AuditRefusal::BadKey);
    };
    if !verify(&key, &receipt[..PROMISE_LENGTH], &receipt[PROMISE_LENGTH..]) {
        return Err(AuditRefusal::NotSigned);
    }
    if log.blocks() < promise.due {
        return Err(AuditRefusal::NotYet { due: promise.due });
    }
    shown_by(alloc, h, log, &promise, bundle)
}

// What the bytes of a bundle show of a promise whose due block is there.
fn shown_by<H: Hash32>(
    alloc: Global,
    h: &H,
    log: &RootLog,
    promise: &Promise,
    bytes: &[u8],
) -> Result<Conviction, AuditRefusal>
    requires { promise.now.due ≤ blocks log.now.log }
    ensures value { result ≢ Err AuditRefusal.NoMemory
        → result ≡ shown_by (H.digest_of h.now) log.now.log promise.now (bundle_in bytes.now) }
    ensures item { result ≡ Err AuditRefusal.NoMemory → HasFirstItem bytes.now }
{
    let bundle = match Bundle::read(alloc, bytes) {
        Ok(bundle) => bundle,
        Err(why) => return Err(audit_refusal(why)),
    };
    if bundle.coin != promise.coin {
        return Err(AuditRefusal::OtherCoin { coin: bundle.coin });
    }
    judged(alloc, h, log, promise, &bundle)
}

// What a bundle of the promise's coin shows of it.
fn judged<H: Hash32>(
    alloc: Global,
    h: &H,
    log: &RootLog,
    promise: &Promise,
    bundle: &Bundle,
) -> Result<Conviction, AuditRefusal>
    requires rising { AreRising bundle.now.openings }
    requires made { promise.now.due ≤ blocks log.now.log }
    ensures value { result ≢ Err AuditRefusal.NoMemory → result ≡ convicted promise.now
        (breach_of (tests_by (H.digest_of h.now)) (H.digest_of h.now) log.now.log promise.now bundle.now) }
    ensures some { result ≡ Err AuditRefusal.NoMemory → bundle.now.openings ≢ [] }
{
    match breach_of(alloc, h, log, promise, bundle) {
        Ok(()) => Ok(conviction_of(promise)),
        Err(why) => Err(audit_refusal(why)),
    }
}

fn conviction_of(promise: &Promise) -> Conviction
    ensures { result ≡ conviction_of promise.now }
{
    Conviction {
        coin: promise.coin,
        issued: promise.issued,
        due: promise.due,
    }
}

// Whether a bundle shows that a promise was broken, in the words of histories.
#[tactic(auto, unfolding(crate::specs::Audit::breach_of))]
fn breach_of<H: Hash32>(
    alloc: Global,
    h: &H,
    log: &RootLog,
    promise: &Promise,
    bundle: &Bundle,
) -> Result<(), HistoryRefusal>
    requires rising { AreRising bundle.now.openings }
    requires made { promise.now.due ≤ blocks log.now.log }
    ensures value { result ≢ Err HistoryRefusal.NoMemory → result
        ≡ breach_of (tests_by (H.digest_of h.now)) (H.digest_of h.now) log.now.log promise.now bundle.now }
    ensures some { result ≡ Err HistoryRefusal.NoMemory → bundle.now.openings ≢ [] }
{
    if bundle.tip != promise.due {
        return Err(HistoryRefusal::UnknownBlock { n: bundle.tip });
    }
    are_unkept(alloc, h, log, promise, bundle)
}

// Whether the openings are those of the committed blocks of the promise's span, and none has its transfer.
fn are_unkept<H: Hash32>(
    alloc: Global,
    h: &H,
    log: &RootLog,
    promise: &Promise,
    bundle: &Bundle,
) -> Result<(), HistoryRefusal>
    requires rising { AreRising bundle.now.openings }
    requires made { promise.now.due ≤ blocks log.now.log }
    ensures value { result ≢ Err HistoryRefusal.NoMemory → result ≡ unless_failed
        (lowest_failure (λ n. failure_of_breach (tests_by (H.digest_of h.now)) (H.digest_of h.now) log.now.log
        promise.now n (opening_at bundle.now.openings n))
        (above promise.now.due bundle.now.openings))
        tt }
    ensures some { result ≡ Err HistoryRefusal.NoMemory → bundle.now.openings ≢ [] }
{
    let defaults = defaults(h);
    let span = Span {
        low: promise.issued,
        high: promise.due,
    };
    let mut passed = 0;
    for opening in bundle.openings.as_slice() {
        if let Some(n) = first_asked(log, span, passed, opening.block) {
            return Err(HistoryRefusal::MissingBlock { n });
        }
        let leaf = leaf_at(alloc, h, &defaults, log, span, promise.coin, opening)?;
        if is_kept(h, promise, opening, leaf.as_slice()) {
            return Err(HistoryRefusal::NotAbsent { n: opening.block });
        }
        passed = next_block(log, opening.block);
    }
    match first_asked(log, span, passed, next_block(log, span.high)) {
        Some(n) => Err(HistoryRefusal::MissingBlock { n }),
        None => Ok(()),
    }
}

// Whether an opening with this leaf shows the promised transfer.
fn is_kept<H: Hash32>(h: &H, promise: &Promise, opening: &RawOpening, leaf: &[u8]) -> bool
    requires { leaf.now ≡ leaf_of_opening opening.now }
    ensures { result ≡ is_kept (H.digest_of h.now) promise.now opening.now }
{
    let _ = opening;
    !leaf.is_empty() && h.digest(leaf) == promise.digest
}

// The same refusal, as an auditor's. A bundle that is read or shows a breach is refused for none of the last three.
fn audit_refusal(why: HistoryRefusal) -> AuditRefusal
    requires { is_of_audit why ≡ true }
    ensures { result ≡ audit_refusal why }
{
    match why {
        HistoryRefusal::BadBundle { place } => AuditRefusal::BadBundle { place },
        HistoryRefusal::UnknownBlock { n } => AuditRefusal::UnknownBlock { n },
        HistoryRefusal::MissingBlock { n } => AuditRefusal::MissingBlock { n },
        HistoryRefusal::BadOpening { n } => AuditRefusal::BadOpening { n },
        HistoryRefusal::NotAbsent { n } => AuditRefusal::Honoured { n },
        HistoryRefusal::NoMemory => AuditRefusal::NoMemory,
        HistoryRefusal::NoCoin
        | HistoryRefusal::NotLink { n: _ }
        | HistoryRefusal::BadSignature { n: _ } => unreachable!(),
    }
}
