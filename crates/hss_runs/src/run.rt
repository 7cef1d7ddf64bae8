ghost use Rattle.std.specs.Prelude.{◌≡◌, ◌≢◌, true, false, Some};
ghost use Rattle.plasma_base.specs.Causes.{faults_after};
ghost use Rattle.run_endings.specs.Statuses.{is_write_fault, FaultsBy};
ghost use Rattle.run_endings.specs.Faults.{CountsEither};
ghost use Rattle.hss_keys.specs.Entries.{entries_of};
ghost use Rattle.hss_runs.specs.Signing.{is_signable, next_leaf, signing, signs};
ghost use Rattle.hss_runs.specs.Runs.{RunsSigner, Signs, SpendsNone};
ghost use Rattle.hss_runs.specs.Complete.{SigningComplete};

use super::answer::Answer;
use super::ending::put_refused;
use super::next::{NextLeaf, next_leaf};
use super::opening::{ReturnedBoth, Signer, open_signer};
use super::signing::bind_next;
use crash_disk::Disk;
use hss_keys::{HssSecret, Levels};
use node_journal::Stop;
use node_runs::put_opening_refusal;
use plasma_base::NoMemory;
use plasma_outside::Sink;
use run_endings::{Status, put_line};
use std::alloc::Global;

// The most bytes of a message.
const MOST_BYTES: usize = 128;

// Whether a message has 1 to 128 bytes.
fn is_signable(message: &[u8]) -> bool
    ensures { result ≡ is_signable message.now }
{
    1 <= message.len() && message.len() <= MOST_BYTES
}

// Signs a message by the leaf that is next, and puts the answer.
fn sign_by<D: Disk, K: Sink>(
    alloc: Global,
    sink: &mut K,
    secret: &HssSecret,
    levels: &mut Levels<D>,
    next: NextLeaf,
    message: &[u8],
) -> Status
    requires secret { secret.now ≡ levels.old.seed }
    requires open { levels.old.notes.closed ≡ false }
    requires next { next_leaf levels.old.seed (entries_of levels.old.notes.records) ≡ Some next }
    requires signable { is_signable message.now ≡ true }
    ensures signs { Signs D.told D.plan D.faults (K.taken sink.old) (K.taken sink.new) result
        (signs levels.old.seed message.now next) levels.old.notes levels.new.notes }
    ensures memory { K.takes_memory ≡ false → result ≡ Status.NoMemory
        → D.faults levels.new.notes.disk ≡ D.faults levels.old.notes.disk }
    ensures unspent { K.takes_memory ≡ false → result ≡ Status.NoMemory → levels.new.notes ≡ levels.old.notes }
    ensures no_read_fault { result ≢ Status.ReadFault }
    ensures sink_faults { K.faults sink.new ≡ faults_after (K.faults sink.old) (is_write_fault result) }
{
    levels.is_whole();
    let answer = match Answer::prepare(alloc, secret, next) {
        Ok(answer) => answer,
        Err(NoMemory) => return Status::NoMemory,
    };
    match bind_next(levels, secret, next, message) {
        Ok(bound) => put_line(sink, &answer.sign(secret, bound), Status::Done),
        Err(Stop::DeviceFault) => put_line(sink, b"device fault\n", Status::DeviceFault),
        Err(_) => Status::NoMemory,
    }
}

// Signs a message by the next leaf, or refuses it, and says so.
fn sign<D: Disk, K: Sink>(
    alloc: Global,
    sink: &mut K,
    secret: &HssSecret,
    levels: &mut Levels<D>,
    message: &[u8],
) -> Status
    requires secret { secret.now ≡ levels.old.seed }
    requires open { levels.old.notes.closed ≡ false }
    ensures signs { Signs D.told D.plan D.faults (K.taken sink.old) (K.taken sink.new) result
        (signing levels.old.seed levels.old.notes.records message.now) levels.old.notes levels.new.notes }
    ensures memory { K.takes_memory ≡ false → result ≡ Status.NoMemory
        → D.faults levels.new.notes.disk ≡ D.faults levels.old.notes.disk }
    ensures unspent { K.takes_memory ≡ false → result ≡ Status.NoMemory → levels.new.notes ≡ levels.old.notes }
    ensures no_read_fault { result ≢ Status.ReadFault }
    ensures sink_faults { K.faults sink.new ≡ faults_after (K.faults sink.old) (is_write_fault result) }
{
    levels.is_whole();
    if !is_signable(message) {
        return put_refused(alloc, sink, b"bad-length", message.len() as u64);
    }
    match next_leaf(levels, secret) {
        Some(next) => sign_by(alloc, sink, secret, levels, next, message),
        None => put_refused(alloc, sink, b"key-spent", u64::from(levels.opened())),
    }
}

/// Signs a message by the two-level signer of two disks: opens them, the notes before the leaves, and hands both back
/// beside the run's status.
///
/// The message is bound to the next leaf of the last bottom key. Where that has no leaf left, or there is no bottom
/// key, the next one is opened first, and its leaf 0 signs. Then `signed`, the number of the top leaf and that of the
/// leaf are put as a line, and the signature as a hex on the next. By then each image that a crash may leave of the
/// leaves keeps the record. Device calls: those of `Journal::open` on each disk, and of one or two appends on the
/// leaves'.
///
/// In this order: what the opening is refused for (`not a journal` with the place, `device fault`); `refused
/// bad-length` with the length, where the message hasn't 1 to 128 bytes; `refused key-spent` with the number of bottom
/// keys, where no leaf is left; `device fault` of an append. A refusal adds nothing. Want of memory says nothing, and
/// comes before the first append unless it is the sink's.
pub fn run_signer<D: Disk, K: Sink>(
    alloc: Global,
    sink: &mut K,
    notes: D,
    leaves: D,
    message: &[u8],
) -> (D, D, Status)
    ensures runs { RunsSigner D.told D.plan D.faults (K.taken sink.old) (K.taken sink.new) result.2
        message.now notes leaves result.0 result.1 }
    ensures complete { SigningComplete D.told result.2 message.now notes leaves }
    ensures memory { K.takes_memory ≡ false → result.2 ≡ Status.NoMemory
        → CountsEither D.faults notes leaves result.0 result.1 false }
    ensures unspent { K.takes_memory ≡ false → result.2 ≡ Status.NoMemory
        → SpendsNone D.told D.plan D.faults notes leaves result.0 result.1 }
    ensures disk_faults { FaultsBy result.2 (CountsEither D.faults notes leaves result.0 result.1) }
    ensures no_read_fault { result.2 ≢ Status.ReadFault }
    ensures sink_faults { K.faults sink.new ≡ faults_after (K.faults sink.old) (is_write_fault result.2) }
{
    match open_signer(alloc, notes, leaves) {
        Ok(signer) => {
            let Signer {
                notes,
                secret,
                mut levels,
            } = signer;
            let status = sign(alloc, sink, &secret, &mut levels, message);
            let notes = notes.take_disk();
            let leaves = levels.take_disk();
            (notes, leaves, status)
        }
        Err(returned) => {
            let ReturnedBoth { notes, leaves, why } = returned;
            let status = put_opening_refusal(alloc, sink, why);
            (notes, leaves, status)
        }
    }
}
