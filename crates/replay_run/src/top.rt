ghost use Rattle.std.specs.Prelude.{◌≡◌, ◌≢◌, ◌≤◌, true, false, map, string_bytes, ℕ, Bool, List, Option};
ghost use Rattle.sha2.specs.Sha256.{sha256};
ghost use Rattle.plasma_base.specs.Causes.{faults_after};
ghost use Rattle.streamed_lines.specs.Outside.{ReadsToFault, ReadsToEnd};
ghost use Rattle.run_words.specs.Forms.{form_of, IsSound};
ghost use Rattle.run_endings.specs.Statuses.{is_write_fault, ReadsBy, FaultsBy};
ghost use Rattle.run_endings.specs.Outputs.{EndsAs};
ghost use Rattle.run_endings.specs.Faults.{CountsEither};
ghost use Rattle.replay_run.specs.Forms.{is_verified, reads_input, reads_schedule, uses_notes, uses_leaves};
ghost use Rattle.replay_run.specs.Output.{make_output, verify_output};
ghost use Rattle.replay_run.specs.Headline.{KeepsByForm};
ghost use Rattle.replay_run.specs.Does.{Does, DoesForm};
ghost use Rattle.replay_run.specs.Prompt.{AnswersByForm};
ghost use Rattle.replay_run.specs.Complete.{CompletesByForm};

use super::brief::brief;
use super::ending::status_of_replay;
use super::replay::replay;
use super::verifying::is_verified;
use crash_disk::Disk;
use hss_runs::{init_signer, run_signer, verify_signature};
use log_runs::{run_archive, run_audit};
use node_rules::WalletIdentity;
use node_runs::{
    init_operator, init_operator_with_key, init_wallet, init_watcher, run_operator, run_wallet,
    run_watcher,
};
use plasma_base::{Bytes, Hash32, KeptSha, NoMemory};
use plasma_outside::{Sink, Source};
use run_endings::{Status, put_line};
use run_words::{Form, form_of};
use std::alloc::Global;
use world_maker::{MOST_ROUNDS, make};

/// The line that names the forms of the program.
const USAGE: &[u8] =
    b"usage: plasma replay | brief | wallet | operator | watcher | init | make | verify | hss | audit | archive\n";

/// How a run ended, and the disks of the notes and of the leaves, handed back.
#[derive(Drop)]
pub struct Ended<D> {
    pub status: Status,
    pub notes: D,
    pub leaves: D,
}

impl<D> Ended<D> {
    // A run that ended so, beside the disks that it had.
    fn of(status: Status, notes: D, leaves: D) -> Ended<D>
        ensures { result ≡ record { status = status; notes = notes; leaves = leaves } }
    {
        Ended {
            status,
            notes,
            leaves,
        }
    }

    // A run that used the notes.
    fn of_notes(ended: (D, Status), leaves: D) -> Ended<D>
        ensures { result ≡ record { status = ended.1; notes = ended.0; leaves = leaves } }
    {
        let (notes, status) = ended;
        Ended::of(status, notes, leaves)
    }

    // A run that used both disks.
    fn of_both(ended: (D, D, Status)) -> Ended<D>
        ensures { result ≡ record { status = ended.2; notes = ended.0; leaves = ended.1 } }
    {
        let (notes, leaves, status) = ended;
        Ended::of(status, notes, leaves)
    }
}

/// Runs the program: reads the words that stand after its name and the source, uses a node's two disks, and writes to
/// the sink. Openings are judged by SHA-256 (FIPS 180-4).
///
/// `replay` reads a schedule and writes the text of its trace; `brief` reads one and writes what is counted of it.
/// `wallet`, `operator` and `watcher` open a node from the disks, read a log of the root contract, a line `--` and
/// commands, and write their answers. `init` with a role, a tag, an account, for a wallet a seed, and maybe the types
/// of its key, and for an operator with a key its seed, begins the disks of a node and writes `made`.
/// `make <seed> <count>` writes a schedule of so many rounds. `verify <key> <message> <signature>` writes `valid` or
/// `invalid`. `hss init <seed>` begins the disks of a two-level signer (RFC 8554, section 6) and writes `made`;
/// `hss sign <message>` opens it from the disks and writes `signed`, its top leaf and its leaf, and a signature;
/// `hss verify` is `verify` under a key of two levels. `audit <key> <receipt>` and `archive` read a log and a line
/// `--`; behind it an audit reads a bundle, which convicts the operator who promised the receipt or doesn't, and an
/// archive commands, which it answers. Other words are no form: the run ends as `Usage`, and writes the line that names
/// the forms.
pub fn run<S: Source, K: Sink, D: Disk>(
    alloc: Global,
    words: &[String],
    source: &mut S,
    sink: &mut K,
    notes: D,
    leaves: D,
) -> Ended<D>
    // What each form does: its status, what was written, and where the disks are left, over the words, the bytes that
    // the source gave and what the disks held.
    ensures output { Does D.told D.plan D.faults sha256 notes leaves result.notes result.leaves
        (record {
          left = S.left source.old;
          later = S.left source.new;
          taken = K.taken sink.old;
          after = K.taken sink.new;
        })
        (ReadsToFault (S.faults source.old) (S.faults source.new) (S.failed_last source.new) true) result.status
        (form_of (map string_bytes words.now)) }

    // The headline: where a schedule is read, what the sink took is the text of the run of the bytes that the source
    // gave, and that run keeps the promise.
    ensures headline { KeepsByForm sha256
        (record {
          left = S.left source.old;
          later = S.left source.new;
          taken = K.taken sink.old;
          after = K.taken sink.new;
        })
        (ReadsToFault (S.faults source.old) (S.faults source.new) (S.failed_last source.new) true) result.status
        (form_of (map string_bytes words.now)) }

    // Each line is answered before more is read: at the last take, whatever it gave, the answers to all lines before it
    // were written. Where it failed, nothing was put behind them but the line that says so, or a beginning of it. A
    // source may fail at any take, so it is so at each, and behind a put that failed nothing is taken.
    ensures prompt { AnswersByForm D.told D.plan D.faults sha256 notes leaves
        (record {
          left = S.left source.old;
          later = S.left source.new;
          taken = K.taken sink.old;
          after = K.taken sink.new;
        })
        (S.failed_last source.new) (form_of (map string_bytes words.now)) }

    // What is good is done, unless the source, the sink, a disk or memory fails: a schedule whose lines keep the rules;
    // over the disks of a node a log of its chain, the line `--` and commands that it does; an init of disks that
    // aren't taken; over the disks of a signer with a leaf left a message of 1 to 128 bytes; a log, the line `--` and
    // the bundle that convicts, or lines that an archive answers; and `make`, `verify` and `hss verify`.
    ensures complete { CompletesByForm D.told sha256 notes leaves (S.left source.old) result.status
        (form_of (map string_bytes words.now)) }

    // Schedules, logs, and what stands behind a log are read; no other form touches the source.
    ensures unread { reads_input (form_of (map string_bytes words.now)) ≡ false → source.new ≡ source.old }

    // The disks of a node or a signer are used by its own forms alone.
    ensures notes_stay { uses_notes (form_of (map string_bytes words.now)) ≡ false → result.notes ≡ notes }
    ensures leaves_stay { uses_leaves (form_of (map string_bytes words.now)) ≡ false → result.leaves ≡ leaves }

    // The source is read up to its first fault, which is answered unless the run ended for another cause.
    ensures source_faults { ReadsBy result.status
        (ReadsToFault (S.faults source.old) (S.faults source.new) (S.failed_last source.new)) }

    // The end of the input is met at most once. A source may give it at any take, so nothing is taken behind it.
    ensures source_end { ReadsToEnd (S.ends source.old) (S.ends source.new) }

    // A fault of a node's disk is answered, unless the text isn't written to the end, and comes for no other cause.
    ensures disk_faults { FaultsBy result.status (CountsEither D.faults notes leaves result.notes result.leaves) }

    // Over a sink that takes no memory, want of memory hides no fault of a disk, and, where no schedule is read, none
    // of the source.
    ensures memory { K.takes_memory ≡ false → result.status ≡ Status.NoMemory
        → CountsEither D.faults notes leaves result.notes result.leaves false }
    ensures source_memory { reads_schedule (form_of (map string_bytes words.now)) ≡ false → K.takes_memory ≡ false
        → result.status ≡ Status.NoMemory
        → ReadsToFault (S.faults source.old) (S.faults source.new) (S.failed_last source.new) false }

    // A fault of the sink is answered, and no other answer comes where it had one.
    ensures sink_faults { K.faults sink.new ≡ faults_after (K.faults sink.old) (is_write_fault result.status) }
{
    let digest = KeptSha::new(alloc);
    run_with(alloc, &digest, words, source, sink, notes, leaves)
}

/// Runs the program as `run` does, with openings judged by this digest.
pub fn run_with<H: Hash32, S: Source, K: Sink, D: Disk>(
    alloc: Global,
    h: &H,
    words: &[String],
    source: &mut S,
    sink: &mut K,
    notes: D,
    leaves: D,
) -> Ended<D>
    ensures output { Does D.told D.plan D.faults (H.digest_of h.now) notes leaves result.notes result.leaves
        (record {
          left = S.left source.old;
          later = S.left source.new;
          taken = K.taken sink.old;
          after = K.taken sink.new;
        })
        (ReadsToFault (S.faults source.old) (S.faults source.new) (S.failed_last source.new) true) result.status
        (form_of (map string_bytes words.now)) }
    ensures headline { KeepsByForm (H.digest_of h.now)
        (record {
          left = S.left source.old;
          later = S.left source.new;
          taken = K.taken sink.old;
          after = K.taken sink.new;
        })
        (ReadsToFault (S.faults source.old) (S.faults source.new) (S.failed_last source.new) true) result.status
        (form_of (map string_bytes words.now)) }
    ensures prompt { AnswersByForm D.told D.plan D.faults (H.digest_of h.now) notes leaves
        (record {
          left = S.left source.old;
          later = S.left source.new;
          taken = K.taken sink.old;
          after = K.taken sink.new;
        })
        (S.failed_last source.new) (form_of (map string_bytes words.now)) }
    ensures complete { CompletesByForm D.told (H.digest_of h.now) notes leaves (S.left source.old) result.status
        (form_of (map string_bytes words.now)) }
    ensures unread { reads_input (form_of (map string_bytes words.now)) ≡ false → source.new ≡ source.old }
    ensures notes_stay { uses_notes (form_of (map string_bytes words.now)) ≡ false → result.notes ≡ notes }
    ensures leaves_stay { uses_leaves (form_of (map string_bytes words.now)) ≡ false → result.leaves ≡ leaves }
    ensures source_faults { ReadsBy result.status
        (ReadsToFault (S.faults source.old) (S.faults source.new) (S.failed_last source.new)) }
    ensures source_end { ReadsToEnd (S.ends source.old) (S.ends source.new) }
    ensures disk_faults { FaultsBy result.status (CountsEither D.faults notes leaves result.notes result.leaves) }
    ensures memory { K.takes_memory ≡ false → result.status ≡ Status.NoMemory
        → CountsEither D.faults notes leaves result.notes result.leaves false }
    ensures source_memory { reads_schedule (form_of (map string_bytes words.now)) ≡ false → K.takes_memory ≡ false
        → result.status ≡ Status.NoMemory
        → ReadsToFault (S.faults source.old) (S.faults source.new) (S.failed_last source.new) false }
    ensures sink_faults { K.faults sink.new ≡ faults_after (K.faults sink.old) (is_write_fault result.status) }
{
    match form_of(alloc, words) {
        Ok(form) => run_form(h, alloc, form, source, sink, notes, leaves),
        Err(NoMemory) => Ended {
            status: Status::NoMemory,
            notes,
            leaves,
        },
    }
}

/// Runs the form that the words are, or says that they are none.
fn run_form<H: Hash32, S: Source, K: Sink, D: Disk>(
    h: &H,
    alloc: Global,
    form: Option<Form>,
    source: &mut S,
    sink: &mut K,
    notes: D,
    leaves: D,
) -> Ended<D>
    requires { IsSound form }
    ensures output { DoesForm D.told D.plan D.faults (H.digest_of h.now) notes leaves result.notes result.leaves
        (record {
          left = S.left source.old;
          later = S.left source.new;
          taken = K.taken sink.old;
          after = K.taken sink.new;
        })
        (ReadsToFault (S.faults source.old) (S.faults source.new) (S.failed_last source.new) true) result.status form }
    ensures prompt { AnswersByForm D.told D.plan D.faults (H.digest_of h.now) notes leaves
        (record {
          left = S.left source.old;
          later = S.left source.new;
          taken = K.taken sink.old;
          after = K.taken sink.new;
        })
        (S.failed_last source.new) form }
    ensures unread { reads_input form ≡ false → source.new ≡ source.old }
    ensures notes_stay { uses_notes form ≡ false → result.notes ≡ notes }
    ensures leaves_stay { uses_leaves form ≡ false → result.leaves ≡ leaves }
    ensures source_faults { ReadsBy result.status
        (ReadsToFault (S.faults source.old) (S.faults source.new) (S.failed_last source.new)) }
    ensures source_end { ReadsToEnd (S.ends source.old) (S.ends source.new) }
    ensures memory { K.takes_memory ≡ false → result.status ≡ Status.NoMemory
        → CountsEither D.faults notes leaves result.notes result.leaves false }
    ensures source_memory { reads_schedule form ≡ false → K.takes_memory ≡ false → result.status ≡ Status.NoMemory
        → ReadsToFault (S.faults source.old) (S.faults source.new) (S.failed_last source.new) false }
    ensures sink_faults { K.faults sink.new ≡ faults_after (K.faults sink.old) (is_write_fault result.status) }
{
    match form {
        None => Ended::of(put_line(sink, USAGE, Status::Usage), notes, leaves),
        Some(Form::Replay) => {
            let status = status_of_replay(replay(h, alloc, source, sink));
            Ended::of(status, notes, leaves)
        }
        Some(Form::Brief) => {
            let status = status_of_replay(brief(h, alloc, source, sink));
            Ended::of(status, notes, leaves)
        }
        Some(Form::Make { seed, count }) => {
            Ended::of(run_make(alloc, seed, count, sink), notes, leaves)
        }
        Some(
            Form::Verify {
                key,
                message,
                signature,
            },
        ) => Ended::of(run_verify(&key, &message, &signature, sink), notes, leaves),
        Some(
            Form::HssVerify {
                key,
                message,
                signature,
            },
        ) => {
            let status = verify_signature(
                sink,
                key.as_slice(),
                message.as_slice(),
                signature.as_slice(),
            );
            Ended::of(status, notes, leaves)
        }
        Some(Form::HssInit { seed }) => {
            Ended::of_both(init_signer(alloc, sink, notes, leaves, seed))
        }
        Some(Form::HssSign { message }) => {
            Ended::of_both(run_signer(alloc, sink, notes, leaves, message.as_slice()))
        }
        Some(Form::Audit { key, receipt }) => {
            Ended::of(
                run_audit(alloc, h, key, receipt, source, sink),
                notes,
                leaves,
            )
        }
        Some(Form::Archive) => Ended::of(run_archive(alloc, h, source, sink), notes, leaves),
        Some(Form::Wallet) => { Ended::of_both(run_wallet(alloc, h, source, sink, notes, leaves)) }
        Some(Form::Operator) => {
            Ended::of_both(run_operator(alloc, h, source, sink, notes, leaves))
        }
        Some(Form::Watcher) => {
            Ended::of_notes(run_watcher(alloc, h, source, sink, notes), leaves)
        }
        Some(
            Form::InitWallet {
                tag,
                account,
                seed,
                types,
            },
        ) => {
            let who = WalletIdentity {
                tag,
                account,
                seed,
                types,
            };
            Ended::of_both(init_wallet(alloc, sink, notes, leaves, &who))
        }
        Some(
            Form::InitOperator {
                tag,
                account,
                key_seed: None,
            },
        ) => Ended::of_notes(init_operator(alloc, sink, notes, tag, account), leaves),
        Some(
            Form::InitOperator {
                tag,
                account,
                key_seed: Some(seed),
            },
        ) => {
            Ended::of_both(init_operator_with_key(alloc, sink, notes, leaves, tag, account, seed))
        }
        Some(Form::InitWatcher { tag, account }) => {
            Ended::of_notes(init_watcher(alloc, sink, notes, tag, account), leaves)
        }
    }
}

/// Runs `verify`.
fn run_verify<K: Sink>(key: &Bytes, message: &Bytes, signature: &Bytes, sink: &mut K) -> Status
    ensures output { EndsAs (verify_output (is_verified key.now message.now signature.now)) result
        (K.taken sink.old) (K.taken sink.new) ⊥ }
    ensures no_read_fault { result ≢ Status.ReadFault }
    ensures sink_faults { K.faults sink.new ≡ faults_after (K.faults sink.old) (is_write_fault result) }
{
    if is_verified(key.as_slice(), message.as_slice(), signature.as_slice()) {
        return put_line(sink, b"valid\n", Status::Done);
    }
    put_line(sink, b"invalid\n", Status::Done)
}

/// Runs `make`.
fn run_make<K: Sink>(alloc: Global, seed: u64, count: u64, sink: &mut K) -> Status
    requires few { count ≤ MOST_ROUNDS }
    ensures output { EndsAs (make_output seed count) result (K.taken sink.old) (K.taken sink.new) ⊥ }
    ensures no_read_fault { result ≢ Status.ReadFault }
    ensures sink_faults { K.faults sink.new ≡ faults_after (K.faults sink.old) (is_write_fault result) }
{
    let mut text = Vec::new(alloc);
    match make(alloc, seed, count, &mut text) {
        Ok(()) => put_line(sink, &text, Status::Done),
        Err(NoMemory) => Status::NoMemory,
    }
}
