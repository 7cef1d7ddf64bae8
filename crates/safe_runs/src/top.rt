ghost use Rattle.std.specs.Prelude.{◌≡◌, ◌⊎◌, true, false, map, string_bytes, Ok, IfOk, IfErr};
ghost use Rattle.sha2.specs.Sha256.{sha256};
ghost use Rattle.plasma_base.specs.Causes.{faults_after};
ghost use Rattle.streamed_lines.specs.Outside.{ReadsToFault, ReadsToEnd};
ghost use Rattle.gate_journal.specs.Journal.{is_fault};
ghost use Rattle.run_endings.specs.Statuses.{is_write_fault, FaultsBy, ReadsBy};
ghost use Rattle.safe_runs.specs.Complete.{CompletesBy};
ghost use Rattle.run_endings.specs.Faults.{Counts, CountsEither};
ghost use Rattle.safe_runs.specs.Runs.{Node, HoldsOf, IsRefused, IsUnread, OnlyLooks, RunsSafe, RunsWallet, RunsWatcher, role_of, wallet_in, watcher_in};

use super::guards::Guards;
use super::holdings::Holdings;
use super::image::read_image;
use super::look::{put_refusal, run_look};
use super::node::Holder;
use super::role::{Role, role_of};
use crash_disk::Disk;
use gate_journal::JournalRefusal;
use plasma_base::{Hash32, KeptSha};
use plasma_outside::{Sink, Source};
use run_endings::{Status, put_line};
use std::alloc::Global;

/// The line that names the forms of the program.
const USAGE: &[u8] = b"usage: safe wallet | watcher\n";

/// How a run ended, and the disks of the notes and of the leaves, handed back.
#[derive(Drop)]
pub struct Ended<D> {
    pub status: Status,
    pub notes: D,
    pub leaves: D,
}

/// Runs the program: reads the word that stands after its name, a node's disks and the source, and writes to the sink.
/// Openings are judged by SHA-256 (FIPS 180-4).
///
/// `wallet` and `watcher` read the records of a node from the disks, which they leave as they are, and from the source a
/// log of the root contract, a line `--`, and behind it at most the time by the caller's clock, and then the coins of
/// which the operator didn't show a block. For each coin that the node ever had or guards they write its number, its
/// amount and how it stands, and under it the calls to enter and what the node is to be told. Other words are no form:
/// the run ends as `Usage`, and writes the line that names the forms.
pub fn run<S: Source, K: Sink, D: Disk>(
    alloc: Global,
    words: &[String],
    source: &mut S,
    sink: &mut K,
    notes: D,
    leaves: D,
) -> Ended<D>
    ensures runs { RunsSafe D.told sha256 (role_of (map string_bytes words.now)) notes leaves
        (record {
          left = S.left source.old;
          later = S.left source.new;
          taken = K.taken sink.old;
          after = K.taken sink.new;
        })
        (ReadsToFault (S.faults source.old) (S.faults source.new) (S.failed_last source.new) true) result.status }
    ensures complete { CompletesBy D.told sha256
        (record {
          left = S.left source.old;
          later = S.left source.new;
          taken = K.taken sink.old;
          after = K.taken sink.new;
        })
        result.status (role_of (map string_bytes words.now)) notes leaves }
    ensures notes { OnlyLooks D.told notes result.notes }
    ensures leaves { OnlyLooks D.told leaves result.leaves }
    ensures memory { K.takes_memory ≡ false → result.status ≡ Status.NoMemory
        → CountsEither D.faults notes leaves result.notes result.leaves false }
    ensures source_memory { K.takes_memory ≡ false → result.status ≡ Status.NoMemory
        → ReadsToFault (S.faults source.old) (S.faults source.new) (S.failed_last source.new) false }
    ensures source_faults { ReadsBy result.status
        (ReadsToFault (S.faults source.old) (S.faults source.new) (S.failed_last source.new)) }
    ensures source_end { ReadsToEnd (S.ends source.old) (S.ends source.new) }
    ensures disk_faults { FaultsBy result.status (CountsEither D.faults notes leaves result.notes result.leaves) }
    ensures sink_faults { K.faults sink.new ≡ faults_after (K.faults sink.old) (is_write_fault result.status) }
{
    let digest = KeptSha::new(alloc);
    run_with(alloc, &digest, words, source, sink, notes, leaves)
}

/// Runs the program as `run` does, with openings judged by this digest.
pub fn run_with<H: Hash32, S: Source, K: Sink, D: Disk>(
    alloc: Global,
    h: &H,
    words: &[String],
    source: &mut S,
    sink: &mut K,
    notes: D,
    leaves: D,
) -> Ended<D>
    ensures runs { RunsSafe D.told (H.digest_of h.now) (role_of (map string_bytes words.now)) notes leaves
        (record {
          left = S.left source.old;
          later = S.left source.new;
          taken = K.taken sink.old;
          after = K.taken sink.new;
        })
        (ReadsToFault (S.faults source.old) (S.faults source.new) (S.failed_last source.new) true) result.status }
    ensures complete { CompletesBy D.told (H.digest_of h.now)
        (record {
          left = S.left source.old;
          later = S.left source.new;
          taken = K.taken sink.old;
          after = K.taken sink.new;
        })
        result.status (role_of (map string_bytes words.now)) notes leaves }
    ensures notes { OnlyLooks D.told notes result.notes }
    ensures leaves { OnlyLooks D.told leaves result.leaves }
    ensures memory { K.takes_memory ≡ false → result.status ≡ Status.NoMemory
        → CountsEither D.faults notes leaves result.notes result.leaves false }
    ensures source_memory { K.takes_memory ≡ false → result.status ≡ Status.NoMemory
        → ReadsToFault (S.faults source.old) (S.faults source.new) (S.failed_last source.new) false }
    ensures source_faults { ReadsBy result.status
        (ReadsToFault (S.faults source.old) (S.faults source.new) (S.failed_last source.new)) }
    ensures source_end { ReadsToEnd (S.ends source.old) (S.ends source.new) }
    ensures disk_faults { FaultsBy result.status (CountsEither D.faults notes leaves result.notes result.leaves) }
    ensures sink_faults { K.faults sink.new ≡ faults_after (K.faults sink.old) (is_write_fault result.status) }
{
    run_role(alloc, h, role_of(words), source, sink, notes, leaves)
}

// Runs over the disks of a role, or says that the words are no form.
fn run_role<H: Hash32, S: Source, K: Sink, D: Disk>(
    alloc: Global,
    h: &H,
    role: Option<Role>,
    source: &mut S,
    sink: &mut K,
    notes: D,
    leaves: D,
) -> Ended<D>
    ensures runs { RunsSafe D.told (H.digest_of h.now) role notes leaves
        (record {
          left = S.left source.old;
          later = S.left source.new;
          taken = K.taken sink.old;
          after = K.taken sink.new;
        })
        (ReadsToFault (S.faults source.old) (S.faults source.new) (S.failed_last source.new) true) result.status }
    ensures notes { OnlyLooks D.told notes result.notes }
    ensures leaves { OnlyLooks D.told leaves result.leaves }
    ensures memory { K.takes_memory ≡ false → result.status ≡ Status.NoMemory
        → CountsEither D.faults notes leaves result.notes result.leaves false }
    ensures source_memory { K.takes_memory ≡ false → result.status ≡ Status.NoMemory
        → ReadsToFault (S.faults source.old) (S.faults source.new) (S.failed_last source.new) false }
    ensures source_faults { ReadsBy result.status
        (ReadsToFault (S.faults source.old) (S.faults source.new) (S.failed_last source.new)) }
    ensures source_end { ReadsToEnd (S.ends source.old) (S.ends source.new) }
    ensures disk_faults { FaultsBy result.status (CountsEither D.faults notes leaves result.notes result.leaves) }
    ensures sink_faults { K.faults sink.new ≡ faults_after (K.faults sink.old) (is_write_fault result.status) }
{
    match role {
        None => Ended {
            status: put_line(sink, USAGE, Status::Usage),
            notes,
            leaves,
        },
        Some(Role::Watcher) => {
            let mut notes = notes;
            let status = run_watcher(alloc, h, source, sink, &mut notes);
            Ended {
                status,
                notes,
                leaves,
            }
        }
        Some(Role::Wallet) => {
            let mut notes = notes;
            let mut leaves = leaves;
            let status = run_wallet(alloc, h, source, sink, &mut notes, &mut leaves);
            Ended {
                status,
                notes,
                leaves,
            }
        }
    }
}

// Runs over a watcher's notes.
fn run_watcher<H: Hash32 + Copy, S: Source, K: Sink, D: Disk>(
    alloc: Global,
    h: H,
    source: &mut S,
    sink: &mut K,
    notes: &mut D,
) -> Status
    ensures runs { RunsWatcher D.told (H.digest_of h) notes.old
        (record {
          left = S.left source.old;
          later = S.left source.new;
          taken = K.taken sink.old;
          after = K.taken sink.new;
        })
        (ReadsToFault (S.faults source.old) (S.faults source.new) (S.failed_last source.new) true) result }
    ensures looks { OnlyLooks D.told notes.old notes.new }
    ensures memory { K.takes_memory ≡ false → result ≡ Status.NoMemory → Counts D.faults notes.old notes.new false }
    ensures source_memory { K.takes_memory ≡ false → result ≡ Status.NoMemory
        → ReadsToFault (S.faults source.old) (S.faults source.new) (S.failed_last source.new) false }
    ensures source_faults { ReadsBy result
        (ReadsToFault (S.faults source.old) (S.faults source.new) (S.failed_last source.new)) }
    ensures source_end { ReadsToEnd (S.ends source.old) (S.ends source.new) }
    ensures disk_faults { FaultsBy result (Counts D.faults notes.old notes.new) }
    ensures sink_faults { K.faults sink.new ≡ faults_after (K.faults sink.old) (is_write_fault result) }
{
    match read_watcher(alloc, h, notes) {
        Ok(node) => run_look(alloc, &node, source, sink),
        Err(why) => put_refusal(alloc, sink, why),
    }
}

// Reads the watcher that a disk keeps.
fn read_watcher<H: Hash32 + Copy, D: Disk>(
    alloc: Global,
    h: H,
    notes: &mut D,
) -> Result<Guards, JournalRefusal>
    ensures read { IfOk result (λ read. (at : Node) × HoldsOf D.told notes.old
        (λ image. watcher_in (H.digest_of h) image ≡ Ok at) × ⟦<Guards as Holder>⟧.is read at) }
    ensures sound { IfOk result (λ read. ⟦<Guards as Holder>⟧.sound read) }
    ensures refused { IfErr result (λ why. IsUnread why
        ⊎ HoldsOf D.told notes.old (λ image. IsRefused (watcher_in (H.digest_of h) image) why)) }
    ensures faults { Counts D.faults notes.old notes.new (is_fault result) }
    ensures looks { OnlyLooks D.told notes.old notes.new }
{
    let image = read_image(alloc, notes)?;
    Guards::read(alloc, h, image)
}

// Runs over a wallet's notes and leaves.
fn run_wallet<H: Hash32 + Copy, S: Source, K: Sink, D: Disk>(
    alloc: Global,
    h: H,
    source: &mut S,
    sink: &mut K,
    notes: &mut D,
    leaves: &mut D,
) -> Status
    ensures runs { RunsWallet D.told (H.digest_of h) notes.old leaves.old
        (record {
          left = S.left source.old;
          later = S.left source.new;
          taken = K.taken sink.old;
          after = K.taken sink.new;
        })
        (ReadsToFault (S.faults source.old) (S.faults source.new) (S.failed_last source.new) true) result }
    ensures notes { OnlyLooks D.told notes.old notes.new }
    ensures leaves { OnlyLooks D.told leaves.old leaves.new }
    ensures memory { K.takes_memory ≡ false → result ≡ Status.NoMemory
        → CountsEither D.faults notes.old leaves.old notes.new leaves.new false }
    ensures source_memory { K.takes_memory ≡ false → result ≡ Status.NoMemory
        → ReadsToFault (S.faults source.old) (S.faults source.new) (S.failed_last source.new) false }
    ensures source_faults { ReadsBy result
        (ReadsToFault (S.faults source.old) (S.faults source.new) (S.failed_last source.new)) }
    ensures source_end { ReadsToEnd (S.ends source.old) (S.ends source.new) }
    ensures disk_faults { FaultsBy result (CountsEither D.faults notes.old leaves.old notes.new leaves.new) }
    ensures sink_faults { K.faults sink.new ≡ faults_after (K.faults sink.old) (is_write_fault result) }
{
    match read_wallet(alloc, h, notes, leaves) {
        Ok(node) => run_look(alloc, &node, source, sink),
        Err(why) => put_refusal(alloc, sink, why),
    }
}

// Reads the wallet that two disks keep.
fn read_wallet<H: Hash32 + Copy, D: Disk>(
    alloc: Global,
    h: H,
    notes: &mut D,
    leaves: &mut D,
) -> Result<Holdings<H>, JournalRefusal>
    ensures read { IfOk result (λ read. (at : Node) × HoldsOf D.told notes.old
        (λ of_notes. HoldsOf D.told leaves.old (λ of_leaves. wallet_in (H.digest_of h) of_notes of_leaves ≡ Ok at))
        × ⟦<Holdings<H> as Holder>⟧.is read at) }
    ensures sound { IfOk result (λ read. ⟦<Holdings<H> as Holder>⟧.sound read) }
    ensures refused { IfErr result (λ why. IsUnread why
        ⊎ HoldsOf D.told notes.old (λ of_notes. HoldsOf D.told leaves.old
        (λ of_leaves. IsRefused (wallet_in (H.digest_of h) of_notes of_leaves) why))) }
    ensures faults { CountsEither D.faults notes.old leaves.old notes.new leaves.new (is_fault result) }
    ensures notes { OnlyLooks D.told notes.old notes.new }
    ensures leaves { OnlyLooks D.told leaves.old leaves.new }
{
    let of_notes = read_image(alloc, notes)?;
    let of_leaves = read_image(alloc, leaves)?;
    Holdings::read(alloc, h, of_notes, of_leaves)
}
