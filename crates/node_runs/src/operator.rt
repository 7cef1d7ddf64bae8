ghost use Rattle.std.specs.Prelude.{◌≡◌, true, false, Some, Option, List, ℕ};
ghost use Rattle.plasma_base.specs.Causes.{faults_after};
ghost use Rattle.crash_disk.specs.Calls.{WhereTold};
ghost use Rattle.gate_journal.specs.Journal.{IsSettled};
ghost use Rattle.operator_rules.specs.Records.{who_is};
ghost use Rattle.streamed_lines.specs.Outside.{ReadsToFault, ReadsToEnd};
ghost use Rattle.run_endings.specs.Statuses.{is_write_fault, ReadsBy};
ghost use Rattle.run_endings.specs.Faults.{CountsEither};
ghost use Rattle.node_runs.specs.Operators.{RunsBehind, RunsOperator};
ghost use Rattle.node_runs.specs.Prompt.{OperatorPromptly, PromptlyBehind};

use super::opening::put_opening_refusal;
use super::session::run_session;
use crash_disk::Disk;
use gate_journal::{JournalRefusal, Returned};
use node_answers::KeyedOperator;
use node_roles::{DeskRun, OperatorRun};
use operator_core::Operator;
use plasma_base::Hash32;
use plasma_outside::{Sink, Source};
use receipt_audit::{Desk, desk_key};
use run_endings::Status;
use std::alloc::Global;

/// Runs the operator of two disks: opens the notes, and the leaves where its identity has a key, answers the lines of
/// the source into the sink, and hands the notes and the leaves back beside the run's status. An operator without a key
/// leaves the leaves' disk as it was.
///
/// The lines are a log of the root contract, a line `--`, and behind it commands. Each command is answered by its rules
/// over that log and the operator's records, before more is taken. A refused command ends the run, as does a log of
/// another chain than the operator's; so do a line that may not stand there, one past a limit, a missing `--`, and each
/// fault.
#[tactic(auto, unfolding(crate::specs::Operators::RunsOperator, crate::specs::Prompt::OperatorPromptly))]
pub fn run_operator<D: Disk, H: Hash32 + Copy, S: Source, K: Sink>(
    alloc: Global,
    h: H,
    source: &mut S,
    sink: &mut K,
    notes: D,
    leaves: D,
) -> (D, D, Status)
    ensures runs { RunsOperator D.told D.plan D.faults (H.digest_of h) notes leaves result.0 result.1
        (record {
          left = S.left source.old;
          later = S.left source.new;
          taken = K.taken sink.old;
          after = K.taken sink.new;
        })
        (ReadsToFault (S.faults source.old) (S.faults source.new) (S.failed_last source.new) true) result.2 }
    ensures memory { K.takes_memory ≡ false → result.2 ≡ Status.NoMemory
        → CountsEither D.faults notes leaves result.0 result.1 false }
    ensures source_memory { K.takes_memory ≡ false → result.2 ≡ Status.NoMemory
        → ReadsToFault (S.faults source.old) (S.faults source.new) (S.failed_last source.new) false }
    ensures prompt { OperatorPromptly
        (record {
          left = S.left source.old;
          later = S.left source.new;
          taken = K.taken sink.old;
          after = K.taken sink.new;
        })
        (S.failed_last source.new) D.told D.plan D.faults (H.digest_of h) notes leaves }
    ensures source_faults { ReadsBy result.2
        (ReadsToFault (S.faults source.old) (S.faults source.new) (S.failed_last source.new)) }
    ensures source_end { ReadsToEnd (S.ends source.old) (S.ends source.new) }
    ensures sink_faults { K.faults sink.new ≡ faults_after (K.faults sink.old) (is_write_fault result.2) }
{
    match Operator::open_with(alloc, notes, h) {
        Ok(node) => match node.key_seed() {
            Some(seed) => run_with_key(alloc, h, source, sink, node, leaves, seed),
            None => {
                let (run, status) = run_session(alloc, OperatorRun { node }, source, sink);
                (run.node.take_disk(), leaves, status)
            }
        },
        Err(returned) => {
            let Returned { disk, why } = returned;
            let status = put_opening_refusal(alloc, sink, why);
            (disk, leaves, status)
        }
    }
}

// Runs an operator that was opened and has a key, which is made of this seed: opens the leaves, and answers the lines.
fn run_with_key<D: Disk, H: Hash32 + Copy, S: Source, K: Sink>(
    alloc: Global,
    h: H,
    source: &mut S,
    sink: &mut K,
    node: Operator<D, H>,
    leaves: D,
    seed: [u8; 32],
) -> (D, D, Status)
    requires is_open { node.notes.closed ≡ false }
    requires settled { WhereTold (D.told node.notes.disk) (λ now. IsSettled now node.notes.records) }
    requires seed { (who_is node.notes.records).key_seed ≡ Some seed }
    requires hash { node.hash ≡ h }
    ensures runs { RunsBehind D.told D.plan D.faults (H.digest_of h) (Some seed) node.notes leaves result.0 result.1
        (record {
          left = S.left source.old;
          later = S.left source.new;
          taken = K.taken sink.old;
          after = K.taken sink.new;
        })
        (ReadsToFault (S.faults source.old) (S.faults source.new) (S.failed_last source.new) true) result.2 }
    ensures memory { K.takes_memory ≡ false → result.2 ≡ Status.NoMemory
        → CountsEither D.faults node.notes.disk leaves result.0 result.1 false }
    ensures source_memory { K.takes_memory ≡ false → result.2 ≡ Status.NoMemory
        → ReadsToFault (S.faults source.old) (S.faults source.new) (S.failed_last source.new) false }
    ensures prompt { PromptlyBehind
        (record {
          left = S.left source.old;
          later = S.left source.new;
          taken = K.taken sink.old;
          after = K.taken sink.new;
        })
        (S.failed_last source.new) D.told D.plan D.faults (H.digest_of h) (Some seed) node.notes leaves }
    ensures source_faults { ReadsBy result.2
        (ReadsToFault (S.faults source.old) (S.faults source.new) (S.failed_last source.new)) }
    ensures source_end { ReadsToEnd (S.ends source.old) (S.ends source.new) }
    ensures sink_faults { K.faults sink.new ≡ faults_after (K.faults sink.old) (is_write_fault result.2) }
{
    let Ok(key) = desk_key(alloc, seed) else {
        let status = put_opening_refusal(alloc, sink, JournalRefusal::NoMemory);
        return (node.take_disk(), leaves, status);
    };
    match Desk::open(alloc, leaves, &key) {
        Ok(desk) => {
            let keyed = KeyedOperator {
                node,
                desk,
                key,
                hash: h,
            };
            let (run, status) = run_session(alloc, DeskRun { keyed }, source, sink);
            let KeyedOperator { node, desk, .. } = run.keyed;
            (node.take_disk(), desk.take_disk(), status)
        }
        Err(returned) => {
            let Returned { disk, why } = returned;
            let status = put_opening_refusal(alloc, sink, why);
            (node.take_disk(), disk, status)
        }
    }
}
