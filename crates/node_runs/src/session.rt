ghost use Rattle.std.specs.Prelude.{◌≡◌, true, false, List, ℕ};
ghost use Rattle.plasma_base.specs.Causes.{faults_after};
ghost use Rattle.node_journal.specs.declared.stop.Stop.{Stop};
ghost use Rattle.streamed_lines.specs.Outside.{ReadsToFault, ReadsToEnd};
ghost use Rattle.streamed_lines.specs.Prompt.{AnswersPromptly, answers_so_far};
ghost use Rattle.node_sessions.specs.Sessions.{begun, session_rules};
ghost use Rattle.run_endings.specs.Statuses.{is_write_fault, ReadsBy};
ghost use Rattle.node_runs.specs.Sessions.{RunsSession, RunsUnfailed};

use super::ending::{put_ending, put_fault};
use node_sessions::{Commanded, Session};
use plasma_outside::{Sink, Source};
use run_endings::Status;
use std::alloc::Global;
use streamed_lines::{Break, answer_lines};

/// Runs the session of a node that was opened: answers the lines of the source into the sink, each before more is
/// taken, and hands the node back.
pub fn run_session<N: Commanded, S: Source, K: Sink>(
    alloc: Global,
    node: N,
    source: &mut S,
    sink: &mut K,
) -> (N, Status)
    ghost found: { N.At }
    requires open { N.is_open node }
    requires found { N.is_at node found }
    ensures runs { RunsSession (session_rules (N.tag node) (N.command_in node) (N.does node)) (N.command_in result.0)
        found
        (λ at. N.is_at result.0 at)
        (λ log at command. N.is_stopped result.0 log at command Stop.DeviceFault)
        (λ log at command. N.is_stopped result.0 log at command Stop.NoMemory)
        (record {
          left = S.left source.old;
          later = S.left source.new;
          taken = K.taken sink.old;
          after = K.taken sink.new;
        })
        (ReadsToFault (S.faults source.old) (S.faults source.new) (S.failed_last source.new) true) result.1 }
    ensures memory { K.takes_memory ≡ false → result.1 ≡ Status.NoMemory
        → RunsUnfailed (session_rules (N.tag node) (N.command_in node) (N.does node)) (N.command_in result.0) found
        (λ at. N.is_at result.0 at)
        (λ log at command. N.is_stopped result.0 log at command Stop.NoMemory)
        (record {
          left = S.left source.old;
          later = S.left source.new;
          taken = K.taken sink.old;
          after = K.taken sink.new;
        })
        (ReadsToFault (S.faults source.old) (S.faults source.new) (S.failed_last source.new) true) result.1 }
    ensures source_memory { K.takes_memory ≡ false → result.1 ≡ Status.NoMemory
        → ReadsToFault (S.faults source.old) (S.faults source.new) (S.failed_last source.new) false }
    ensures prompt { AnswersPromptly
        (answers_so_far (session_rules (N.tag node) (N.command_in node) (N.does node)) (begun found))
        (S.left source.old) (S.left source.new) (S.failed_last source.new) (K.taken sink.old) (K.taken sink.new) }
    ensures source_faults { ReadsBy result.1
        (ReadsToFault (S.faults source.old) (S.faults source.new) (S.failed_last source.new)) }
    ensures source_end { ReadsToEnd (S.ends source.old) (S.ends source.new) }
    ensures sink_faults { K.faults sink.new ≡ faults_after (K.faults sink.old) (is_write_fault result.1) }
{
    let mut session = Session::new(alloc, node);
    let mut text = Vec::new(alloc);
    match answer_lines(alloc, &mut session, source, sink, &mut text) {
        Ok(ending) => {
            let status = put_ending(sink, &mut text, &ending);
            (session.take_node(), status)
        }
        Err(Break::Failed) => {
            let status = put_fault(sink, &mut text);
            (session.take_node(), status)
        }
        Err(Break::WriteFault) => (session.take_node(), Status::WriteFault),
        Err(Break::NoMemory) => (session.take_node(), Status::NoMemory),
    }
}
