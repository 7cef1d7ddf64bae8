ghost use Rattle.std.specs.Prelude.{◌≡◌, true, false, Err, Option, List, ℕ};
ghost use Rattle.plasma_base.specs.Causes.{faults_after};
ghost use Rattle.plasma_outside.specs.Outside.{is_failed};
ghost use Rattle.streamed_lines.specs.Outside.{ReadsToFault, ReadsToEnd};
ghost use Rattle.streamed_lines.specs.Prompt.{AnswersPromptly, answers_so_far};
ghost use Rattle.run_endings.specs.Statuses.{is_write_fault, ReadsBy};
ghost use Rattle.log_runs.specs.Following.{begun, log_rules};
ghost use Rattle.log_runs.specs.Runs.{RunsLog, status_of_run};
ghost use Rattle.log_runs.specs.Complete.{LogComplete};
ghost use Rattle.log_runs.specs.Lacking.{LacksMemory};

use super::follower::Follower;
use super::log_session::LogSession;
use plasma_base::Bytes;
use plasma_outside::{Sink, SinkRefusal, Source};
use run_endings::{Status, put_last, status_of};
use std::alloc::Global;
use streamed_lines::{Break, Ending, answer_lines};

// Answers the lines of a log and those behind it into the sink, each before more is taken, and puts what stands behind
// the answers.
fn answer_log<F: Follower + Drop, S: Source, K: Sink>(
    alloc: Global,
    follower: F,
    source: &mut S,
    sink: &mut K,
) -> Result<Ending<Bytes>, SinkRefusal>
    ensures runs { RunsLog (F.following follower) (S.left source.old) (S.left source.new)
        (K.taken sink.old) (K.taken sink.new)
        (ReadsToFault (S.faults source.old) (S.faults source.new) (S.failed_last source.new) true)
        (status_of_run result) }
    ensures prompt { AnswersPromptly (answers_so_far (log_rules (F.following follower)) begun)
        (S.left source.old) (S.left source.new) (S.failed_last source.new) (K.taken sink.old) (K.taken sink.new) }
    ensures reads { ReadsBy (status_of_run result)
        (ReadsToFault (S.faults source.old) (S.faults source.new) (S.failed_last source.new)) }
    ensures end { ReadsToEnd (S.ends source.old) (S.ends source.new) }
    ensures memory { K.takes_memory ≡ false → result ≡ Err SinkRefusal.NoMemory
        → LacksMemory (F.following follower) F.takes_memory (S.given_last source.new)
        (S.left source.old) (S.left source.new) }
    ensures source_memory { K.takes_memory ≡ false → result ≡ Err SinkRefusal.NoMemory
        → ReadsToFault (S.faults source.old) (S.faults source.new) (S.failed_last source.new) false }
    ensures cause { K.faults sink.new ≡ faults_after (K.faults sink.old) (is_failed result) }
{
    let mut session = LogSession::new(alloc, follower);
    let mut text = Vec::new(alloc);
    match answer_lines(alloc, &mut session, source, sink, &mut text) {
        Ok(ending) => {
            put_last(sink, &mut text, &ending)?;
            Ok(ending)
        }
        Err(Break::WriteFault) => Err(SinkRefusal::Failed),
        Err(Break::NoMemory) => Err(SinkRefusal::NoMemory),
        // Nothing that follows a log fails but for want of memory.
        Err(Break::Failed) => unreachable!(),
    }
}

/// Runs over a log: answers the lines of the source into the sink, each before more is taken, and gives the status that
/// they end with.
pub fn run_log<F: Follower + Drop, S: Source, K: Sink>(
    alloc: Global,
    follower: F,
    source: &mut S,
    sink: &mut K,
) -> Status
    ensures runs { RunsLog (F.following follower) (S.left source.old) (S.left source.new)
        (K.taken sink.old) (K.taken sink.new)
        (ReadsToFault (S.faults source.old) (S.faults source.new) (S.failed_last source.new) true) result }
    ensures prompt { AnswersPromptly (answers_so_far (log_rules (F.following follower)) begun)
        (S.left source.old) (S.left source.new) (S.failed_last source.new) (K.taken sink.old) (K.taken sink.new) }
    ensures complete { LogComplete (F.following follower) (S.left source.old) result }
    ensures memory { K.takes_memory ≡ false → result ≡ Status.NoMemory
        → LacksMemory (F.following follower) F.takes_memory (S.given_last source.new)
        (S.left source.old) (S.left source.new) }
    ensures source_memory { K.takes_memory ≡ false → result ≡ Status.NoMemory
        → ReadsToFault (S.faults source.old) (S.faults source.new) (S.failed_last source.new) false }
    ensures source_faults { ReadsBy result
        (ReadsToFault (S.faults source.old) (S.faults source.new) (S.failed_last source.new)) }
    ensures source_end { ReadsToEnd (S.ends source.old) (S.ends source.new) }
    ensures sink_faults { K.faults sink.new ≡ faults_after (K.faults sink.old) (is_write_fault result) }
{
    match answer_log(alloc, follower, source, sink) {
        Ok(ending) => status_of(&ending),
        Err(refusal) => Status::of_refusal(refusal),
    }
}
