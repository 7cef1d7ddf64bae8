ghost use Rattle.std.specs.Prelude.{◌≡◌, true, false, Option, List, ℕ};
ghost use Rattle.plasma_base.specs.Causes.{faults_after};
ghost use Rattle.streamed_lines.specs.Outside.{ReadsToFault, ReadsToEnd};
ghost use Rattle.streamed_lines.specs.Prompt.{AnswersPromptly, answers_so_far};
ghost use Rattle.run_endings.specs.Statuses.{is_write_fault, ReadsBy};
ghost use Rattle.log_runs.specs.Following.{begun, log_rules};
ghost use Rattle.log_runs.specs.Archiving.{archiving};
ghost use Rattle.log_runs.specs.Runs.{RunsLog};
ghost use Rattle.log_runs.specs.Complete.{LogComplete};
ghost use Rattle.log_runs.specs.Lacking.{LacksMemory};
ghost use Rattle.log_runs.specs.Grammar.{archive_takes_memory};

use super::archive_asks::answer_ask;
use super::archive_line::{ArchiveLine, read_archive_line};
use super::causes::archive_halt;
use super::follower::Follower;
use super::phrases::push_words;
use super::run::run_log;
use plasma_base::{Bytes, Hash32, NoMemory};
use plasma_outside::{Sink, Source};
use plasma_tx::{RootCall, RootLog};
use proof_archive::Archive;
use run_endings::Status;
use std::alloc::Global;
use streamed_lines::Halt;

/// What follows a log as an archive does, with openings judged by this digest.
#[derive(Drop)]
struct Archivist<H> {
    h: H,
}

impl<H: Hash32 + Copy> Follower for Archivist<H> {
    ghost use Rattle.proof_archive.specs.Laws.{Holding};
    ghost use Rattle.log_runs.specs.Archiving.{archiving};
    ghost use Rattle.log_runs.specs.Grammar.{archive_takes_memory};
    ghost use Rattle.log_runs.specs.Holds.{Holds};

    type Kept = Archive<H>;

    ghost At = { Holding };

    ghost following = { λ archivist. archiving (H.digest_of archivist.h) };

    ghost is_at = { λ archivist. Holds archivist.h };

    ghost takes_memory = { λ _. archive_takes_memory };

    fn begin(&self, alloc: Global, log: RootLog) -> Archive<H> {
        Archive::make(alloc, log.tag(), log.operator(), log.most_blocks(), self.h)
    }

    fn follow(&self, kept: &mut Archive<H>, call: RootCall) -> Result<(), NoMemory> {
        kept.follow(call)
    }

    fn command(
        &self,
        alloc: Global,
        kept: &mut Archive<H>,
        line: &[u8],
        text: &mut Vec<u8>,
    ) -> Result<(), Halt<Bytes>> {
        match read_archive_line(alloc, line)? {
            ArchiveLine::Event { call } => {
                kept.follow(call)?;
                text.extend_from_slice(b"followed\n")?;
            }
            ArchiveLine::Ask { ask } => {
                let mut answer = Vec::new(alloc);
                if let Err(why) = answer_ask(alloc, kept, ask, &mut answer) {
                    return Err(archive_halt(alloc, why));
                }
                text.extend_from_slice(&answer)?;
            }
        }
        Ok(())
    }

    fn may_end(&self, _kept: &Archive<H>) -> bool {
        true
    }
}

/// Runs an archive: answers the lines of the source into the sink, with openings judged by this digest, and gives the
/// run's status.
///
/// The lines are a log of the root contract, a line `--`, and behind it lines of these five forms. `event ` and a line
/// of a log: the call joins the log. `put <coin> <block> <hex>`: the block's opening at the coin is kept. `tip <coin>`:
/// the coin's greatest tip. `broken <coin>`: its broken block, or `whole`. `bundle <coin> <tip>`: its history up to a
/// tip, as a hex on a line of its own. Each line is answered before more is taken. A refusal ends the run, as do a line
/// that may not stand there, one past a limit, a missing `--`, and a fault.
pub fn run_archive<H: Hash32 + Copy, S: Source, K: Sink>(
    alloc: Global,
    h: H,
    source: &mut S,
    sink: &mut K,
) -> Status
    ensures runs { RunsLog (archiving (H.digest_of h)) (S.left source.old) (S.left source.new)
        (K.taken sink.old) (K.taken sink.new)
        (ReadsToFault (S.faults source.old) (S.faults source.new) (S.failed_last source.new) true) result }
    ensures prompt { AnswersPromptly (answers_so_far (log_rules (archiving (H.digest_of h))) begun)
        (S.left source.old) (S.left source.new) (S.failed_last source.new) (K.taken sink.old) (K.taken sink.new) }
    ensures complete { LogComplete (archiving (H.digest_of h)) (S.left source.old) result }
    ensures memory { K.takes_memory ≡ false → result ≡ Status.NoMemory
        → LacksMemory (archiving (H.digest_of h)) (λ _. archive_takes_memory) (S.given_last source.new)
        (S.left source.old) (S.left source.new) }
    ensures source_memory { K.takes_memory ≡ false → result ≡ Status.NoMemory
        → ReadsToFault (S.faults source.old) (S.faults source.new) (S.failed_last source.new) false }
    ensures source_faults { ReadsBy result
        (ReadsToFault (S.faults source.old) (S.faults source.new) (S.failed_last source.new)) }
    ensures source_end { ReadsToEnd (S.ends source.old) (S.ends source.new) }
    ensures sink_faults { K.faults sink.new ≡ faults_after (K.faults sink.old) (is_write_fault result) }
{
    run_log(alloc, Archivist { h }, source, sink)
}
