ghost use Rattle.std.specs.Prelude.{◌≡◌, [], Some, Ok, IfOk, OnErr, IfErr, false};
ghost use Rattle.plasma_base.specs.Causes.{faults_after};
ghost use Rattle.plasma_outside.specs.Outside.{is_failed};
ghost use Rattle.schedule_text.specs.Grammar.{IsLine, line_in};
ghost use Rattle.streamed_lines.specs.declared.ending.Ending.{Ending};
ghost use Rattle.streamed_lines.specs.Outside.{ReadsToFault, ReadsToEnd};
ghost use Rattle.streamed_lines.specs.Reading.{is_read_fault};
ghost use Rattle.streamed_lines.specs.Prompt.{AnswersPromptly};
ghost use Rattle.replay_run.specs.Prompt.{replay_answers};
ghost use Rattle.replay_run.specs.Replays.{begun};
ghost use Rattle.replay_run.specs.Reading.{Ran, SpellsNone, NeverFails, Answers, StopsEarly};

use super::ending::NoCause;
use plasma_base::Hash32;
use plasma_outside::{Sink, SinkRefusal, Source};
use schedule_text::{Line, LineRefusal, read};
use std::alloc::Global;
use streamed_lines::{Answerer, Break, Ending, Halt, Stop, answer_lines};
use world_core::{StepRefusal, World};
use world_rules::print_line;

/// What answers the lines of a schedule: the world that steps through them.
#[derive(Drop)]
pub struct Replayer<H: Hash32 + Copy> {
    pub alloc: Global,
    pub world: World<H>,
}

impl<H: Hash32 + Copy> Replayer<H> {
    // What answers a schedule from its first line on, with openings judged by this digest.
    fn new(alloc: Global, hash: H) -> Replayer<H>
        ensures hash { result.world.running.hash ≡ hash }
        ensures ran { Ran H.digest_of result.world.running (begun (H.digest_of result.world.running.hash)) }
    {
        Replayer {
            alloc,
            world: World::new_with(alloc, hash),
        }
    }
}

// Reads the line that bytes spell.
fn read_line(alloc: Global, text: &[u8]) -> Result<Line, Halt<NoCause>>
    ensures found { IfOk result (λ line. line_in text.now ≡ Some line) }
    ensures grammar { IfOk result IsLine }
    ensures bad { IfErr result (SpellsNone text.now) }
    ensures no_failure { IfErr result NeverFails }
{
    match read(alloc, text) {
        Ok(line) => Ok(line),
        Err(LineRefusal::BadLine) => Err(Halt::Stops {
            stop: Stop::BadLine,
        }),
        Err(LineRefusal::NoMemory) => Err(Halt::NoMemory),
    }
}

impl<H: Hash32 + Copy> Answerer for Replayer<H> {
    ghost use Rattle.replay_run.specs.Replays.{JudgedRun, replay_rules};
    ghost use Rattle.replay_run.specs.Reading.{Ran, NeverFails};

    type Cause = NoCause;

    ghost Run = { JudgedRun };

    ghost rules = { λ _. replay_rules };

    ghost ran = { λ replayer run. Ran H.digest_of replayer.world.running run };

    ghost halted = { λ _ _ _ halt. NeverFails halt };

    ghost ready = { λ _. Unit {0} };

    fn answer(&mut self, line: &[u8], text: &mut Vec<u8>) -> Result<(), Halt<NoCause>> {
        let stepped = self.world.step(&read_line(self.alloc, line)?);
        // What was told is lent, since to move it takes longer than the step of a short line.
        match &stepped {
            Ok(told) => {
                print_line(told, text)?;
                Ok(())
            }
            Err(StepRefusal::BadLine) => Err(Halt::Stops {
                stop: Stop::BadLine,
            }),
            Err(StepRefusal::MailFull) => Err(Halt::Stops {
                stop: Stop::TooLong,
            }),
            Err(StepRefusal::NoMemory) => Err(Halt::NoMemory),
        }
    }

    fn may_end(&self) -> bool {
        true
    }
}

/// Answers the lines of a schedule into the sink, each before more is taken, with openings judged by this digest. It
/// gives what ended the replay, and the world, which all lines left where all were answered. What is left of the text
/// is not yet put.
pub fn answer_schedule<H: Hash32 + Copy, S: Source, K: Sink>(
    h: H,
    alloc: Global,
    source: &mut S,
    sink: &mut K,
    text: &mut Vec<u8>,
) -> Result<(World<H>, Ending<NoCause>), SinkRefusal>
    requires none { text.old.items ≡ [] }
    ensures answered { IfOk result (λ done. Answers (S.left source.old) (S.left source.new) (K.taken sink.old)
        (K.taken sink.new) H.digest_of (H.digest_of h) text.new.items done.1 done.0.running) }
    ensures stopped { OnErr result (StopsEarly (S.left source.old) (S.left source.new) (K.taken sink.old)
        (K.taken sink.new) (H.digest_of h)) }
    ensures prompt { AnswersPromptly (replay_answers (H.digest_of h)) (S.left source.old) (S.left source.new)
        (S.failed_last source.new) (K.taken sink.old) (K.taken sink.new) }
    ensures reads { IfOk result (λ done. ReadsToFault (S.faults source.old) (S.faults source.new)
        (S.failed_last source.new) (is_read_fault (Ok done.1))) }
    ensures no_fault { OnErr result (ReadsToFault (S.faults source.old) (S.faults source.new)
        (S.failed_last source.new) false) }
    ensures end { ReadsToEnd (S.ends source.old) (S.ends source.new) }
    ensures last { IfOk result (λ done. S.failed_last source.new ≡ is_read_fault (Ok done.1)) }
    ensures put { IfOk result (λ done. done.1 ≡ Ending.ReadFault → text.new.items ≡ []) }
    ensures cause { K.faults sink.new ≡ faults_after (K.faults sink.old) (is_failed result) }
{
    let mut replayer = Replayer::new(alloc, h);
    match answer_lines(alloc, &mut replayer, source, sink, text) {
        Ok(ending) => Ok((replayer.world, ending)),
        Err(Break::WriteFault) => Err(SinkRefusal::Failed),
        Err(Break::NoMemory) => Err(SinkRefusal::NoMemory),
        // No line of a replay fails but for want of memory.
        Err(Break::Failed) => unreachable!(),
    }
}
