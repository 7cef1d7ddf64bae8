ghost use Rattle.std.specs.Prelude.{◌≡◌, ◌++◌, true, OnOk};
ghost use Rattle.std.specs.List.{flat_map};
ghost use Rattle.plasma_base.specs.Causes.{faults_after};
ghost use Rattle.plasma_outside.specs.Outside.{is_failed};
ghost use Rattle.world_rules.specs.Texts.{verdict_text};
ghost use Rattle.streamed_lines.specs.declared.ending.Ending.{Ending};
ghost use Rattle.streamed_lines.specs.Outside.{ReadsToFault, ReadsToEnd};
ghost use Rattle.streamed_lines.specs.Prompt.{AnswersPromptly};
ghost use Rattle.run_endings.specs.Statuses.{ReadsBy};
ghost use Rattle.replay_run.specs.Replays.{JudgedRun};
ghost use Rattle.replay_run.specs.Text.{closing_text, last_text};
ghost use Rattle.replay_run.specs.Output.{replay_output, status_of_replay};
ghost use Rattle.replay_run.specs.Bounds.{FewBy};
ghost use Rattle.replay_run.specs.Runs.{RanOver};
ghost use Rattle.replay_run.specs.Prompt.{replay_answers};
ghost use Rattle.replay_run.specs.Reading.{Ran};

use super::answering::answer_schedule;
use super::ending::NoCause;
use super::text::push_ending;
use plasma_base::{Hash32, NoMemory};
use plasma_outside::{Sink, SinkRefusal, Source};
use std::alloc::Global;
use streamed_lines::{Ending, put_text};
use world_core::World;
use world_rules::{Verdict, print_exhibit, print_verdict};

// Puts verdicts at the end.
fn push_verdicts(verdicts: &[Verdict], text: &mut Vec<u8>) -> Result<(), NoMemory>
    ensures { OnOk result (text.new.items ≡ text.old.items ++ flat_map verdict_text verdicts.now) }
{
    for verdict in verdicts.iter() {
        print_verdict(verdict, text)?;
    }
    Ok(())
}

// Puts the verdicts and the exhibit of a run at the end.
fn push_closing<H: Hash32 + Copy>(world: &World<H>, text: &mut Vec<u8>) -> Result<(), NoMemory>
    ensures { (run : JudgedRun) → Ran H.digest_of world.now.running run
        → OnOk result (text.new.items ≡ text.old.items ++ closing_text run.digest run.run) }
{
    let verdicts = world.verdicts()?;
    push_verdicts(verdicts.as_slice(), text)?;
    print_exhibit(&world.exhibit()?, text)
}

// The lines behind the answers: the verdicts and the exhibit of a run that is complete, or what ended it.
fn push_last<H: Hash32 + Copy>(
    world: &World<H>,
    ending: Ending<NoCause>,
    text: &mut Vec<u8>,
) -> Result<(), NoMemory>
    ensures { (run : JudgedRun) → (ending ≡ Ending.Complete → Ran H.digest_of world.now.running run)
        → OnOk result (text.new.items ≡ text.old.items ++ last_text (closing_text run.digest run.run) ending) }
{
    match ending {
        Ending::Complete => push_closing(world, text),
        ended => push_ending(text, ended),
    }
}

/// Replays a schedule: answers the lines of the source into the sink, each before more is taken, and writes what
/// stands behind them.
pub fn replay<H: Hash32 + Copy, S: Source, K: Sink>(
    h: H,
    alloc: Global,
    source: &mut S,
    sink: &mut K,
) -> Result<Ending<NoCause>, SinkRefusal>
    ensures output { RanOver (replay_output (H.digest_of h)) (FewBy (H.digest_of h))
        (S.left source.old) (S.left source.new) (K.taken sink.old) (K.taken sink.new)
        (ReadsToFault (S.faults source.old) (S.faults source.new) (S.failed_last source.new) true)
        (status_of_replay result) }
    ensures prompt { AnswersPromptly (replay_answers (H.digest_of h)) (S.left source.old) (S.left source.new)
        (S.failed_last source.new) (K.taken sink.old) (K.taken sink.new) }
    ensures reads { ReadsBy (status_of_replay result)
        (ReadsToFault (S.faults source.old) (S.faults source.new) (S.failed_last source.new)) }
    ensures end { ReadsToEnd (S.ends source.old) (S.ends source.new) }
    ensures cause { K.faults sink.new ≡ faults_after (K.faults sink.old) (is_failed result) }
{
    let mut text = Vec::new(alloc);
    let (world, ending) = answer_schedule(h, alloc, source, sink, &mut text)?;
    push_last(&world, ending, &mut text)?;
    put_text(sink, &mut text)?;
    Ok(ending)
}
