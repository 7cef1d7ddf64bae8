ghost use Rattle.std.specs.Prelude.{◌≡◌};
ghost use Rattle.replay_run.specs.Endings.{EndingsHaveTheirCause, LinesThatKeepTheRulesAreAnswered};
ghost use Rattle.replay_run.specs.Complete.{GoodSchedulesAreAnswered, PartsOfGoodSchedulesWait};
ghost use Rattle.replay_run.specs.Headline.{ReplaysKeepThePromise};
ghost use Rattle.replay_run.specs.Laws.{LinesAreTheBytes, LinesAreOneCut, AnsweredLinesAreARun};

use streamed_lines::{MOST_INPUT_BYTES, MOST_LINE_BYTES, MOST_LINES};

/// The lines of an input, one after another, are its bytes. None is empty; each ends with its only
/// line feed, but for the last, which may have none. No other lists of bytes are so.
pub fn lines_are_the_bytes()
    ensures bytes { LinesAreTheBytes }
    ensures one_cut { LinesAreOneCut }
{}

/// The answers of a replay are the trace of a run of the schedule's rules: that of the first lines of its input, as
/// many as there are answers. So it is under every digest.
pub fn answered_lines_are_a_run()
    ensures { AnsweredLinesAreARun }
{}

/// A replay ends for the first cause that its lines have: a line that passes a limit, else one that isn't in the
/// grammar or breaks a rule of declarations behind the lines before it, else one that fills the mail. A read fault
/// comes only where the input wasn't read to its end, and a replay is complete only where all its lines were answered.
/// Each line before that one has an answer, and no other. So it is under every digest.
pub fn endings_have_their_cause()
    ensures { EndingsHaveTheirCause }
{}

/// A replay of a whole input is complete where each of its lines passes no limit and spells a line with which those
/// before it have a run whose mail isn't full. So it is under every digest.
pub fn lines_that_keep_the_rules_are_answered()
    ensures { LinesThatKeepTheRulesAreAnswered }
{}

/// The text of good schedules. Where each line of an input passes no limit and spells a line with which those before
/// it have a run whose mail isn't full, `replay` and `brief` of the whole input end as `Done`: `replay` with an answer
/// to each line, the verdicts and the exhibit, `brief` with the counts and the exhibit. And of a beginning of such an
/// input that was read, wherever it is cut, they end as a read fault: no line of it is bad or too long. So it is under
/// every digest. That a run ends so, unless the source, the sink or memory fails, `run` says itself.
pub fn good_schedules_are_answered()
    ensures whole { GoodSchedulesAreAnswered }
    ensures part { PartsOfGoodSchedulesWait }
{}

/// The headline, a law of whatever input: in the run that a replay answers no leaf of a wallet's key signs two
/// messages; at each line, unless the trace up to it shows two byte strings with one digest at the coin, or a valid
/// signature that the wallet's key never made, no other account's exit of an attended coin that the wallet holds is
/// paid, and the wallet's own exit is never cancelled or dropped, and pays when it is finished at its end; and a
/// verdict `lost` stands only above an exhibit. So it is under every digest of 32 bytes.
pub fn replays_keep_the_promise()
    ensures { ReplaysKeepThePromise }
{}

/// The limits of an input: 200,000 lines, 8,388,608 bytes of a line and 67,108,864 in all.
pub fn the_limits_are_these_numbers()
    ensures lines { MOST_LINES ≡ 200000 }
    ensures line { MOST_LINE_BYTES ≡ 8388608 }
    ensures input { MOST_INPUT_BYTES ≡ 67108864 }
{}
