ghost use Rattle.std.specs.Prelude.{◌≡◌, ◌≢◌, ◌++◌, ℕ, List, OnOk};
ghost use Rattle.streamed_lines.specs.declared.ending.Ending.{Ending};
ghost use Rattle.replay_run.specs.Text.{last_text};

use super::ending::NoCause;
use node_replies::{push_phrase, push_words};
use plasma_base::NoMemory;
use streamed_lines::Ending;

/// Puts the last line at the end: what ended a run that isn't complete.
#[tactic(auto, unfolding(crate::specs::Text::last_text))]
pub fn push_ending(out: &mut Vec<u8>, ending: Ending<NoCause>) -> Result<(), NoMemory>
    ensures { (complete : List ℕ) → ending ≢ Ending.Complete
        → OnOk result (out.new.items ≡ out.old.items ++ last_text complete ending) }
{
    match ending {
        Ending::Complete => {}
        Ending::BadLine { line } => push_phrase(out, b"bad line", &[line])?,
        Ending::ReadFault => push_words(out, b"read fault")?,
        Ending::TooLong { line } => push_phrase(out, b"too long", &[line])?,
    }
    out.push(b'\n')?;
    Ok(())
}
