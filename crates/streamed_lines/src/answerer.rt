ghost use Rattle.std.specs.Prelude.{◌≡◌, List, ℕ, OnOk, OnErr, IfErr};
ghost use Rattle.streamed_lines.specs.declared.ending.Halt.{Halt};
ghost use Rattle.streamed_lines.specs.Streams.{Rules};
ghost use Rattle.streamed_lines.specs.Reading.{IsAnswered, HaltsAt};

use super::ending::Halt;

/// What answers the lines of an input, one after another.
pub trait Answerer {
    /// The causes of its own for which a line ends the stream.
    type Cause;

    /// What answered lines come to.
    ghost Run: { Type 0 };

    /// What each line does.
    ghost rules: { Self → Rules Run Self.Cause };

    /// It is where lines left it that came to this.
    ghost ran: { Self → Run → Type 0 };

    /// It was where lines left it that came to this, and halted so at the next one, which is this without its line feed.
    ghost halted: { Self → Run → List ℕ → Halt Self.Cause → Type 0 };

    /// It may be asked for an answer.
    ghost ready: { Self → Type 0 };

    /// Answers a line, given without its line feed: its answer, with a line feed behind each of its lines, is put at
    /// the end of the text. Where it isn't answered the text stays.
    fn answer(&mut self, line: &[u8], text: &mut Vec<u8>) -> Result<(), Halt<Self::Cause>>
        requires { ready self.old }
        ensures answered { (run : Run) → ran self.old run
            → OnOk result (IsAnswered (rules self.old) ran run line.now text.old.items text.new.items self.new) }
        ensures halts { (run : Run) → ran self.old run → IfErr result (HaltsAt (rules self.old) run line.now) }
        ensures halted { (run : Run) → ran self.old run → IfErr result (halted self.new run line.now) }
        ensures untold { OnErr result (text.new.items ≡ text.old.items) }
        ensures rules { rules self.new ≡ rules self.old }
        ensures ready { OnOk result (ready self.new) };

    /// Whether the input may end here.
    fn may_end(&self) -> bool
        ensures { (run : Run) → ran self.now run → result ≡ (rules self.now).may_end run };
}
