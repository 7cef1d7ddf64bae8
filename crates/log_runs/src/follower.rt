ghost use Rattle.std.specs.Prelude.{◌≡◌, ℕ, List, Err, OnOk, OnErr, IfErr};
ghost use Rattle.streamed_lines.specs.declared.ending.Halt.{Halt};
ghost use Rattle.log_runs.specs.Following.{Following};
ghost use Rattle.log_runs.specs.Kept.{Halts, IsDone};

use plasma_base::{Bytes, NoMemory};
use plasma_tx::{RootCall, RootLog};
use std::alloc::Global;
use streamed_lines::Halt;

/// What follows a log, and answers the lines behind it.
pub trait Follower {
    /// What is kept of the log from its first line on.
    type Kept: Drop;

    /// What lines come to.
    ghost At: { Type 0 };

    /// What each line does.
    ghost following: { Self → Following At };

    /// It is kept of lines that came to this.
    ghost is_at: { Self → Self.Kept → At → Type 0 };

    /// Whether a line behind the log may take memory where lines came to this.
    ghost takes_memory: { At → List ℕ → Type 0 };

    /// Begins with a chain, by its log without calls.
    fn begin(&self, alloc: Global, log: RootLog) -> Self::Kept
        ensures { is_at self.now result ((following self.now).begin log) };

    /// Follows a call of the log.
    fn follow(&self, kept: &mut Self::Kept, call: RootCall) -> Result<(), NoMemory>
        ensures { (at : At) → is_at self.now kept.old at
            → OnOk result (is_at self.now kept.new ((following self.now).follow call at)) };

    /// Answers a line behind the log: its answer is put at the end of the text. Where it isn't answered the text stays.
    fn command(
        &self,
        alloc: Global,
        kept: &mut Self::Kept,
        line: &[u8],
        text: &mut Vec<u8>,
    ) -> Result<(), Halt<Bytes>>
        ensures answered { (at : At) → is_at self.now kept.old at
            → OnOk result (IsDone (is_at self.now) ((following self.now).command at line.now)
            text.old.items text.new.items kept.new) }
        ensures halts { (at : At) → is_at self.now kept.old at
            → IfErr result (Halts ((following self.now).command at line.now)) }
        ensures memory { (at : At) → is_at self.now kept.old at → result ≡ Err Halt.NoMemory
            → takes_memory at line.now }
        ensures untold { OnErr result (text.new.items ≡ text.old.items) };

    /// Whether the input may end behind the log here.
    fn may_end(&self, kept: &Self::Kept) -> bool
        ensures { (at : At) → is_at self.now kept.now at → result ≡ (following self.now).may_end at };
}
