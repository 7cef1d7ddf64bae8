ghost use Rattle.std.specs.Prelude.{◌≡◌, ◌≢◌, List, ℕ, Bool, true, Some, None, Err, Option, Result, IfOk, IfErr, OnErr, OnOk};
ghost use Rattle.plasma_tx.specs.declared.call.RootCall.{RootCall};
ghost use Rattle.node_journal.specs.declared.stop.Stop.{Stop};
ghost use Rattle.node_sessions.specs.Commands.{IsDone, IsUntold};

use super::said::Said;
use line_forms::LineRefusal;
use node_journal::Stop;
use plasma_tx::RootLog;
use std::alloc::Global;

/// A node that a session commands.
pub trait Commanded {
    /// A command.
    type Command;

    /// What its commands come to: its records, and what its disks tell.
    ghost At: { Type 0 };

    /// The tag of its chain.
    ghost tag: { Self → List ℕ };

    /// The command that a line spells, if it spells one.
    ghost command_in: { Self → List ℕ → Option Self.Command };

    /// Whether a line begins a command that may have bytes: only such a line takes memory to be read.
    ghost begins_with_bytes: { List ℕ → Bool };

    /// What a command does behind a log: what the node comes to with it, and the text of its answer, or the cause for
    /// which it is refused.
    ghost does: { Self → List RootCall → At → Self.Command → Result (At × List ℕ) (List ℕ) };

    /// It is where its commands left it.
    ghost is_at: { Self → At → Type 0 };

    /// It was there, and a command behind a log was stopped so.
    ghost is_stopped: { Self → List RootCall → At → Self.Command → Stop → Type 0 };

    /// No fault closed it.
    ghost is_open: { Self → Type 0 };

    /// The tag of its chain.
    fn tag(&self) -> [u8; 32]
        ensures { result ≡ tag self.now };

    /// Reads a command.
    fn read(&self, alloc: Global, line: &[u8]) -> Result<Self::Command, LineRefusal>
        ensures found { IfOk result (λ command. command_in self.now line.now ≡ Some command) }
        ensures bad { result ≡ Err LineRefusal.BadLine → command_in self.now line.now ≡ None }
        ensures memory { result ≡ Err LineRefusal.NoMemory → begins_with_bytes line.now ≡ true };

    /// Answers a command behind a log into the text. A refusal puts no text and changes nothing. Where the command is
    /// stopped the text stays.
    fn answer(
        &mut self,
        alloc: Global,
        log: &RootLog,
        command: Self::Command,
        text: &mut Vec<u8>,
    ) -> Result<Said, Stop>
        requires { is_open self.old }
        ensures said { (at : At) → is_at self.old at → IfOk result (λ said.
            IsDone is_at (does self.old log.now.log at command) at said text.old.items text.new.items self.new) }
        ensures refused { IfOk result (λ said. IsUntold said text.old.items text.new.items) }
        ensures stopped { (at : At) → is_at self.old at → IfErr result (is_stopped self.new log.now.log at command) }
        ensures untold { OnErr result (text.new.items ≡ text.old.items) }
        ensures not_closed { result ≢ Err Stop.Closed }
        ensures open { OnOk result (is_open self.new) }
        ensures same_tag { tag self.new ≡ tag self.old }
        ensures same_commands { command_in self.new ≡ command_in self.old }
        ensures same_deeds { does self.new ≡ does self.old };
}
