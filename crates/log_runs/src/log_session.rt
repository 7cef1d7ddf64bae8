ghost use Rattle.std.specs.Prelude.{◌≡◌};
ghost use Rattle.log_runs.specs.Following.{begun};

use super::follower::Follower;
use super::reading::{read_call, read_first};
use plasma_base::Bytes;
use root_log::is_end_of_log;
use std::alloc::Global;
use streamed_lines::{Answerer, Halt};

/// What answers the lines of a log and those behind it: what follows the log, what is kept of it so far, nothing before
/// its first line, and whether it has ended.
#[derive(Drop)]
pub struct LogSession<F: Follower> {
    alloc: Global,
    follower: F,
    kept: Option<F::Kept>,
    is_over: bool,
}

impl<F: Follower> LogSession<F> {
    /// Before the first line of a log.
    pub fn new(alloc: Global, follower: F) -> LogSession<F>
        ensures ran { ⟦<LogSession<F> as Answerer>⟧.ran result begun }
        ensures ready { ⟦<LogSession<F> as Answerer>⟧.ready result }
        ensures follower { result.follower ≡ follower }
    {
        LogSession {
            alloc,
            follower,
            kept: None,
            is_over: false,
        }
    }
}

impl<F: Follower> Answerer for LogSession<F> {
    ghost use Rattle.log_runs.specs.Following.{LogRun, log_rules};
    ghost use Rattle.log_runs.specs.Kept.{FailsOnly, MayTakeMemory, IsRun};

    type Cause = Bytes;

    ghost Run = { LogRun F.At };

    ghost rules = { λ session. log_rules (F.following session.follower) };

    ghost ran = { λ session. IsRun (F.is_at session.follower) session.kept session.is_over };

    ghost halted = { λ _ run line. FailsOnly (MayTakeMemory F.takes_memory run.at run.is_over line) };

    ghost ready = { λ _. Unit {0} };

    #[tactic(auto, unfolding(crate::specs::Following::next_line))]
    fn answer(&mut self, line: &[u8], text: &mut Vec<u8>) -> Result<(), Halt<Bytes>> {
        let Some(kept) = &mut self.kept else {
            let log = read_first(self.alloc, line)?;
            self.kept = Some(self.follower.begin(self.alloc, log));
            return Ok(());
        };
        if self.is_over {
            return self.follower.command(self.alloc, kept, line, text);
        }
        if is_end_of_log(line) {
            self.is_over = true;
            return Ok(());
        }
        let call = read_call(self.alloc, line)?;
        self.follower.follow(kept, call)?;
        Ok(())
    }

    fn may_end(&self) -> bool {
        match &self.kept {
            Some(kept) => self.is_over && self.follower.may_end(kept),
            None => false,
        }
    }
}
