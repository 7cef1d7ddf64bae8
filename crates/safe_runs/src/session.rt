ghost use Rattle.std.specs.Prelude.{◌≡◌};
ghost use Rattle.node_sessions.specs.Sessions.{begun, calls_of};
ghost use Rattle.safe_runs.specs.Sessions.{LookState, untold};

use super::told::Told;
use node_sessions::{first_log, read_call};
use plasma_base::Bytes;
use plasma_tx::RootLog;
use root_log::is_end_of_log;
use std::alloc::Global;
use streamed_lines::{Answerer, Halt};

/// What reads a log of a chain and the lines behind it: the chain's tag, the log so far, whether it has ended, and what
/// was told behind it. It answers no line.
#[derive(Drop)]
pub struct LookSession {
    alloc: Global,
    tag: [u8; 32],
    log: Option<RootLog>,
    is_over: bool,
    told: Told,
}

// The log, or one without calls where there is none.
fn or_none(alloc: Global, tag: [u8; 32], log: Option<RootLog>) -> RootLog
    ensures { result.log ≡ calls_of log }
{
    match log {
        Some(log) => log,
        None => RootLog::make(alloc, tag, 0, 0),
    }
}

impl LookSession {
    /// Before the first line of a log of the chain with this tag.
    pub fn new(alloc: Global, tag: [u8; 32]) -> LookSession
        ensures ran { ⟦<LookSession as Answerer>⟧.ran result (begun untold) }
        ensures ready { ⟦<LookSession as Answerer>⟧.ready result }
        ensures tag { result.tag ≡ tag }
    {
        LookSession {
            alloc,
            tag,
            log: None,
            is_over: false,
            told: Told::new(alloc),
        }
    }

    /// The log, without calls before its first line, and what was told behind it.
    pub fn take(self) -> (RootLog, Told)
        ensures log { (run : LookState) → ⟦<LookSession as Answerer>⟧.ran self run
            → result.0.log ≡ calls_of run.log }
        ensures told { (run : LookState) → ⟦<LookSession as Answerer>⟧.ran self run → result.1 ≡ run.node }
    {
        let LookSession {
            alloc,
            tag,
            log,
            is_over: _,
            told,
        } = self;
        (or_none(alloc, tag, log), told)
    }
}

impl Answerer for LookSession {
    ghost use Rattle.safe_runs.specs.Sessions.{LookState, IsRead, look_rules, HaltsLook};

    type Cause = Bytes;

    ghost Run = { LookState };

    ghost rules = { λ session. look_rules session.tag };

    ghost ran = { λ session. IsRead session.log session.is_over session.told };

    ghost halted = { λ _. HaltsLook };

    ghost ready = { λ _. Unit {0} };

    #[tactic(auto, unfolding(crate::specs::Sessions::next_line))]
    fn answer(&mut self, line: &[u8], _text: &mut Vec<u8>) -> Result<(), Halt<Bytes>> {
        let Some(log) = &mut self.log else {
            self.log = Some(first_log(self.alloc, &self.tag, line)?);
            return Ok(());
        };
        if self.is_over {
            return self.told.tell(line);
        }
        if is_end_of_log(line) {
            self.is_over = true;
            return Ok(());
        }
        read_call(self.alloc, log, line)
    }

    fn may_end(&self) -> bool {
        self.is_over
    }
}
