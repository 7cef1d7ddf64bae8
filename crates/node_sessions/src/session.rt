ghost use Rattle.std.specs.Prelude.{◌≡◌, List, ℕ};
ghost use Rattle.streamed_lines.specs.declared.ending.Halt.{Halt};
ghost use Rattle.node_sessions.specs.Sessions.{SessionState, begun, calls_of, commanded, session_rules};
ghost use Rattle.node_sessions.specs.Commands.{IsHaltedNode};

use super::commanded::Commanded;
use super::log::{first_log, read_call};
use super::said::Said;
use line_forms::LineRefusal;
use node_journal::Stop as NodeStop;
use plasma_base::Bytes;
use plasma_tx::RootLog;
use root_log::is_end_of_log;
use std::alloc::Global;
use std::marker::Model;
use streamed_lines::{Answerer, Halt, Stop};

/// A session of a node: the log that was read so far, whether it has ended, and the node.
#[derive(Drop)]
pub struct Session<N: Commanded> {
    alloc: Global,
    log: Option<RootLog>,
    is_over: bool,
    node: N,
}

impl<N: Commanded> Model for Session<N> {
    ghost use Rattle.node_sessions.specs.Sessions.{SessionState};

    ghost Value = { SessionState N };

    ghost view = { λ s. record { log = s.log; is_over = s.is_over; node = s.node } };
}

impl<N: Commanded> Session<N> {
    /// A session of a node, before its first line.
    pub fn new(alloc: Global, node: N) -> Session<N>
        ensures state { result ≡ begun node }
        ensures ran { (at : N.At) → N.is_at node at → ⟦<Session<N> as Answerer>⟧.ran result (begun at) }
        ensures ready { N.is_open node → ⟦<Session<N> as Answerer>⟧.ready result }
        ensures rules { ⟦<Session<N> as Answerer>⟧.rules result
            ≡ session_rules (N.tag node) (N.command_in node) (N.does node) }
    {
        Session {
            alloc,
            log: None,
            is_over: false,
            node,
        }
    }

    /// The node, handed back.
    pub fn take_node(self) -> N
        ensures node { result ≡ self.node }
        ensures ran { (run : SessionState N.At) → ⟦<Session<N> as Answerer>⟧.ran self run → N.is_at result run.node }
        ensures halted { (run : SessionState N.At) (line : List ℕ) (halt : Halt (List ℕ))
            → ⟦<Session<N> as Answerer>⟧.halted self run line halt
            → IsHaltedNode N.is_at N.is_stopped result (calls_of run.log) run.node
            (commanded (N.command_in result) run line) halt }
    {
        self.node
    }
}

impl<N: Commanded> Answerer for Session<N> {
    ghost use Rattle.node_sessions.specs.Sessions.{SessionState, session_rules};
    ghost use Rattle.node_sessions.specs.Commands.{IsSession, IsHaltedSession};

    type Cause = Bytes;

    ghost Run = { SessionState N.At };

    ghost rules = { λ session. session_rules (N.tag session.node) (N.command_in session.node) (N.does session.node) };

    ghost ran = { IsSession N.is_at N.is_stopped };

    ghost halted = { λ session. IsHaltedSession N.is_at N.is_stopped (N.command_in session.node)
        N.begins_with_bytes session };

    ghost ready = { λ session. N.is_open session.node };

    #[tactic(auto, unfolding(crate::specs::Sessions::next_line))]
    fn answer(&mut self, line: &[u8], text: &mut Vec<u8>) -> Result<(), Halt<Bytes>> {
        let Some(log) = &mut self.log else {
            self.log = Some(first_log(self.alloc, &self.node.tag(), line)?);
            return Ok(());
        };
        if !self.is_over {
            if is_end_of_log(line) {
                self.is_over = true;
                return Ok(());
            }
            return read_call(self.alloc, log, line);
        }
        let command = match self.node.read(self.alloc, line) {
            Ok(command) => command,
            Err(LineRefusal::BadLine) => {
                return Err(Halt::Stops {
                    stop: Stop::BadLine,
                });
            }
            Err(LineRefusal::NoMemory) => return Err(Halt::NoMemory),
        };
        match self.node.answer(self.alloc, log, command, text) {
            Ok(Said::Answered) => Ok(()),
            Ok(Said::Refused { cause }) => Err(Halt::Stops {
                stop: Stop::Ends { cause },
            }),
            Err(NodeStop::DeviceFault) => Err(Halt::Failed),
            // An open node never says that it is closed.
            Err(NodeStop::NoMemory | NodeStop::Closed) => Err(Halt::NoMemory),
        }
    }

    fn may_end(&self) -> bool {
        self.is_over
    }
}
