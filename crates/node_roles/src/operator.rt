ghost use Rattle.std.specs.Prelude.{◌≡◌};

use crash_disk::Disk;
use node_answers::answer_operator;
use node_journal::Stop;
use node_lines::{LineRefusal, OperatorLine, read_operator_line};
use node_sessions::{Commanded, Said};
use operator_core::Operator;
use plasma_base::Hash32;
use plasma_tx::RootLog;
use std::alloc::Global;

/// An operator whose run is commanded.
#[derive(Drop)]
pub struct OperatorRun<D: Disk, H: Hash32 + Copy> {
    pub node: Operator<D, H>,
}

impl<D: Disk, H: Hash32 + Copy> Commanded for OperatorRun<D, H> {
    ghost use Rattle.std.specs.Prelude.{◌≡◌, false};
    ghost use Rattle.operator_rules.specs.Records.{who_is};
    ghost use Rattle.node_lines.specs.Grammar.{operator_line_in, operator_begins_with_bytes};
    ghost use Rattle.node_roles.specs.Notes.{NotesAt};
    ghost use Rattle.node_journal.specs.Parts.{alone};
    ghost use Rattle.node_roles.specs.Nodes.{NodeAt, outcome_at, node_does, IsNodeAt, StoppedAt};
    ghost use Rattle.node_roles.specs.Roles.{operator_commands};

    type Command = OperatorLine;

    ghost At = { NodeAt NotesAt };

    ghost tag = { λ run. (who_is run.node.notes.records).tag };

    ghost command_in = { λ _. operator_line_in };

    ghost begins_with_bytes = { operator_begins_with_bytes };

    ghost does = { λ _. node_does operator_commands };

    ghost is_at = { λ run at. (H.digest_of run.node.hash ≡ at.dig)
        × IsNodeAt D.told D.faults at.kept (alone run.node.notes) };

    ghost is_stopped = { λ run log at line stop. StoppedAt D.told D.faults
        (outcome_at operator_commands log at line) at.kept stop (alone run.node.notes) };

    ghost is_open = { λ run. run.node.notes.closed ≡ false };

    fn tag(&self) -> [u8; 32] {
        self.node.tag()
    }

    fn read(&self, alloc: Global, line: &[u8]) -> Result<OperatorLine, LineRefusal> {
        read_operator_line(alloc, line)
    }

    fn answer(
        &mut self,
        alloc: Global,
        log: &RootLog,
        command: OperatorLine,
        text: &mut Vec<u8>,
    ) -> Result<Said, Stop> {
        self.node.is_whole();
        answer_operator(alloc, &mut self.node, log, command, text)
    }
}
