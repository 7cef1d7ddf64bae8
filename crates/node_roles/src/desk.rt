ghost use Rattle.std.specs.Prelude.{◌≡◌};

use crash_disk::Disk;
use node_answers::{KeyedOperator, answer_keyed};
use node_journal::Stop;
use node_lines::{LineRefusal, OperatorLine, read_operator_line};
use node_sessions::{Commanded, Said};
use plasma_base::Hash32;
use plasma_tx::RootLog;
use std::alloc::Global;

/// An operator with a key whose run is commanded.
#[derive(Drop)]
pub struct DeskRun<D: Disk, H: Hash32 + Copy> {
    pub keyed: KeyedOperator<D, H>,
}

impl<D: Disk, H: Hash32 + Copy> Commanded for DeskRun<D, H> {
    ghost use Rattle.std.specs.Prelude.{◌≡◌, false, ◌&&◌};
    ghost use Rattle.lms_sign.specs.Tree.{public_key_of};
    ghost use Rattle.operator_rules.specs.Records.{who_is};
    ghost use Rattle.node_lines.specs.Grammar.{operator_line_in, operator_begins_with_bytes};
    ghost use Rattle.node_answers.specs.Desks.{secret_of};
    ghost use Rattle.node_roles.specs.Notes.{NotesAt};
    ghost use Rattle.node_journal.specs.Parts.{both};
    ghost use Rattle.node_roles.specs.Nodes.{NodeAt, outcome_at, node_does, IsNodeAt, StoppedAt};
    ghost use Rattle.node_roles.specs.Roles.{desk_commands};

    type Command = OperatorLine;

    ghost At = { NodeAt NotesAt };

    ghost tag = { λ run. (who_is run.keyed.node.notes.records).tag };

    ghost command_in = { λ _. operator_line_in };

    ghost begins_with_bytes = { operator_begins_with_bytes };

    ghost does = { λ _. node_does desk_commands };

    ghost is_at = { λ run at. (H.digest_of run.keyed.node.hash ≡ at.dig)
        × IsNodeAt D.told D.faults at.kept (both run.keyed.node.notes run.keyed.desk.notes) };

    ghost is_stopped = { λ run log at line stop. StoppedAt D.told D.faults
        (outcome_at desk_commands log at line) at.kept stop (both run.keyed.node.notes run.keyed.desk.notes)
        × ((run.keyed.node.notes.closed && run.keyed.desk.notes.closed) ≡ false) };

    ghost is_open = { λ run. (run.keyed.node.notes.closed ≡ false) × (run.keyed.desk.notes.closed ≡ false)
        × (run.keyed.key ≡ secret_of run.keyed.node.notes.records)
        × (public_key_of run.keyed.key ≡ run.keyed.desk.key) × (run.keyed.hash ≡ run.keyed.node.hash) };

    fn tag(&self) -> [u8; 32] {
        self.keyed.node.tag()
    }

    fn read(&self, alloc: Global, line: &[u8]) -> Result<OperatorLine, LineRefusal> {
        read_operator_line(alloc, line)
    }

    fn answer(
        &mut self,
        alloc: Global,
        log: &RootLog,
        command: OperatorLine,
        text: &mut Vec<u8>,
    ) -> Result<Said, Stop> {
        self.keyed.node.is_whole();
        answer_keyed(alloc, &mut self.keyed, log, command, text)
    }
}
