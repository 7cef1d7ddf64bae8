ghost use Rattle.std.specs.Prelude.{◌≡◌};

use crash_disk::Disk;
use node_answers::answer_watcher;
use node_journal::Stop;
use node_lines::{LineRefusal, read_watcher_line};
use node_replies::WatcherOrder;
use node_sessions::{Commanded, Said};
use plasma_base::Hash32;
use plasma_tx::RootLog;
use std::alloc::Global;
use watcher_node::WatcherNode;

/// A watcher whose run is commanded.
#[derive(Drop)]
pub struct WatcherRun<D: Disk, H: Hash32 + Copy> {
    pub node: WatcherNode<D, H>,
}

impl<D: Disk, H: Hash32 + Copy> Commanded for WatcherRun<D, H> {
    ghost use Rattle.std.specs.Prelude.{◌≡◌, false};
    ghost use Rattle.node_rules.specs.Watcher.{who_is};
    ghost use Rattle.node_lines.specs.Grammar.{watcher_line_in, watcher_begins_with_bytes};
    ghost use Rattle.node_roles.specs.Notes.{NotesAt};
    ghost use Rattle.node_journal.specs.Parts.{alone};
    ghost use Rattle.node_roles.specs.Nodes.{NodeAt, outcome_at, node_does, IsNodeAt, StoppedAt};
    ghost use Rattle.node_roles.specs.Roles.{watcher_commands};

    type Command = WatcherOrder;

    ghost At = { NodeAt NotesAt };

    ghost tag = { λ run. (who_is run.node.notes.records).tag };

    ghost command_in = { λ _. watcher_line_in };

    ghost begins_with_bytes = { watcher_begins_with_bytes };

    ghost does = { λ _. node_does watcher_commands };

    ghost is_at = { λ run at. (H.digest_of run.node.hash ≡ at.dig)
        × IsNodeAt D.told D.faults at.kept (alone run.node.notes) };

    ghost is_stopped = { λ run log at line stop. StoppedAt D.told D.faults
        (outcome_at watcher_commands log at line) at.kept stop (alone run.node.notes) };

    ghost is_open = { λ run. run.node.notes.closed ≡ false };

    fn tag(&self) -> [u8; 32] {
        self.node.tag()
    }

    fn read(&self, alloc: Global, line: &[u8]) -> Result<WatcherOrder, LineRefusal> {
        read_watcher_line(alloc, line)
    }

    fn answer(
        &mut self,
        alloc: Global,
        log: &RootLog,
        command: WatcherOrder,
        text: &mut Vec<u8>,
    ) -> Result<Said, Stop> {
        self.node.is_whole();
        answer_watcher(alloc, &mut self.node, log, &command, text)
    }
}
