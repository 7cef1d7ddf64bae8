ghost use Rattle.std.specs.Prelude.{◌≡◌};

use crash_disk::Disk;
use node_answers::answer_wallet;
use node_journal::Stop;
use node_lines::{LineRefusal, WalletLine, read_wallet_line};
use node_sessions::{Commanded, Said};
use plasma_base::Hash32;
use plasma_tx::RootLog;
use std::alloc::Global;
use wallet_node::WalletNode;

/// A wallet whose run is commanded.
#[derive(Drop)]
pub struct WalletRun<D: Disk, H: Hash32 + Copy> {
    pub node: WalletNode<D, H>,
}

impl<D: Disk, H: Hash32 + Copy> Commanded for WalletRun<D, H> {
    ghost use Rattle.std.specs.Prelude.{◌≡◌, false};
    ghost use Rattle.node_rules.specs.Wallet.{who};
    ghost use Rattle.node_lines.specs.Grammar.{wallet_line_in, wallet_begins_with_bytes};
    ghost use Rattle.node_roles.specs.Notes.{NotesAt};
    ghost use Rattle.node_roles.specs.Nodes.{NodeAt, outcome_at, node_does, IsNodeAt, StoppedAt};
    ghost use Rattle.node_roles.specs.Roles.{wallet_parts, wallet_commands};

    type Command = WalletLine;

    ghost At = { NodeAt NotesAt };

    ghost tag = { λ run. (who run.node.records).tag };

    ghost command_in = { λ _. wallet_line_in };

    ghost begins_with_bytes = { wallet_begins_with_bytes };

    ghost does = { λ _. node_does wallet_commands };

    ghost is_at = { λ run at. (H.digest_of run.node.hash ≡ at.dig)
        × IsNodeAt D.told D.faults at.kept (wallet_parts run.node) };

    ghost is_stopped = { λ run log at line stop. StoppedAt D.told D.faults
        (outcome_at wallet_commands log at line) at.kept stop (wallet_parts run.node) };

    ghost is_open = { λ run. run.node.closed ≡ false };

    fn tag(&self) -> [u8; 32] {
        self.node.tag()
    }

    fn read(&self, alloc: Global, line: &[u8]) -> Result<WalletLine, LineRefusal> {
        read_wallet_line(alloc, line)
    }

    fn answer(
        &mut self,
        alloc: Global,
        log: &RootLog,
        command: WalletLine,
        text: &mut Vec<u8>,
    ) -> Result<Said, Stop> {
        self.node.is_whole();
        answer_wallet(alloc, &mut self.node, log, command, text)
    }
}
