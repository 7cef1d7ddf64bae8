ghost use Rattle.node_sessions.specs.Laws.{DoneCommandsAreAnswered};

use super::commanded::Commanded;

/// The session of a whole input is complete, all of its lines answered, where no line passes a limit, the first names
/// the chain with the node's tag, the next ones are calls of its log, then the line `--` stands there, and each line
/// behind it spells a command that the node's rules don't refuse, behind that log and the commands before. So a run of
/// such an input ends as `Done`, unless a disk, the source or the sink fails or memory runs out.
pub fn done_commands_are_answered<N: Commanded>()
    ensures { (node : N) → DoneCommandsAreAnswered (N.tag node) (N.command_in node) (N.does node) }
{}
