ghost use Rattle.std.specs.Prelude.{◌≡◌, ℕ, List, Some};
ghost use Rattle.node_replies.specs.declared.order.WatcherOrder.{WatcherOrder};
ghost use Rattle.node_lines.specs.declared.wallet_line.WalletLine.{WalletLine};
ghost use Rattle.node_lines.specs.declared.operator_line.OperatorLine.{OperatorLine};
ghost use Rattle.node_lines.specs.Grammar.{IsWalletLine, wallet_line_text, wallet_line_in, IsWatcherLine, watcher_line_text, watcher_line_in, IsOperatorLine, operator_line_text, operator_line_in};

/// A law: the spelling of a command is read as that command, whoever's it is.
pub fn a_printed_command_is_read_back()
    ensures wallet { (line : WalletLine) → IsWalletLine line → wallet_line_in (wallet_line_text line) ≡ Some line }
    ensures watcher { (order : WatcherOrder) → IsWatcherLine order
        → watcher_line_in (watcher_line_text order) ≡ Some order }
    ensures operator { (line : OperatorLine) → IsOperatorLine line
        → operator_line_in (operator_line_text line) ≡ Some line }
{}

/// A law: a command has one spelling, whoever's it is. Bytes that are read as a command are its
/// spelling, and the command is in the grammar.
pub fn a_command_has_one_spelling()
    ensures wallet { (bytes : List ℕ) (line : WalletLine) → wallet_line_in bytes ≡ Some line
        → (bytes ≡ wallet_line_text line) × IsWalletLine line }
    ensures watcher { (bytes : List ℕ) (order : WatcherOrder) → watcher_line_in bytes ≡ Some order
        → (bytes ≡ watcher_line_text order) × IsWatcherLine order }
    ensures operator { (bytes : List ℕ) (line : OperatorLine) → operator_line_in bytes ≡ Some line
        → (bytes ≡ operator_line_text line) × IsOperatorLine line }
{}
