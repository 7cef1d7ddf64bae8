ghost use Rattle.std.specs.Prelude.{◌≡◌, true, Some, None, Err, IfOk};
ghost use Rattle.line_forms.specs.Forms.{takes};
ghost use Rattle.node_lines.specs.Grammar.{watcher_form, watcher_has_bytes, watcher_line_in, watcher_begins_with_bytes, IsWatcherLine};

use line_forms::{LineRefusal, Words, named};
use node_replies::WatcherOrder;
use std::alloc::Global;

/// The first word of a watcher's command: `guard <hex>`, `release <coin> <tip>` or `watch`.
#[derive(Clone, Copy, PartialEq, Eq)]
pub enum WatcherLineName {
    Guard,
    Release,
    Watch,
}

/// The first words of a watcher's commands.
pub const WATCHER_LINE_NAMES: [(&[u8], WatcherLineName); 3] = [
    (b"guard", WatcherLineName::Guard),
    (b"release", WatcherLineName::Release),
    (b"watch", WatcherLineName::Watch),
];

// The order with this first word.
fn watcher_line_of(
    alloc: Global,
    name: WatcherLineName,
    words: &mut Words<'_>,
) -> Result<WatcherOrder, LineRefusal>
    ensures found { IfOk result (λ line. takes (watcher_form name) words.old ≡ Some (line, words.new)) }
    ensures bad { result ≡ Err LineRefusal.BadLine → takes (watcher_form name) words.old ≡ None }
    ensures memory { result ≡ Err LineRefusal.NoMemory → watcher_has_bytes name ≡ true }
{
    match name {
        WatcherLineName::Guard => Ok(WatcherOrder::Guard {
            bundle: words.hex(alloc)?,
        }),
        WatcherLineName::Release => Ok(WatcherOrder::Release {
            coin: words.number()?,
            tip: words.number()?,
        }),
        WatcherLineName::Watch => Ok(WatcherOrder::Watch),
    }
}

/// The watcher's order that a line spells, without a line feed. It refuses `BadLine` exactly where
/// it spells none, and takes memory only where its first word begins a command that has bytes.
#[tactic(auto, unfolding(crate::specs::Grammar::watcher_line_in, line_forms::specs::Forms::value_in))]
pub fn read_watcher_line(alloc: Global, line: &[u8]) -> Result<WatcherOrder, LineRefusal>
    ensures found { IfOk result (λ it. watcher_line_in line.now ≡ Some it) }
    ensures bad { result ≡ Err LineRefusal.BadLine → watcher_line_in line.now ≡ None }
    ensures memory { result ≡ Err LineRefusal.NoMemory → watcher_begins_with_bytes line.now ≡ true }
    ensures grammar { IfOk result IsWatcherLine }
{
    let mut words = Words::of(line);
    let word = words.next().ok_or(LineRefusal::BadLine)?;
    let name = named(&WATCHER_LINE_NAMES, word).ok_or(LineRefusal::BadLine)?;
    let command = watcher_line_of(alloc, name, &mut words)?;
    words.end()?;
    Ok(command)
}
