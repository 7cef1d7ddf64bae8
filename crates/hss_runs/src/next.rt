ghost use Rattle.std.specs.Prelude.{◌≡◌, Some};
ghost use Rattle.hss_keys.specs.Entries.{entries_of};
ghost use Rattle.hss_runs.specs.Signing.{next_leaf};

use crash_disk::Disk;
use hss_keys::{HssSecret, Levels};

/// The leaf that signs next.
#[derive(Clone, Copy)]
pub struct NextLeaf {
    /// The number of the top leaf that signs its bottom key, from 0.
    pub top_leaf: u32,
    /// The number of the leaf of that bottom key, from 0.
    pub leaf: u32,
    /// Whether the bottom key has to be opened first.
    pub opens: bool,
}

/// The leaf that signs next; `None` where no leaf is left. The secret has to be that of `Levels::open`.
pub fn next_leaf<D: Disk>(levels: &Levels<D>, secret: &HssSecret) -> Option<NextLeaf>
    requires { secret.now ≡ levels.now.seed }
    ensures { result ≡ next_leaf levels.now.seed (entries_of levels.now.notes.records) }
{
    let opened = levels.opened();
    if levels.has_leaf() {
        return Some(NextLeaf {
            top_leaf: opened - 1,
            leaf: levels.used(),
            opens: false,
        });
    }
    if opened < secret.top_leaves() {
        return Some(NextLeaf {
            top_leaf: opened,
            leaf: 0,
            opens: true,
        });
    }
    None
}
