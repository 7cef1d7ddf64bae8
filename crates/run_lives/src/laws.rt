ghost use Rattle.std.specs.Prelude.{List, ℕ};
ghost use Rattle.run_lives.specs.Calls.{RunsAreCalls, InitsAreOfTheirRoles};

use crash_disk::Disk;

/// What `run` says of its disks, of what it did outside and of its status (`output`, `notes_stay`, `leaves_stay`) is
/// what a call of a life does that is asked for by its form, or memory ran out before it used a disk. So the laws of
/// `node_lives` and `key_lives` are of runs of the program, one after another on one pair of disks.
pub fn runs_are_calls<D: Disk>()
    ensures { (dig : List ℕ → List ℕ) → RunsAreCalls D.told D.plan D.faults dig }
{}

/// What the words of an `init` of a wallet, a watcher or an operator spell is an identity of its role, as the laws of
/// `node_lives` ask of the `init` that began a node. For an operator with a key the digests have 32 bytes. The seed of
/// an `hss init` has 32 bytes.
pub fn inits_are_of_their_roles()
    ensures { (dig : List ℕ → List ℕ) → InitsAreOfTheirRoles dig }
{}
