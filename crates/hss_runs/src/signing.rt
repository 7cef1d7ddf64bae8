ghost use Rattle.std.specs.Prelude.{◌≡◌, true, false, Some, IfOk, IfErr, OnOk};
ghost use Rattle.node_journal.specs.Notes.{Did, stopped_by};
ghost use Rattle.hss_keys.specs.declared.entry.Entry.TheVariants.{Opens, Binds};
ghost use Rattle.hss_keys.specs.Keys.{bottom_key};
ghost use Rattle.hss_keys.specs.Entries.{entries_of, entry_text};
ghost use Rattle.hss_keys.specs.Levels.{bound_of};
ghost use Rattle.hss_runs.specs.Inside.{stop_in};
ghost use Rattle.hss_runs.specs.Signing.{is_signable, next_leaf, entries_added};
ghost use Rattle.hss_runs.specs.Runs.{DidAll};

use super::next::NextLeaf;
use crash_disk::Disk;
use hss_keys::{HssBound, HssSecret, LevelRefusal, Levels};
use node_journal::Stop;

// What stopped a call that was refused for another cause than those of its definition.
fn stop_of(why: LevelRefusal) -> Stop
    ensures { result ≡ stop_in why }
{
    match why {
        LevelRefusal::DeviceFault => Stop::DeviceFault,
        LevelRefusal::Closed => Stop::Closed,
        _ => Stop::NoMemory,
    }
}

// Opens the bottom key of the leaf that is next, which then is the last one.
fn open_next<D: Disk>(
    levels: &mut Levels<D>,
    secret: &HssSecret,
    next: NextLeaf,
) -> Result<(), Stop>
    requires secret { secret.now ≡ levels.old.seed }
    requires next { next_leaf levels.old.seed (entries_of levels.old.notes.records) ≡ Some next }
    requires opens { next.opens ≡ true }
    ensures did { Did D.told D.plan D.faults
        (Some (entry_text (Opens next.top_leaf (bottom_key levels.old.seed next.top_leaf))))
        levels.old.notes (stopped_by result) levels.new.notes }
    ensures seed { levels.new.seed ≡ levels.old.seed }
    ensures next { OnOk result (next_leaf levels.new.seed (entries_of levels.new.notes.records)
        ≡ Some (record { top_leaf = next.top_leaf; leaf = next.leaf; opens = false })) }
{
    let _ = next;
    levels.is_whole();
    match levels.advance(secret) {
        Ok(_) => {
            levels.is_whole();
            Ok(())
        }
        Err(why) => Err(stop_of(why)),
    }
}

// Binds a message to the leaf that is next, whose bottom key is the last one.
fn bind_opened<D: Disk>(
    levels: &mut Levels<D>,
    next: NextLeaf,
    message: &[u8],
) -> Result<HssBound, Stop>
    requires signable { is_signable message.now ≡ true }
    requires open { levels.old.notes.closed ≡ false }
    requires next { next_leaf levels.old.seed (entries_of levels.old.notes.records) ≡ Some next }
    requires opened { next.opens ≡ false }
    ensures bound { IfOk result
        (λ bound. bound ≡ bound_of levels.old.seed next.top_leaf next.leaf message.now) }
    ensures did { Did D.told D.plan D.faults (Some (entry_text (Binds next.top_leaf next.leaf message.now)))
        levels.old.notes (stopped_by result) levels.new.notes }
    ensures fault { IfErr result (λ stop. stop ≡ Stop.DeviceFault) }
{
    let _ = next;
    match levels.bind(message) {
        Ok(bound) => Ok(bound),
        Err(why) => Err(stop_of(why)),
    }
}

// Binds a message to the leaf that is next, behind the opening of its bottom key where that isn't opened. Want of
// memory comes before the first append alone.
pub fn bind_next<D: Disk>(
    levels: &mut Levels<D>,
    secret: &HssSecret,
    next: NextLeaf,
    message: &[u8],
) -> Result<HssBound, Stop>
    requires secret { secret.now ≡ levels.old.seed }
    requires open { levels.old.notes.closed ≡ false }
    requires next { next_leaf levels.old.seed (entries_of levels.old.notes.records) ≡ Some next }
    requires signable { is_signable message.now ≡ true }
    ensures bound { IfOk result
        (λ bound. bound ≡ bound_of levels.old.seed next.top_leaf next.leaf message.now) }
    ensures did { DidAll D.told D.plan D.faults (entries_added levels.old.seed next message.now)
        levels.old.notes (stopped_by result) levels.new.notes }
{
    if next.opens {
        open_next(levels, secret, next)?;
        let opened = NextLeaf {
            opens: false,
            ..next
        };
        return bind_opened(levels, opened, message);
    }
    bind_opened(levels, next, message)
}
