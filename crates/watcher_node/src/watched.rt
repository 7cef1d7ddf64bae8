ghost use Rattle.std.specs.Prelude.{◌≡◌, List, not, filter, OnOk, OnErr};
ghost use Rattle.std.specs.List.Sorted.{IsStrictlySortedBy};
ghost use Rattle.std.specs.BTreeMap.{insert_entry};
ghost use Rattle.std.specs.Map.{keys_of};
ghost use Rattle.node_rules.specs.declared.kept_coin.KeptCoin.{KeptCoin};
ghost use Rattle.watcher_node.specs.Inside.{is_watched_at, with_watched, changed, by_place, AreKeyed};

use node_rules::KeptCoin;
use plasma_base::NoMemory;
use std::collections::BTreeMap;

// What a note changes.
#[derive(Drop)]
pub enum Change {
    Guards { watched: KeptCoin },
    Releases { coin: u64, tip: u64 },
}

// Puts a guard at its place, or in the place of the one of its coin and tip. `NoMemory` changes nothing.
pub fn insert_guard(
    all: &mut BTreeMap<(u64, u64), KeptCoin>,
    watched: KeptCoin,
) -> Result<(), NoMemory>
    ensures ok { OnOk result (all.new.entries
        ≡ insert_entry by_place all.old.entries (watched.coin, watched.tip) watched) }
    ensures ordered { IsStrictlySortedBy by_place (keys_of all.old.entries) }
    ensures err { OnErr result (all.new.entries ≡ all.old.entries) }
{
    all.insert((watched.coin, watched.tip), watched)?;
    Ok(())
}

// Puts a guard at its place, where there is none of its coin and tip.
fn put_guard(all: &mut BTreeMap<(u64, u64), KeptCoin>, watched: KeptCoin) -> Result<(), NoMemory>
    ensures { OnOk result ((guards : List KeptCoin) → AreKeyed all.old.entries guards
        → AreKeyed all.new.entries (with_watched watched guards)) }
{
    if all.contains_key(&(watched.coin, watched.tip)) {
        return Ok(());
    }
    insert_guard(all, watched)
}

// Lets the guard of a coin with a tip go.
pub fn remove_guard(all: &mut BTreeMap<(u64, u64), KeptCoin>, coin: u64, tip: u64)
    ensures { (guards : List KeptCoin) → AreKeyed all.old.entries guards
        → AreKeyed all.new.entries (filter (λ watched. not (is_watched_at coin tip watched)) guards) }
{
    // That the map is in order is what `len` says of it.
    let _ = all.len();
    all.remove(&(coin, tip));
}

// Takes a change over. After `NoMemory` the guards are let go.
pub fn apply(all: &mut BTreeMap<(u64, u64), KeptCoin>, change: Change) -> Result<(), NoMemory>
    ensures { OnOk result ((guards : List KeptCoin) → AreKeyed all.old.entries guards
        → AreKeyed all.new.entries (changed change guards)) }
{
    match change {
        Change::Guards { watched } => put_guard(all, watched),
        Change::Releases { coin, tip } => {
            remove_guard(all, coin, tip);
            Ok(())
        }
    }
}
