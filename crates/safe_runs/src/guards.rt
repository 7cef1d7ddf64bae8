ghost use Rattle.std.specs.Prelude.{◌≡◌, ◌++◌, ◌∷◌, [], true, not, List, ℕ, map, filter, reverse, None, Ok, IfOk, IfErr, OnOk};
ghost use Rattle.std.specs.List.Sorted.{IsStrictlySortedBy};
ghost use Rattle.std.specs.BTreeMap.{insert_entry, values};
ghost use Rattle.std.specs.Map.{keys_of};
ghost use Rattle.std.specs.Option.{option_map};
ghost use Rattle.std.specs.List.{filter_map};
ghost use Rattle.node_journal.specs.Role.{are_of, role_in};
ghost use Rattle.node_rules.specs.declared.kept_coin.KeptCoin.{KeptCoin};
ghost use Rattle.node_rules.specs.Watcher.{identity_in, note_in, watcher_kinds};
ghost use Rattle.watcher_node.specs.Inside.{watched_in, AreKeyed, IsKept, by_place, is_watched_at, with_watched};
ghost use Rattle.safe_runs.specs.Inside.{case_with, change_of, changed, changed_by};
ghost use Rattle.safe_runs.specs.Runs.{IsRefused, watcher_in};

use super::case::{Case, case_of};
use super::image::{disk_of, only_place, records_of};
use super::node::Holder;
use super::told::Coins;
use gate_journal::JournalRefusal;
use node_rules::{KeptCoin, number_at, read_kept};
use plasma_base::{Bytes, Hash32, NoMemory};
use plasma_tx::RootLog;
use std::alloc::Global;
use std::collections::BTreeMap;
use watcher_node::WatcherNode;

/// What a watcher's records say: its chain's tag, its account, and the coins that it guards.
#[derive(Drop)]
pub struct Guards {
    pub tag: [u8; 32],
    pub account: u64,
    // by coin and tip
    all: BTreeMap<(u64, u64), KeptCoin>,
}

// What a note changes.
#[derive(Drop)]
enum Change {
    Guards { watched: KeptCoin },
    Releases { coin: u64, tip: u64 },
}

// The tag and the account of the identity that a record spells.
#[tactic(auto, unfolding(node_rules::specs::Watcher::identity_in))]
fn identity_in(body: &[u8]) -> Option<([u8; 32], u64)>
    ensures { result ≡ option_map (λ who. (who.tag, who.account)) (identity_in body.now) }
{
    let (mark, bytes) = body.split_first()?;
    if *mark != 17 || bytes.len() != 40 {
        return None;
    }
    let mut tag = [0; 32];
    tag.copy_from_slice(&bytes[0..32]);
    Some((tag, number_at(bytes, 32)))
}

// The change that a record spells for a chain with this tag.
#[tactic(auto, unfolding(node_rules::specs::Watcher::note_in))]
fn read_note<H: Hash32>(
    alloc: Global,
    h: &H,
    tag: &[u8; 32],
    body: &[u8],
) -> Result<Option<Change>, NoMemory>
    ensures { IfOk result (λ change. change
        ≡ option_map (change_of tag.now) (note_in (H.digest_of h.now) tag.now body.now)) }
{
    let Some((mark, bytes)) = body.split_first() else {
        return Ok(None);
    };
    if *mark == 18 {
        return match read_kept(alloc, h, tag, bytes)? {
            Some(watched) => Ok(Some(Change::Guards { watched })),
            None => Ok(None),
        };
    }
    if *mark == 19 && bytes.len() == 16 {
        return Ok(Some(Change::Releases {
            coin: number_at(bytes, 0),
            tip: number_at(bytes, 8),
        }));
    }
    Ok(None)
}

// Puts a guard at its place.
fn insert_guard(all: &mut BTreeMap<(u64, u64), KeptCoin>, watched: KeptCoin) -> Result<(), NoMemory>
    ensures ok { OnOk result (all.new.entries
        ≡ insert_entry by_place all.old.entries (watched.coin, watched.tip) watched) }
    ensures ordered { IsStrictlySortedBy by_place (keys_of all.old.entries) }
{
    all.insert((watched.coin, watched.tip), watched)?;
    Ok(())
}

// Puts a guard at its place, where there is none of its coin and tip.
fn put_guard(all: &mut BTreeMap<(u64, u64), KeptCoin>, watched: KeptCoin) -> Result<(), NoMemory>
    ensures { OnOk result ((guards : List KeptCoin) → AreKeyed all.old.entries guards
        → AreKeyed all.new.entries (with_watched watched guards)) }
{
    if all.contains_key(&(watched.coin, watched.tip)) {
        return Ok(());
    }
    insert_guard(all, watched)
}

// Lets the guard of a coin with a tip go.
fn remove_guard(all: &mut BTreeMap<(u64, u64), KeptCoin>, coin: u64, tip: u64)
    ensures { (guards : List KeptCoin) → AreKeyed all.old.entries guards
        → AreKeyed all.new.entries (filter (λ watched. not (is_watched_at coin tip watched)) guards) }
{
    // That the map is in order is what `len` says of it.
    let _ = all.len();
    all.remove(&(coin, tip));
}

// Takes a change over.
fn apply(all: &mut BTreeMap<(u64, u64), KeptCoin>, change: Change) -> Result<(), NoMemory>
    ensures { OnOk result ((guards : List KeptCoin) → AreKeyed all.old.entries guards
        → AreKeyed all.new.entries (changed change guards)) }
{
    match change {
        Change::Guards { watched } => put_guard(all, watched),
        Change::Releases { coin, tip } => {
            remove_guard(all, coin, tip);
            Ok(())
        }
    }
}

// Takes the change over that a record spells, where it spells one.
fn take_over(
    all: &mut BTreeMap<(u64, u64), KeptCoin>,
    change: Option<Change>,
) -> Result<(), NoMemory>
    ensures { OnOk result ((guards : List KeptCoin) → AreKeyed all.old.entries guards
        → AreKeyed all.new.entries (changed_by change guards)) }
{
    match change {
        Some(change) => apply(all, change),
        None => Ok(()),
    }
}

// The guards that notes leave, the oldest first.
fn read_guards<H: Hash32>(
    alloc: Global,
    h: &H,
    tag: &[u8; 32],
    notes: &[Bytes],
) -> Result<BTreeMap<(u64, u64), KeptCoin>, NoMemory>
    ensures { IfOk result (λ all. AreKeyed all.entries
        (watched_in tag.now (reverse (filter_map (note_in (H.digest_of h.now) tag.now) notes.now)))) }
{
    let mut all = BTreeMap::new(alloc);
    for note in notes {
        let change = read_note(alloc, h, tag, note.as_slice())?;
        take_over(&mut all, change)?;
    }
    Ok(all)
}

// What the records of a watcher say.
fn read_records<H: Hash32>(alloc: Global, h: &H, records: &[Bytes]) -> Result<Guards, NoMemory>
    requires { are_of (watcher_kinds (H.digest_of h.now)) records.now ≡ true }
    ensures { IfOk result (λ read. IsKept (H.digest_of h.now) records.now read.tag read.account read.all.entries) }
{
    let Some((first, notes)) = records.split_first() else {
        unreachable!();
    };
    let Some(who) = identity_in(first.as_slice()) else {
        unreachable!();
    };
    let (tag, account) = who;
    let all = read_guards(alloc, h, &tag, notes)?;
    Ok(Guards { tag, account, all })
}

// The records of a watcher that an image spells.
fn watcher_records<H: Hash32 + Copy>(
    alloc: Global,
    h: H,
    image: Vec<u8>,
) -> Result<Vec<Bytes>, JournalRefusal>
    ensures records { IfOk result (λ records. role_in (watcher_kinds (H.digest_of h)) image.items ≡ Ok records.items) }
    ensures role { IfOk result (λ records. are_of (watcher_kinds (H.digest_of h)) records.items ≡ true) }
    ensures refused { IfErr result (IsRefused (watcher_in (H.digest_of h) image.items)) }
{
    match WatcherNode::open_with(alloc, disk_of(alloc, image), h) {
        Ok(node) => { Ok(records_of(alloc, node.take_disk())?) }
        Err(returned) => Err(only_place(returned.why)),
    }
}

impl Guards {
    /// What an image says of a watcher, under a digest. `NotJournal` where it spells no records of one.
    pub fn read<H: Hash32 + Copy>(
        alloc: Global,
        h: H,
        image: Vec<u8>,
    ) -> Result<Guards, JournalRefusal>
        ensures read { IfOk result (λ read. (records : List (List ℕ))
            × (role_in (watcher_kinds (H.digest_of h)) image.items ≡ Ok records)
            × IsKept (H.digest_of h) records read.tag read.account read.all.entries) }
        ensures refused { IfErr result (IsRefused (watcher_in (H.digest_of h) image.items)) }
    {
        let records = watcher_records(alloc, h, image)?;
        Ok(read_records(alloc, &h, &records)?)
    }
}

// Adds the case of a guard.
fn push_guard(
    log: &RootLog,
    hidden: &Coins,
    guard: &KeptCoin,
    cases: &mut Vec<Case>,
) -> Result<(), NoMemory>
    ensures { OnOk result (cases.new.items ≡ cases.old.items
        ++ case_with log.now.log hidden.now guard.now.coin guard.now.spends None true ∷ []) }
{
    let spends = guard.spends.copy()?;
    cases.push(case_of(log, hidden, guard.coin, spends, None, true))?;
    Ok(())
}

// The cases of guards, in their order.
fn cases_of(
    alloc: Global,
    log: &RootLog,
    hidden: &Coins,
    guards: &BTreeMap<(u64, u64), KeptCoin>,
) -> Result<Vec<Case>, NoMemory>
    ensures { IfOk result (λ cases. cases.items
        ≡ map (λ guard. case_with log.now.log hidden.now guard.coin guard.spends None true) (values guards.now)) }
{
    let mut cases = Vec::new(alloc);
    for guard in guards.values() {
        push_guard(log, hidden, guard, &mut cases)?;
    }
    Ok(cases)
}

impl Holder for Guards {
    ghost use Rattle.std.specs.Prelude.{◌≡◌, List, ℕ};
    ghost use Rattle.watcher_node.specs.Inside.{IsKept};
    ghost use Rattle.safe_runs.specs.Runs.{watcher_node};

    ghost is = { λ read node. (dig : List ℕ → List ℕ) × (records : List (List ℕ))
        × IsKept dig records read.tag read.account read.all.entries × (node ≡ watcher_node dig records) };

    ghost sound = { λ _. Unit {0} };

    fn tag(&self) -> [u8; 32] {
        self.tag
    }

    fn account(&self) -> u64 {
        self.account
    }

    fn cases(&self, alloc: Global, log: &RootLog, hidden: &Coins) -> Result<Vec<Case>, NoMemory> {
        cases_of(alloc, log, hidden, &self.all)
    }
}
