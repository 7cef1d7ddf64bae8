ghost use Rattle.std.specs.Prelude.{◌≡◌, true, List, IfOk, OnOk, Some, reverse};
ghost use Rattle.std.specs.Option.{option_map};
ghost use Rattle.std.specs.List.{filter_map};
ghost use Rattle.node_journal.specs.Role.{are_of};
ghost use Rattle.node_rules.specs.declared.kept_coin.KeptCoin.{KeptCoin};
ghost use Rattle.node_rules.specs.Watcher.{identity_in, note_in, watcher_kinds};
ghost use Rattle.watcher_node.specs.Inside.{change_of, changed_by, watched_in, AreKeyed, IsKept};

use super::watched::{Change, apply};
use node_rules::{KeptCoin, number_at, read_kept};
use plasma_base::{Bytes, Hash32, NoMemory};
use std::alloc::Global;
use std::collections::BTreeMap;

// The tag and the account of the identity that a record spells.
#[tactic(auto, unfolding(node_rules::specs::Watcher::identity_in))]
pub fn identity_in(body: &[u8]) -> Option<([u8; 32], u64)>
    ensures { result ≡ option_map (λ who. (who.tag, who.account)) (identity_in body.now) }
{
    let (mark, bytes) = body.split_first()?;
    if *mark != 17 || bytes.len() != 40 {
        return None;
    }
    let mut tag = [0; 32];
    tag.copy_from_slice(&bytes[0..32]);
    Some((tag, number_at(bytes, 32)))
}

// The change that a record spells for a chain with this tag.
#[tactic(auto, unfolding(node_rules::specs::Watcher::note_in))]
pub fn read_note<H: Hash32>(
    alloc: Global,
    h: &H,
    tag: &[u8; 32],
    body: &[u8],
) -> Result<Option<Change>, NoMemory>
    ensures { IfOk result (λ change. change
        ≡ option_map (change_of tag.now) (note_in (H.digest_of h.now) tag.now body.now)) }
{
    let Some((mark, bytes)) = body.split_first() else {
        return Ok(None);
    };
    if *mark == 18 {
        return match read_kept(alloc, h, tag, bytes)? {
            Some(watched) => Ok(Some(Change::Guards { watched })),
            None => Ok(None),
        };
    }
    if *mark == 19 && bytes.len() == 16 {
        return Ok(Some(Change::Releases {
            coin: number_at(bytes, 0),
            tip: number_at(bytes, 8),
        }));
    }
    Ok(None)
}

// Takes the change over that a record spells, where it spells one.
fn take_over(
    all: &mut BTreeMap<(u64, u64), KeptCoin>,
    change: Option<Change>,
) -> Result<(), NoMemory>
    ensures { OnOk result ((guards : List KeptCoin) → AreKeyed all.old.entries guards
        → AreKeyed all.new.entries (changed_by change guards)) }
{
    match change {
        Some(change) => apply(all, change),
        None => Ok(()),
    }
}

// What a watcher keeps in memory of its records.
#[derive(Drop)]
pub struct InMemory {
    pub tag: [u8; 32],
    pub account: u64,
    // by coin and tip
    pub guards: BTreeMap<(u64, u64), KeptCoin>,
}

// The guards that notes leave, the oldest first.
fn read_guards<H: Hash32>(
    alloc: Global,
    h: &H,
    tag: &[u8; 32],
    notes: &[Bytes],
) -> Result<BTreeMap<(u64, u64), KeptCoin>, NoMemory>
    ensures { IfOk result (λ all. AreKeyed all.entries
        (watched_in tag.now (reverse (filter_map (note_in (H.digest_of h.now) tag.now) notes.now)))) }
{
    let mut all = BTreeMap::new(alloc);
    for note in notes {
        let change = read_note(alloc, h, tag, note.as_slice())?;
        take_over(&mut all, change)?;
    }
    Ok(all)
}

// What is kept in memory of a watcher's records.
pub fn in_memory<H: Hash32>(alloc: Global, h: &H, records: &[Bytes]) -> Result<InMemory, NoMemory>
    requires { are_of (watcher_kinds (H.digest_of h.now)) records.now ≡ true }
    ensures { IfOk result (λ kept. IsKept (H.digest_of h.now) records.now kept.tag kept.account kept.guards.entries) }
{
    let Some((first, notes)) = records.split_first() else {
        unreachable!();
    };
    let Some(who) = identity_in(first.as_slice()) else {
        unreachable!();
    };
    let (tag, account) = who;
    let guards = read_guards(alloc, h, &tag, notes)?;
    Ok(InMemory {
        tag,
        account,
        guards,
    })
}
