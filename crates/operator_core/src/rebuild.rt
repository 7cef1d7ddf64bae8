ghost use Rattle.std.specs.Prelude.{◌≡◌, [], true, drop, None, IfOk, IfSome, OnOk, option_map};
ghost use Rattle.std.specs.Option.{unwrap_or};
ghost use Rattle.operator_rules.specs.Trees.{forest_of};
ghost use Rattle.node_journal.specs.Role.{are_of};
ghost use Rattle.operator_rules.specs.Records.{operator_kinds, who_is};
ghost use Rattle.operator_core.specs.Inside.{forest_now, notes_among, FitJournal, IsRight};
ghost use Rattle.operator_core.specs.Texts.{identity_of_who, put_of_change, changed};

use super::pool::Pool;
use super::records::{Change, Who, change_in, identity_in};
use super::trees::Trees;
use plasma_base::{Bytes, Hash32, NoMemory};
use std::alloc::Global;

// The most bytes of a journal's record.
const MOST_BYTES: usize = 1 << 24;

// What a note does to the pool and the trees. Where memory runs out no tree changes.
fn apply<H: Hash32 + Copy>(
    pool: &mut Pool<H>,
    trees: &mut Trees<H>,
    change: Option<Change<'_>>,
) -> Result<(), NoMemory>
    requires { pool.old.hash ≡ trees.old.hash }
    ensures done { OnOk result (forest_now pool.new trees.new
        ≡ changed (option_map put_of_change change.entry) (forest_now pool.old trees.old)) }
    ensures pool_hash { pool.new.hash ≡ pool.old.hash }
    ensures trees_hash { trees.new.hash ≡ trees.old.hash }
{
    match change {
        Some(Change::Put(coin, leaf)) => {
            pool.put(coin, leaf)?;
            pool.keep();
        }
        Some(Change::Seal) => {
            pool.undo()?;
            trees.make_room()?;
            let tree = pool.take(trees.defaults())?;
            trees.push(tree);
        }
        None => {}
    }
    Ok(())
}

// The pool and the trees that records leave behind the identity, of a chain with that tag.
fn rebuild<H: Hash32 + Copy>(
    alloc: Global,
    h: H,
    tag: Option<[u8; 32]>,
    records: &[Bytes],
) -> Result<(Pool<H>, Trees<H>), NoMemory>
    ensures forest { IfOk result (λ both.
        forest_now both.0 both.1 ≡ forest_of (notes_among (unwrap_or tag []) records.now)) }
    ensures pool_hash { IfOk result (λ both. both.0.hash ≡ h) }
    ensures trees_hash { IfOk result (λ both. both.1.hash ≡ h) }
{
    let mut pool = Pool::new(alloc, h);
    let mut trees = Trees::new(alloc, h)?;
    'records: for record in records {
        apply(&mut pool, &mut trees, change_in(tag, record.as_slice()))?;
    }
    Ok((pool, trees))
}

// Whose records they are.
#[tactic(auto, unfolding(operator_rules::specs::Records::who_is))]
fn who_is(records: &[Bytes]) -> Who
    requires { are_of operator_kinds records.now ≡ true }
    ensures { identity_of_who result ≡ who_is records.now }
{
    let Some(identity) = records.first() else {
        unreachable!()
    };
    let Some(who) = identity_in(identity.as_slice()) else {
        unreachable!()
    };
    who
}

/// The place of the gate of the first record that is longer than those of a journal, if there is one. A disk
/// that tells what it holds never gives one; of another disk nothing that is known of its records says so.
pub fn long_record(records: &[Bytes]) -> Option<u64>
    ensures none { result ≡ None → FitJournal records.now }
    ensures some { IfSome result (λ place. FitJournal records.now → ⊥) }
{
    let mut place = 4u64;
    'records: for record in records {
        if record.len() > MOST_BYTES {
            return Some(place);
        }
        place = place.saturating_add(5 + record.len() as u64);
    }
    None
}

/// What records of the role leave: whose they are, the pool and the trees.
pub fn read_records<H: Hash32 + Copy>(
    alloc: Global,
    h: H,
    records: &[Bytes],
) -> Result<(Who, Pool<H>, Trees<H>), NoMemory>
    requires role { are_of operator_kinds records.now ≡ true }
    requires fits { FitJournal records.now }
    ensures { IfOk result (λ read. IsRight h records.now read.0 read.1 read.2) }
{
    let who = who_is(records);
    let (pool, trees) = rebuild(alloc, h, Some(who.tag), notes_in(records))?;
    Ok((who, pool, trees))
}

// The records behind the identity.
fn notes_in(records: &[Bytes]) -> &[Bytes]
    ensures { result.now ≡ drop 1 records.now }
{
    match records.split_first() {
        Some((_, notes)) => notes,
        None => records,
    }
}
