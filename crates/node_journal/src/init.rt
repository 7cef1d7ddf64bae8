ghost use Rattle.std.specs.Prelude.{◌≡◌, ◌≤◌, [], ◌∷◌, length, IfOk, IfErr, OnOk};
ghost use Rattle.plasma_base.specs.Causes.{faults_after};
ghost use Rattle.crash_disk.specs.Disk.{content};
ghost use Rattle.crash_disk.specs.Calls.{WhereTold};
ghost use Rattle.gate_journal.specs.Image.{most};
ghost use Rattle.gate_journal.specs.Journal.{IsSettled, fresh_journal};
ghost use Rattle.node_journal.specs.Begin.{init_steps, Inits, is_fault_refusal, is_init_fault, BeginsEmpty, RefusesEmpty, PassesPair, RefusesBehindNotes, RefusesBehindLeaves, BeginsPair};
ghost use Rattle.node_journal.specs.Inside.{init_refusal_of, length_found, open_refusal_of, AsksLength, FindsOver, AppendsIdentity, OpensEmpty, RefusesEmptyOver};

use crash_disk::{Disk, DiskFailed};
use gate_journal::{InitRefusal, Journal, JournalRefusal, Returned};
use std::alloc::Global;

// The length of the image of an empty journal.
const EMPTY_LENGTH: u64 = 5;

/// A disk on which no empty journal was made or opened, and why.
#[derive(Drop)]
pub struct NotBegun<D> {
    pub disk: D,
    pub why: InitRefusal,
}

// What a refusal is for an init that stands on an append.
fn init_refusal_of(why: JournalRefusal) -> InitRefusal
    ensures { result ≡ init_refusal_of why }
{
    match why {
        JournalRefusal::DeviceFault => InitRefusal::DeviceFault,
        _ => InitRefusal::NoMemory,
    }
}

// The length of what is there, where a making was refused for that.
fn length_found(why: JournalRefusal) -> Result<u64, InitRefusal>
    ensures { result ≡ length_found why }
{
    match why {
        JournalRefusal::AlreadyMade { length } => Ok(length),
        JournalRefusal::DeviceFault => Err(InitRefusal::DeviceFault),
        _ => Err(InitRefusal::NoMemory),
    }
}

// What an opening's refusal is for an init over an image of this length.
fn open_refusal_of(length: u64, why: JournalRefusal) -> InitRefusal
    ensures { result ≡ open_refusal_of length why }
{
    match why {
        JournalRefusal::NotJournal { .. } => InitRefusal::AlreadyMade { length },
        JournalRefusal::DeviceFault => InitRefusal::DeviceFault,
        _ => InitRefusal::NoMemory,
    }
}

// Makes an empty journal where there is none, and gives the length of the image that was there.
fn find_or_make<D: Disk>(disk: &mut D) -> Result<u64, InitRefusal>
    ensures finds { WhereTold (D.told disk.old) (λ before.
        FindsOver D.told D.plan (content before) disk.old result disk.new) }
    ensures cause { D.faults disk.new ≡ faults_after (D.faults disk.old) (is_init_fault result) }
{
    match Journal::make(disk) {
        Ok(()) => Ok(EMPTY_LENGTH),
        Err(why) => length_found(why),
    }
}

// Opens a journal without records, which syncs it. The image had this length.
fn open_empty<D: Disk>(alloc: Global, disk: D, length: u64) -> Result<Journal<D>, NotBegun<D>>
    ensures opens { IfOk result (OpensEmpty D.told D.plan D.faults disk) }
    ensures refused { IfErr result (λ refused. WhereTold (D.told disk) (λ before.
        RefusesEmptyOver D.told D.plan (content before) length disk refused.why refused.disk)) }
    ensures cause { IfErr result (λ refused.
        D.faults refused.disk ≡ faults_after (D.faults disk) (is_fault_refusal refused.why)) }
{
    let (journal, records) = match Journal::open(alloc, disk) {
        Ok(opened) => opened,
        Err(returned) => {
            let Returned { disk, why } = returned;
            let why = open_refusal_of(length, why);
            return Err(NotBegun { disk, why });
        }
    };
    if records.is_empty() {
        return Ok(journal);
    }
    Err(NotBegun {
        disk: journal.take_disk(),
        why: InitRefusal::AlreadyMade { length },
    })
}

/// Makes an empty journal, or opens one that stands, which syncs it: each image that a crash may leave
/// then spells no record. Device calls: those of `Journal::make` and of `Journal::open`, up to the first
/// that fails or to want of memory. A call that was stopped may be repeated.
///
/// `AlreadyMade` comes where the image spells one or more records, or spells no list of records and has
/// more than five bytes, with its length. It yields to a `DeviceFault` of the same call.
pub fn begin_journal<D: Disk>(alloc: Global, disk: D) -> Result<Journal<D>, NotBegun<D>>
    ensures begins { IfOk result (BeginsEmpty D.told D.plan D.faults disk) }
    ensures refused { IfErr result (λ refused.
        RefusesEmpty D.told D.plan D.faults disk refused.why refused.disk) }
{
    let mut disk = disk;
    match find_or_make(&mut disk) {
        Ok(length) => open_empty(alloc, disk, length),
        Err(why) => Err(NotBegun { disk, why }),
    }
}

// Appends the identity to an empty journal, and hands the disk back.
fn append_identity<D: Disk>(journal: Journal<D>, identity: &[u8]) -> (D, Result<(), InitRefusal>)
    requires fits { length identity.now ≤ most }
    requires fresh { journal ≡ fresh_journal journal.disk [] }
    requires settled { WhereTold (D.told journal.disk) (λ now. IsSettled now []) }
    ensures appends { AppendsIdentity D.told D.plan identity.now journal.disk result.1 result.0 }
    ensures begun { OnOk result.1 (WhereTold (D.told result.0) (λ now. IsSettled now (identity.now ∷ []))) }
    ensures cause { D.faults result.0 ≡ faults_after (D.faults journal.disk) (is_init_fault result.1) }
{
    let mut journal = journal;
    let appended = journal.append(identity);
    let disk = journal.take_disk();
    match appended {
        Ok(()) => (disk, Ok(())),
        Err(why) => (disk, Err(init_refusal_of(why))),
    }
}

/// Begins a node's journal with its identity: as `begin_journal`, and then the identity is appended. At
/// `Ok` each image that a crash may leave spells the identity alone. At most sixteen device calls.
///
/// A call that was stopped may be repeated (`inits_may_be_repeated`, `inits_end_begun`). `AlreadyMade`
/// comes as for `begin_journal`; `DeviceFault` where a device call failed.
pub fn begin<D: Disk>(alloc: Global, disk: D, identity: &[u8]) -> (D, Result<(), InitRefusal>)
    requires { length identity.now ≤ most }
    ensures inits { Inits D.told D.plan (init_steps identity.now) disk result.1 result.0 }
    ensures begun { OnOk result.1 (WhereTold (D.told result.0) (λ now. IsSettled now (identity.now ∷ []))) }
    ensures cause { D.faults result.0 ≡ faults_after (D.faults disk) (is_init_fault result.1) }
{
    match begin_journal(alloc, disk) {
        Ok(journal) => append_identity(journal, identity),
        Err(refused) => {
            let NotBegun { disk, why } = refused;
            (disk, Err(why))
        }
    }
}

// Asks a disk for its length.
fn ask_length<D: Disk>(disk: &mut D) -> Result<u64, InitRefusal>
    ensures length { IfOk result (λ count. WhereTold (D.told disk.new) (λ now. count ≡ length (content now))) }
    ensures asks { AsksLength D.told D.plan disk.old result disk.new }
    ensures cause { D.faults disk.new ≡ faults_after (D.faults disk.old) (is_init_fault result) }
{
    if disk.make_room(1, 0).is_err() {
        return Err(InitRefusal::NoMemory);
    }
    match disk.len() {
        Ok(length) => Ok(length),
        Err(DiskFailed) => Err(InitRefusal::DeviceFault),
    }
}

// Begins a node with a key whose notes have more than five bytes, so that there is nothing to make of them: their
// journal is opened, the leaves' made or opened, and then the identity is appended to the notes.
fn begin_behind_notes<D: Disk, E: Disk>(
    alloc: Global,
    notes: D,
    leaves: E,
    identity: &[u8],
) -> (D, E, Result<(), InitRefusal>)
    requires { length identity.now ≤ most }
    ensures passes { OnOk result.2 (PassesPair D.told D.plan D.faults E.told E.plan E.faults identity.now
        notes leaves result.0 result.1) }
    ensures refused { IfErr result.2 (λ why. RefusesBehindNotes D.told D.plan D.faults E.told E.plan E.faults identity.now
        notes leaves why result.0 result.1) }
    ensures begun { OnOk result.2 (WhereTold (D.told result.0) (λ now. IsSettled now (identity.now ∷ []))) }
    ensures empty { OnOk result.2 (WhereTold (E.told result.1) (λ now. IsSettled now [])) }
{
    let journal = match begin_journal(alloc, notes) {
        Ok(journal) => journal,
        Err(refused) => {
            let NotBegun { disk, why } = refused;
            return (disk, leaves, Err(why));
        }
    };
    let leaves = match begin_journal(alloc, leaves) {
        Ok(leaves) => leaves.take_disk(),
        Err(refused) => {
            let NotBegun { disk, why } = refused;
            return (journal.take_disk(), disk, Err(why));
        }
    };
    let (notes, appended) = append_identity(journal, identity);
    (notes, leaves, appended)
}

// Begins a node with a key whose notes have at most five bytes, so that they aren't taken: the leaves' journal is made
// or opened, and then the notes are begun.
fn begin_behind_leaves<D: Disk, E: Disk>(
    alloc: Global,
    notes: D,
    leaves: E,
    identity: &[u8],
) -> (D, E, Result<(), InitRefusal>)
    requires { length identity.now ≤ most }
    ensures passes { OnOk result.2 (PassesPair D.told D.plan D.faults E.told E.plan E.faults identity.now
        notes leaves result.0 result.1) }
    ensures refused { IfErr result.2 (λ why. RefusesBehindLeaves D.told D.plan D.faults E.told E.plan E.faults
        identity.now notes leaves why result.0 result.1) }
    ensures begun { OnOk result.2 (WhereTold (D.told result.0) (λ now. IsSettled now (identity.now ∷ []))) }
    ensures empty { OnOk result.2 (WhereTold (E.told result.1) (λ now. IsSettled now [])) }
{
    let leaves = match begin_journal(alloc, leaves) {
        Ok(leaves) => leaves.take_disk(),
        Err(refused) => {
            let NotBegun { disk, why } = refused;
            return (notes, disk, Err(why));
        }
    };
    let (notes, answer) = begin(alloc, notes, identity);
    (notes, leaves, answer)
}

/// Begins a node with a key: the journal of its notes and that of its leaves are made, or opened where they
/// stand, and the identity is appended to the notes. At `Ok` each image that a crash may leave of the notes
/// spells the identity alone, and each of the leaves spells no record. At most sixteen device calls on each
/// disk, up to the first that fails or to want of memory.
///
/// `AlreadyMade` comes exactly where an image spells one or more records, or spells no list of records and
/// has more than five bytes. The length is that image's, and the notes' where both are so. Both images stay
/// then (`refused_pairs_stay`). It yields to a `DeviceFault` of the same call, and to want of memory.
///
/// A call that was stopped may be repeated: on the notes' disk it is two events of `inits_may_be_repeated`,
/// first the question for the length; `stopped_preparations` and `prepared_journals_are_empty` are of the
/// leaves' disk. No device call of the append is made before the leaves' journal was made or opened.
pub fn begin_pair<D: Disk, E: Disk>(
    alloc: Global,
    notes: D,
    leaves: E,
    identity: &[u8],
) -> (D, E, Result<(), InitRefusal>)
    requires { length identity.now ≤ most }
    ensures inits { BeginsPair D.told D.plan D.faults E.told E.plan E.faults identity.now
        notes leaves result.2 result.0 result.1 }
    ensures begun { OnOk result.2 (WhereTold (D.told result.0) (λ now. IsSettled now (identity.now ∷ []))) }
    ensures empty { OnOk result.2 (WhereTold (E.told result.1) (λ now. IsSettled now [])) }
{
    let mut notes = notes;
    match ask_length(&mut notes) {
        Ok(length) if length > EMPTY_LENGTH => begin_behind_notes(alloc, notes, leaves, identity),
        Ok(_) => begin_behind_leaves(alloc, notes, leaves, identity),
        Err(why) => (notes, leaves, Err(why)),
    }
}
