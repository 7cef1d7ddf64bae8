ghost use Rattle.std.specs.Prelude.{◌≡◌, false, IfOk, OnErr};
ghost use Rattle.lms_sign.specs.Tree.{public_key_of};
ghost use Rattle.leaf_journal.specs.Records.{is_marked};
ghost use Rattle.plasma_tx.specs.Views.{blocks};
ghost use Rattle.receipt_audit.specs.Desk.{issue_effect};
ghost use Rattle.node_answers.specs.Answers.{IsSaid};
ghost use Rattle.node_answers.specs.Desks.{desk_outcome, desk_records, issue_outcome, migration_outcome, secret_of};
ghost use Rattle.node_answers.specs.Doing.{DidDesk, DidNotes};

use super::operator::answer_order;
use super::receipts::{issue_cause, stop_of, words_of};
use super::said::{put_words, refused};
use crash_disk::Disk;
use leaf_journal::MigrateRefusal;
use lms_sign::SecretKey;
use node_journal::Stop;
use node_lines::OperatorLine;
use node_sessions::Said;
use operator_core::Operator;
use plasma_base::Hash32;
use plasma_tx::RootLog;
use receipt_audit::Desk;
use std::alloc::Global;

/// An operator with a key: its notes and its desk, each over a disk, the key of the desk, and the operator's digest.
#[derive(Drop)]
pub struct KeyedOperator<D: Disk, H: Hash32 + Copy> {
    pub node: Operator<D, H>,
    pub desk: Desk<D>,
    pub key: SecretKey,
    pub hash: H,
}

// Issues a receipt, and puts it.
fn answer_receipt<D: Disk, H: Hash32 + Copy>(
    alloc: Global,
    keyed: &mut KeyedOperator<D, H>,
    log: &RootLog,
    transfer: &[u8],
    due: u64,
    text: &mut Vec<u8>,
) -> Result<Said, Stop>
    requires open { keyed.old.node.notes.closed ≡ false }
    requires key { public_key_of keyed.old.key ≡ keyed.old.desk.key }
    ensures said { IfOk result (λ said. IsSaid (issue_outcome (blocks log.now.log) due (issue_effect
        (H.digest_of keyed.old.hash) (H.digest_of keyed.old.node.hash) keyed.old.key keyed.old.node.notes.records
        keyed.old.desk.notes.records log.now.log transfer.now due)).says said text.old.items text.new.items) }
    ensures did { DidDesk D.told D.plan D.faults (issue_effect
        (H.digest_of keyed.old.hash) (H.digest_of keyed.old.node.hash) keyed.old.key keyed.old.node.notes.records
        keyed.old.desk.notes.records log.now.log transfer.now due).note (issue_effect
        (H.digest_of keyed.old.hash) (H.digest_of keyed.old.node.hash) keyed.old.key keyed.old.node.notes.records
        keyed.old.desk.notes.records log.now.log transfer.now due).leaf keyed.old.node.notes keyed.old.desk.notes result
        keyed.new.node.notes keyed.new.desk.notes }
    ensures untold { OnErr result (text.new.items ≡ text.old.items) }
    ensures key_stays { keyed.new.key ≡ keyed.old.key }
    ensures desk_stays { keyed.new.desk.key ≡ keyed.old.desk.key }
    ensures hash_stays { keyed.new.hash ≡ keyed.old.hash }
    ensures digest_stays { keyed.new.node.hash ≡ keyed.old.node.hash }
{
    let blocks = log.blocks();
    let issued = keyed.desk.issue(keyed.hash, &keyed.key, &mut keyed.node, log, transfer, due);
    match issued {
        Ok(receipt) => Ok(put_words(words_of(alloc, blocks, due, &receipt)?, text)?),
        Err(why) => match stop_of(&why) {
            Some(stop) => Err(stop),
            None => Ok(Said::Refused {
                cause: issue_cause(alloc, &why)?,
            }),
        },
    }
}

// Puts the marker into the desk's journal, and says so.
fn answer_migrate<D: Disk>(
    alloc: Global,
    desk: &mut Desk<D>,
    text: &mut Vec<u8>,
) -> Result<Said, Stop>
    ensures said { IfOk result (λ said.
        IsSaid (migration_outcome (is_marked desk.old.notes.records)).says said text.old.items text.new.items) }
    ensures did { DidNotes D.told D.plan D.faults (migration_outcome (is_marked desk.old.notes.records)).leaf
        desk.old.notes result desk.new.notes }
    ensures untold { OnErr result (text.new.items ≡ text.old.items) }
    ensures key { desk.new.key ≡ desk.old.key }
{
    match desk.migrate() {
        Ok(()) => {
            let mut words = Vec::new(alloc);
            words.extend_from_slice(b"migrated")?;
            Ok(put_words(words, text)?)
        }
        Err(MigrateRefusal::AlreadyNew) => Ok(refused(alloc, b"already-new")?),
        Err(MigrateRefusal::DeviceFault) => Err(Stop::DeviceFault),
        Err(MigrateRefusal::Closed) => Err(Stop::Closed),
    }
}

/// Answers a command of an operator with a key, which no fault closed and whose desk none closed, behind this log, into
/// the text. The key is that of the operator's identity and of the desk, and the digest the operator's. A refusal is no
/// answer: its cause is given out. Where the command is stopped, by want of memory or a device fault, the text stays;
/// where memory ran out the command may have been done before.
#[tactic(auto, unfolding(crate::specs::Desks::desk_outcome))]
pub fn answer_keyed<D: Disk, H: Hash32 + Copy>(
    alloc: Global,
    keyed: &mut KeyedOperator<D, H>,
    log: &RootLog,
    line: OperatorLine,
    text: &mut Vec<u8>,
) -> Result<Said, Stop>
    requires open { keyed.old.node.notes.closed ≡ false }
    requires desk_open { keyed.old.desk.notes.closed ≡ false }
    requires secret { keyed.old.key ≡ secret_of keyed.old.node.notes.records }
    requires key { public_key_of keyed.old.key ≡ keyed.old.desk.key }
    requires hash { keyed.old.hash ≡ keyed.old.node.hash }
    ensures said { IfOk result (λ said. IsSaid (desk_outcome (H.digest_of keyed.old.node.hash) log.now.log
        (desk_records keyed.old.node.notes.records keyed.old.desk.notes.records) line).says said text.old.items
        text.new.items) }
    ensures did { DidDesk D.told D.plan D.faults
        (desk_outcome (H.digest_of keyed.old.node.hash) log.now.log
        (desk_records keyed.old.node.notes.records keyed.old.desk.notes.records) line).note
        (desk_outcome (H.digest_of keyed.old.node.hash) log.now.log
        (desk_records keyed.old.node.notes.records keyed.old.desk.notes.records) line).leaf
        keyed.old.node.notes keyed.old.desk.notes result keyed.new.node.notes keyed.new.desk.notes }
    ensures untold { OnErr result (text.new.items ≡ text.old.items) }
    ensures key_stays { keyed.new.key ≡ keyed.old.key }
    ensures desk_stays { keyed.new.desk.key ≡ keyed.old.desk.key }
    ensures hash_stays { keyed.new.hash ≡ keyed.old.hash }
    ensures digest_stays { keyed.new.node.hash ≡ keyed.old.node.hash }
{
    match line {
        OperatorLine::Order { order } => { answer_order(alloc, &mut keyed.node, log, &order, text) }
        OperatorLine::Receipt { transfer, due } => {
            answer_receipt(alloc, keyed, log, transfer.as_slice(), due, text)
        }
        OperatorLine::Migrate => answer_migrate(alloc, &mut keyed.desk, text),
    }
}
