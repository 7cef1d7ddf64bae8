ghost use Rattle.std.specs.Prelude.{◌≡◌, ◌≢◌, true, false, [], None, Some, Err, is_ok};
ghost use Rattle.plasma_base.specs.Causes.{faults_after};
ghost use Rattle.gate_journal.specs.declared.refusal.InitRefusal.{InitRefusal};
ghost use Rattle.lms_sign.specs.Types.{is_supported};
ghost use Rattle.node_rules.specs.Watcher.{identity_text as watcher_text};
ghost use Rattle.node_rules.specs.WalletRecords.{identity_text as wallet_text};
ghost use Rattle.operator_rules.specs.Records.{identity_text as operator_text};
ghost use Rattle.run_endings.specs.Statuses.{is_write_fault};
ghost use Rattle.run_endings.specs.Outputs.{EndsAs};
ghost use Rattle.run_endings.specs.Texts.{already_made_text};
ghost use Rattle.run_endings.specs.Faults.{Counts, CountsEither};
ghost use Rattle.node_runs.specs.Endings.{init_output, refused_init};
ghost use Rattle.node_runs.specs.Inits.{InitsNotes, InitsPair, RefusesNotes, RefusesPair};

use crash_disk::Disk;
use gate_journal::InitRefusal;
use node_rules::WalletIdentity;
use operator_core::Operator;
use plasma_outside::Sink;
use run_endings::{Status, push_already_made, put_line};
use std::alloc::Global;
use wallet_node::WalletNode;
use watcher_node::WatcherNode;

// Puts that a disk which is to be begun has so many bytes.
fn put_already_made<K: Sink>(alloc: Global, sink: &mut K, length: u64) -> Status
    ensures ends { EndsAs (record { status = Status.AlreadyMade; answers = []; last = already_made_text length }) result
        (K.taken sink.old) (K.taken sink.new) ⊥ }
    ensures no_read_fault { result ≢ Status.ReadFault }
    ensures sink_faults { K.faults sink.new ≡ faults_after (K.faults sink.old) (is_write_fault result) }
{
    let mut text = Vec::new(alloc);
    match push_already_made(&mut text, length) {
        Ok(()) => put_line(sink, &text, Status::AlreadyMade),
        Err(_) => Status::NoMemory,
    }
}

// Puts why an init was refused; for want of memory it says nothing.
fn put_refusal<K: Sink>(alloc: Global, sink: &mut K, why: InitRefusal) -> Status
    ensures ends { EndsAs (refused_init why) result (K.taken sink.old) (K.taken sink.new) ⊥ }
    ensures memory { why ≡ InitRefusal.DeviceFault → result ≡ Status.NoMemory → K.takes_memory ≡ true }
    ensures no_read_fault { result ≢ Status.ReadFault }
    ensures sink_faults { K.faults sink.new ≡ faults_after (K.faults sink.old) (is_write_fault result) }
{
    match why {
        InitRefusal::AlreadyMade { length } => put_already_made(alloc, sink, length),
        InitRefusal::DeviceFault => put_line(sink, b"device fault\n", Status::DeviceFault),
        InitRefusal::NoMemory => Status::NoMemory,
    }
}

/// Puts what an init was answered, with which its run ends: `made`, or why it was refused.
pub fn put_init_answer<K: Sink>(
    alloc: Global,
    sink: &mut K,
    answer: Result<(), InitRefusal>,
) -> Status
    ensures ends { EndsAs (init_output answer) result (K.taken sink.old) (K.taken sink.new) ⊥ }
    ensures memory { answer ≡ Err InitRefusal.DeviceFault → result ≡ Status.NoMemory → K.takes_memory ≡ true }
    ensures made { is_ok answer ≡ true → result ≡ Status.NoMemory → K.takes_memory ≡ true }
    ensures no_read_fault { result ≢ Status.ReadFault }
    ensures sink_faults { K.faults sink.new ≡ faults_after (K.faults sink.old) (is_write_fault result) }
{
    match answer {
        Ok(()) => put_line(sink, b"made\n", Status::Done),
        Err(why) => put_refusal(alloc, sink, why),
    }
}

/// Begins a watcher with this account, of the chain with this tag, on a disk, says so, and hands the disk back beside
/// the run's status. Each image that a crash may leave then spells its identity alone.
pub fn init_watcher<D: Disk, K: Sink>(
    alloc: Global,
    sink: &mut K,
    notes: D,
    tag: [u8; 32],
    account: u64,
) -> (D, Status)
    ensures inits { InitsNotes D.told D.plan D.faults (K.taken sink.old) (K.taken sink.new) result.1
        (watcher_text (record { tag = tag; account = account })) notes result.0 }
    ensures memory { K.takes_memory ≡ false → result.1 ≡ Status.NoMemory
        → Counts D.faults notes result.0 false }
    ensures unmade { K.takes_memory ≡ false → result.1 ≡ Status.NoMemory → RefusesNotes D.told D.plan
        (watcher_text (record { tag = tag; account = account })) notes result.0 }
    ensures no_read_fault { result.1 ≢ Status.ReadFault }
    ensures sink_faults { K.faults sink.new ≡ faults_after (K.faults sink.old) (is_write_fault result.1) }
{
    let (notes, answer) = WatcherNode::init(alloc, notes, tag, account);
    let status = put_init_answer(alloc, sink, answer);
    (notes, status)
}

/// Begins an operator without a key, with this account, of the chain with this tag, as `init_watcher` does a watcher.
pub fn init_operator<D: Disk, K: Sink>(
    alloc: Global,
    sink: &mut K,
    notes: D,
    tag: [u8; 32],
    account: u64,
) -> (D, Status)
    ensures inits { InitsNotes D.told D.plan D.faults (K.taken sink.old) (K.taken sink.new) result.1
        (operator_text (record { tag = tag; account = account; key_seed = None })) notes result.0 }
    ensures memory { K.takes_memory ≡ false → result.1 ≡ Status.NoMemory
        → Counts D.faults notes result.0 false }
    ensures unmade { K.takes_memory ≡ false → result.1 ≡ Status.NoMemory → RefusesNotes D.told D.plan
        (operator_text (record { tag = tag; account = account; key_seed = None })) notes result.0 }
    ensures no_read_fault { result.1 ≢ Status.ReadFault }
    ensures sink_faults { K.faults sink.new ≡ faults_after (K.faults sink.old) (is_write_fault result.1) }
{
    let (notes, answer) = Operator::init(alloc, notes, tag, account);
    let status = put_init_answer(alloc, sink, answer);
    (notes, status)
}

/// Begins a wallet of this identity on two disks, says so, and hands the notes and the leaves back beside the run's
/// status. Each image that a crash may leave of the notes then spells the identity alone, and of the leaves no record.
pub fn init_wallet<D: Disk, K: Sink>(
    alloc: Global,
    sink: &mut K,
    notes: D,
    leaves: D,
    who: &WalletIdentity,
) -> (D, D, Status)
    requires { is_supported who.now.types ≡ true }
    ensures inits { InitsPair D.told D.plan D.faults (K.taken sink.old) (K.taken sink.new) result.2
        (wallet_text who.now) notes leaves result.0 result.1 }
    ensures memory { K.takes_memory ≡ false → result.2 ≡ Status.NoMemory
        → CountsEither D.faults notes leaves result.0 result.1 false }
    ensures unmade { K.takes_memory ≡ false → result.2 ≡ Status.NoMemory → RefusesPair D.told D.plan D.faults
        (wallet_text who.now) notes leaves result.0 result.1 }
    ensures no_read_fault { result.2 ≢ Status.ReadFault }
    ensures sink_faults { K.faults sink.new ≡ faults_after (K.faults sink.old) (is_write_fault result.2) }
{
    let (notes, leaves, answer) = WalletNode::init(alloc, notes, leaves, who);
    let status = put_init_answer(alloc, sink, answer);
    (notes, leaves, status)
}

/// Begins an operator with this account, of the chain with this tag, and a key that is made of this seed, on two disks,
/// as `init_wallet` does a wallet.
pub fn init_operator_with_key<D: Disk, K: Sink>(
    alloc: Global,
    sink: &mut K,
    notes: D,
    leaves: D,
    tag: [u8; 32],
    account: u64,
    seed: [u8; 32],
) -> (D, D, Status)
    ensures inits { InitsPair D.told D.plan D.faults (K.taken sink.old) (K.taken sink.new) result.2
        (operator_text (record { tag = tag; account = account; key_seed = Some seed }))
        notes leaves result.0 result.1 }
    ensures memory { K.takes_memory ≡ false → result.2 ≡ Status.NoMemory
        → CountsEither D.faults notes leaves result.0 result.1 false }
    ensures unmade { K.takes_memory ≡ false → result.2 ≡ Status.NoMemory → RefusesPair D.told D.plan D.faults
        (operator_text (record { tag = tag; account = account; key_seed = Some seed }))
        notes leaves result.0 result.1 }
    ensures no_read_fault { result.2 ≢ Status.ReadFault }
    ensures sink_faults { K.faults sink.new ≡ faults_after (K.faults sink.old) (is_write_fault result.2) }
{
    let (notes, leaves, answer) = Operator::init_with_key(alloc, notes, leaves, tag, account, seed);
    let status = put_init_answer(alloc, sink, answer);
    (notes, leaves, status)
}
