ghost use Rattle.std.specs.Prelude.{◌≡◌, true};
ghost use Rattle.lms_sign.specs.Types.{is_supported};

use crash_disk::MemDisk;
use leaf_journal::Leaves;
use lms_sign::{LmsTypes, SecretKey};
use operator_core::Operator;
use plasma_base::{NoMemory, Sha};
use plasma_tx::Owner;
use std::alloc::Global;
use std::test::Fail;
use wallet_node::{Identity, WalletKey, WalletNode};
use watcher_node::WatcherNode;

const TAG: [u8; 32] = [1; 32];

// The disks of the notes and of the leaves.
type Disks = (MemDisk, MemDisk);

fn bare(alloc: Global) -> MemDisk {
    MemDisk::make(alloc, Vec::new(alloc), Vec::new(alloc))
}

// An operator with a key is begun.
fn operator_disks(alloc: Global) -> Result<Disks, Fail> {
    let (notes, leaves, answer) = Operator::init_with_key(
        alloc,
        bare(alloc),
        bare(alloc),
        TAG,
        9,
        [4; 32],
    );
    match answer {
        Ok(()) => Ok((notes, leaves)),
        Err(why) => Err(why.into()),
    }
}

// It is opened: its account and the seed of its key.
fn operator(alloc: Global) -> Result<(u64, Option<[u8; 32]>), Fail> {
    let (notes, _) = operator_disks(alloc)?;
    match Operator::open(alloc, notes) {
        Ok(node) => {
            let said = (node.account(), node.key_seed());
            let _ = node.take_disk();
            Ok(said)
        }
        Err(returned) => Err(returned.why.into()),
    }
}

// The leaves of a key.
fn opened_leaves(alloc: Global, disk: MemDisk, key: &SecretKey) -> Result<Leaves<MemDisk>, Fail> {
    match Leaves::open(alloc, disk, key) {
        Ok(leaves) => Ok(leaves),
        Err(returned) => Err(returned.why.into()),
    }
}

// Whether the first leaf is bound to a message, by this key.
fn binds(leaves: &mut Leaves<MemDisk>, key: &SecretKey) -> bool {
    match leaves.bind(&[6; 116]) {
        Ok(bound) => *bound.key() == key.public() && bound.leaf() == 0,
        Err(_) => false,
    }
}

// The leaves of an operator are opened, with this key.
fn leaves(alloc: Global, key: &SecretKey) -> Result<bool, Fail> {
    let (_, disk) = operator_disks(alloc)?;
    let mut leaves = opened_leaves(alloc, disk, key)?;
    Ok(binds(&mut leaves, key))
}

// The wallet of account 11 whose key has this seed.
fn who(seed: u8) -> Identity
    ensures { is_supported result.types ≡ true }
{
    Identity {
        tag: TAG,
        account: 11,
        seed: [seed; 32],
        types: LmsTypes { lms: 5, ots: 3 },
    }
}

fn wallet_disks(alloc: Global) -> Result<Disks, Fail> {
    let (notes, leaves, answer) = WalletNode::init(alloc, bare(alloc), bare(alloc), &who(7));
    match answer {
        Ok(()) => Ok((notes, leaves)),
        Err(why) => Err(why.into()),
    }
}

// The key of a wallet.
fn key(alloc: Global, seed: u8) -> Result<WalletKey, NoMemory> {
    WalletKey::make(alloc, &who(seed))
}

// The wallet is opened with the key of another at hand.
fn with_another(alloc: Global, other: WalletKey) -> Result<Owner, Fail> {
    let (notes, leaves) = wallet_disks(alloc)?;
    match WalletNode::open_keyed(alloc, notes, leaves, Sha, Some(other)) {
        Ok(node) => {
            let owner = node.owner();
            let _ = node.take_disks();
            Ok(owner)
        }
        Err(returned) => Err(returned.why.into()),
    }
}

// It is opened without a key.
fn without(alloc: Global) -> Result<Owner, Fail> {
    let (notes, leaves) = wallet_disks(alloc)?;
    match WalletNode::open(alloc, notes, leaves) {
        Ok(node) => {
            let owner = node.owner();
            let _ = node.take_disks();
            Ok(owner)
        }
        Err(returned) => Err(returned.why.into()),
    }
}

fn watcher_disk(alloc: Global) -> Result<MemDisk, Fail> {
    let (disk, answer) = WatcherNode::init(alloc, bare(alloc), TAG, 14);
    match answer {
        Ok(()) => Ok(disk),
        Err(why) => Err(why.into()),
    }
}

// A watcher is opened: its tag, where it is open.
fn watcher(alloc: Global) -> Result<Option<[u8; 32]>, Fail> {
    match WatcherNode::open(alloc, watcher_disk(alloc)?) {
        Ok(node) => {
            let said = (!node.is_closed()).then_some(node.tag());
            let _ = node.take_disk();
            Ok(said)
        }
        Err(returned) => Err(returned.why.into()),
    }
}

#[test]
fn nodes_are_opened(rt: HostRuntime) -> Result<(), Fail> {
    let alloc = rt.alloc();
    assert!(rt; operator(alloc)? == (9, Some([4; 32])));
    let other = key(alloc, 8)?;
    let key = other.secret_key().public();
    assert!(rt; leaves(alloc, other.secret_key())?);
    let owner = without(alloc)?;
    assert!(rt; owner.account == 11 && owner.key != key);
    assert!(rt; with_another(alloc, other)? == owner);
    assert!(rt; watcher(alloc)? == Some(TAG));
    Ok(())
}
