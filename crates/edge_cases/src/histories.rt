use coin_history::{Bundle, check};
use lms_sign::{LmsTypes, PublicKey, SecretKey, sign};
use plasma_base::{Bytes, NoMemory, Toy};
use plasma_tx::{Body, Links, Owner, RawOpening, RootCall, RootLog, SignedTx};
use sparse_merkle::Tree;
use std::alloc::Global;
use std::test::Fail;
use trace_exhibits::forges;
use watch_duty::{Guard, duty};

const TAG: [u8; 32] = [1; 32];

// The transfer of coin 1 in block 2, which spends its deposit in block 1.
const BODY: Body = Body {
    tag: TAG,
    coin: 1,
    parent: 1,
    to: Owner {
        account: 12,
        key: [8; 56],
    },
    last: None,
};

// A coin that was paid: who deposited it, and the bytes of the signed transfer, 2464 of them.
#[derive(Drop)]
struct Paid {
    from: Owner,
    leaf: Vec<u8>,
}

fn signature(alloc: Global, key: &SecretKey) -> Result<Bytes, NoMemory> {
    let mut signature = vec![in alloc; 0; key.signature_len()]?;
    sign(key, 0, BODY.write().as_slice(), &mut signature);
    Ok(Bytes::from_vec(signature))
}

fn signed(alloc: Global, key: &SecretKey) -> Result<Vec<u8>, NoMemory> {
    let tx = SignedTx {
        body: BODY,
        signature: signature(alloc, key)?,
    };
    let mut leaf = Vec::new(alloc);
    tx.write(&mut leaf)?;
    Ok(leaf)
}

fn make_paid(alloc: Global) -> Result<Paid, NoMemory> {
    let key = SecretKey::make(alloc, LmsTypes { lms: 5, ots: 3 }, [2; 16], [3; 32])?;
    let from = Owner {
        account: 11,
        key: key.public(),
    };
    Ok(Paid {
        from,
        leaf: signed(alloc, &key)?,
    })
}

// The tree of block 2.
fn tree(alloc: Global, paid: &Paid) -> Result<Tree, NoMemory> {
    let mut tree = Tree::new(alloc);
    tree.put(1, &paid.leaf)?;
    Ok(tree)
}

// What shows the transfer in block 2: the leaf behind its length, and a proof without a sibling.
fn opening(alloc: Global, paid: &Paid) -> Result<RawOpening, NoMemory> {
    let mut bytes = Vec::from_slice(alloc, b"\0\0\x09\xa0")?;
    bytes.extend_from_slice(&paid.leaf)?;
    tree(alloc, paid)?.prove(&Toy, 1)?.write(&mut bytes)?;
    Ok(RawOpening {
        block: 2,
        bytes: Bytes::from_vec(bytes),
    })
}

// The deposit, the block of the transfer, and an exit of the deposit all the same.
fn log(alloc: Global, paid: &Paid) -> Result<RootLog, NoMemory> {
    let mut log = RootLog::make(alloc, TAG, 9, 100);
    log.push(RootCall::Deposit {
        account: 11,
        amount: 1,
        key: paid.from.key,
    })?;
    log.push(RootCall::Commit {
        account: 9,
        root: tree(alloc, paid)?.root(&Toy),
    })?;
    log.push(RootCall::StartDeposit {
        account: 11,
        coin: 1,
        block: 1,
    })?;
    Ok(log)
}

// The coin, the tip, the number of openings, and the block and the length of the one.
const FRONT: &[u8] = b"\0\0\0\0\0\0\0\x01\0\0\0\0\0\0\0\x02\0\0\0\x01\
    \0\0\0\0\0\0\0\x02\0\0\x09\xac";

fn bundle_bytes(alloc: Global, paid: &Paid) -> Result<Vec<u8>, NoMemory> {
    let mut bytes = Vec::from_slice(alloc, FRONT)?;
    bytes.extend_from_slice(opening(alloc, paid)?.bytes.as_slice())?;
    Ok(bytes)
}

fn links(alloc: Global, paid: &Paid) -> Result<Links, Fail> {
    let bundle = Bundle::read(alloc, &bundle_bytes(alloc, paid)?)?.copy()?;
    Ok(check(alloc, &Toy, &log(alloc, paid)?, &bundle)?)
}

// The tip, the last owner and the number of spends.
fn checked(alloc: Global, paid: &Paid) -> Result<(u64, Owner, usize), Fail> {
    let links = links(alloc, paid)?.copy()?;
    let count = links.spends.as_slice().len();
    Ok((links.tip(), links.last_owner(), count))
}

// Whether the spend of the exit's block is all that is due for a guard of account 14.
fn is_due(alloc: Global, paid: &Paid) -> Result<bool, Fail> {
    let guard = Guard {
        links: links(alloc, paid)?,
    };
    let calls = duty(alloc, &log(alloc, paid)?, 14, &[guard])?;
    Ok(matches!(
        calls.as_slice(),
        [RootCall::After {
            account: 14,
            coin: 1,
            exit: 1,
            spend: _,
        }]
    ))
}

// Whether one exit stands, that of the deposit.
fn is_standing(alloc: Global, paid: &Paid) -> Result<bool, NoMemory> {
    let exits = log(alloc, paid)?.standing(1)?;
    match exits.as_slice() {
        [exit] => Ok(exit.block == 1 && exit.parent == 0 && exit.account == 11),
        _ => Ok(false),
    }
}

// Whether the opening reads, with that leaf.
fn is_opened(alloc: Global, paid: &Paid) -> Result<bool, Fail> {
    let opened = opening(alloc, paid)?.open_up(&Toy)?;
    Ok(opened.leaf.as_slice() == paid.leaf.as_slice())
}

// Whether the opening shows a forgery, where the owner bound these bodies.
fn is_forged(alloc: Global, paid: &Paid, bodies: &[Body]) -> Result<bool, NoMemory> {
    forges(alloc, &TAG, 1, &paid.from, bodies, &opening(alloc, paid)?)
}

// Whether the key has its own bytes.
fn is_read(key: &[u8; 56]) -> Result<bool, Fail> {
    Ok(PublicKey::read(key)?.as_bytes() == key)
}

#[test]
fn a_history_is_checked_and_guarded(rt: HostRuntime) -> Result<(), Fail> {
    let alloc = rt.alloc();
    let paid = make_paid(alloc)?;
    assert!(rt; is_read(&paid.from.key)?);
    assert!(rt; is_opened(alloc, &paid)?);
    assert!(rt; checked(alloc, &paid)? == (2, BODY.to, 1));
    assert!(rt; is_standing(alloc, &paid)?);
    assert!(rt; is_due(alloc, &paid)?);
    assert!(rt; is_forged(alloc, &paid, &[])? && !is_forged(alloc, &paid, &[BODY])?);
    Ok(())
}
