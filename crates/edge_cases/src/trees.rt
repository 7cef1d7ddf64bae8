ghost use Rattle.plasma_base.specs.DigestBytes.{small-toy_digest};
ghost use Rattle.plasma_base.specs.Toy.{toy_digest, length-toy_digest};

use super::texts::is_hex;
use merkle_pages::PagedTree;
use plasma_base::{Hash32, NoMemory, Sha, Toy};
use sparse_merkle::{Proof, ProofRefusal, Tree, clash, opens};
use std::alloc::Global;
use std::cell::Cell;
use std::test::Fail;

// The string of a node over two digests 2 ^ 61 - 2.
const TOP: &[u8] = b"\x02\
    \0\0\0\0\0\0\0\0\0\0\0\0\0\0\0\0\0\0\0\0\0\0\0\0\x1f\xff\xff\xff\xff\xff\xff\xfe\
    \0\0\0\0\0\0\0\0\0\0\0\0\0\0\0\0\0\0\0\0\0\0\0\0\x1f\xff\xff\xff\xff\xff\xff\xfe";

// The proof with one sibling, at level 0, that makes up for the digest of the leaf `x`.
const BESIDE: &[u8] = b"\0\0\0\0\0\0\0\x01\
    \0\0\0\0\0\0\0\0\0\0\0\0\0\0\0\0\0\0\0\0\0\0\0\0\x1f\xff\xff\xff\xff\xff\xfe\x87";

// The lengths of two strings that clash where the empty tree's root opens to a leaf at coin 7; none where it doesn't.
fn lengths(
    alloc: Global,
    root: &[u8; 32],
    absence: &Proof,
    leaf: &[u8],
    proof: &Proof,
) -> Result<Option<(usize, usize)>, NoMemory> {
    if leaf.is_empty()
        || !opens(&Toy, root, 7, &[], absence)
        || !opens(&Toy, root, 7, leaf, proof)
    {
        return Ok(None);
    }
    let (one, other) = clash(alloc, &Toy, root, 7, &[], absence, leaf, proof)?;
    if one.as_slice() == other.as_slice() || Toy.digest(&one) != Toy.digest(&other) {
        return Ok(None);
    }
    Ok(Some((one.len(), other.len())))
}

// The same of a leaf and the bytes of a proof.
fn clashing(alloc: Global, leaf: &[u8], proof: &[u8]) -> Result<Option<(usize, usize)>, Fail> {
    let tree = Tree::new(alloc);
    let absence = tree.prove(&Toy, 7)?;
    let proof = Proof::read(alloc, &Toy, proof)?;
    Ok(lengths(alloc, &tree.root(&Toy), &absence, leaf, &proof)?)
}

// Why bytes are no proof.
fn refusal(alloc: Global, bytes: &[u8]) -> Option<ProofRefusal> {
    Proof::read(alloc, &Sha, bytes).err()
}

// Whether the root of the empty tree is that of an independent program over SHA-256.
fn has_its_root(alloc: Global) -> Result<bool, NoMemory> {
    let root = Tree::new(alloc).root(&Sha);
    is_hex(
        alloc,
        &root,
        "0x89a243cd764ed7bd5f21717f42526a14d6df5fcb6ca8f047d0dba499f7bec59e",
    )
}

// The toy digest's default of level i is 2 ^ (i + 1) - 2 modulo 2 ^ 61 - 1. So the strings of levels 0 and 61 of an
// absence in an empty tree have one digest, 0, and so has the string of each leaf whose groups add up to 2 ^ 61 - 2.
// Such a leaf opens the empty tree by the proof of absence. Any leaf opens it beside a sibling that makes up for its
// digest.
#[test]
fn clashes(rt: HostRuntime) -> Result<(), Fail> {
    let alloc = rt.alloc();
    assert!(rt; has_its_root(alloc)?);
    assert!(rt; refusal(alloc, &[0; 9]) == Some(ProofRefusal::BadLength));
    assert!(rt; Toy.digest(TOP) == Toy.digest(&[0]));
    let found = clashing(alloc, b"\x1f\xff\xff\xff\xff\xff\xff\xfe", &[0; 8])?;
    assert!(rt; found == Some((1, 9)));
    assert!(rt; clashing(alloc, b"x", BESIDE)? == Some((65, 65)));
    Ok(())
}

// The toy digest, which counts its calls.
#[derive(Drop)]
struct Counted {
    calls: Cell<u64>,
}

impl Counted {
    fn count(&self) {
        self.calls.set(self.calls.get().wrapping_add(1));
    }

    // The calls since it was asked last.
    fn taken(&self) -> u64 {
        self.calls.replace(0)
    }
}

impl Hash32 for Counted {
    ghost digest_of = { λ _ bytes. toy_digest bytes };

    ghost length_is = { λ _ bytes. length-toy_digest bytes };

    ghost bytes_are = { λ _ bytes. (small-toy_digest bytes).are };

    fn digest(&self, bytes: &[u8]) -> [u8; 32] {
        self.count();
        Toy.digest(bytes)
    }

    fn digest_two(&self, first: &[u8], second: &[u8]) -> [u8; 32] {
        self.count();
        Toy.digest_two(first, second)
    }

    fn is_sha256(&self) -> bool {
        false
    }
}

// The digests of making a tree, of putting three leaves, of removing one and of removing none.
fn digests_of_puts(alloc: Global) -> Result<[u64; 6], NoMemory> {
    let counted = Counted {
        calls: Cell::new(0),
    };
    let mut tree = PagedTree::new(alloc, &counted);
    let made = counted.taken();
    tree.put(7, b"a")?;
    let first = counted.taken();
    tree.put(6, b"b")?;
    let second = counted.taken();
    tree.put(u64::MAX, b"c")?;
    let third = counted.taken();
    tree.put(7, &[])?;
    let removed = counted.taken();
    tree.put(1, &[])?;
    Ok([made, first, second, third, removed, counted.taken()])
}

// The digests of reading a tree of two leaves, and whether what is read is what the plain tree has.
fn digests_of_reading(alloc: Global) -> Result<(u64, bool), NoMemory> {
    let counted = Counted {
        calls: Cell::new(0),
    };
    let mut tree = PagedTree::new(alloc, &counted);
    let mut plain = Tree::new(alloc);
    for coin in [6, u64::MAX] {
        tree.put(coin, b"b")?;
        plain.put(coin, b"b")?;
    }
    counted.taken();
    let root = *tree.root();
    let top = *tree.node(64, 7);
    let leaf = *tree.node(0, 6);
    let proof = tree.prove(6)?;
    let found = tree.leaf(6) == plain.leaf(6) && tree.leaf(7).is_none();
    let taken = counted.taken();
    let same = root == plain.root(&Toy) && top == root && leaf == Toy.digest(b"\x01b");
    Ok((taken, found && same && opens(&Toy, &root, 6, b"b", &proof)))
}

// A new tree digests the 65 defaults, and a put the 65 nodes of its coin's way. Who reads digests nothing.
#[test]
fn digests_of_a_paged_tree(rt: HostRuntime) -> Result<(), Fail> {
    let alloc = rt.alloc();
    assert!(rt; digests_of_puts(alloc)? == [65; 6]);
    assert!(rt; digests_of_reading(alloc)? == (0, true));
    Ok(())
}
