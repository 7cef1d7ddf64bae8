ghost use Rattle.std.specs.Prelude.{◌≡◌, IfSome};
ghost use Rattle.sha2.specs.Sha256.{sha256};
ghost use Rattle.sha2.proofs.Facts256.{length-sha256};
ghost use Rattle.plasma_base.specs.DigestBytes.{small-sha256};

use super::fields::get_u64;
use super::hash::{Hash32, Sha};
use std::alloc::Global;
use std::cell::RefCell;
use std::mem;

// The length of the strings that are remembered: those of the inner nodes of a tree, a byte and two digests.
const STRING_BYTES: usize = 65;

// The slots of the smallest table and of the largest, which are powers of two. No clause bounds memory.
const FIRST_SLOTS: usize = 256;

const MOST_SLOTS: usize = 131_072;

// A string and its digest.
#[derive(Clone, Copy)]
struct Known {
    string: [u8; STRING_BYTES],
    digest: [u8; 32],
    ghost is_digest: { digest ≡ sha256 string },
}

// The strings that are remembered, each in one of the two slots that are its own, which are neighbours. Whichever was
// put last stands in the first of them, and the one that stood there moves to the other, so strings that are chosen to
// share slots only push each other out.
#[derive(Drop)]
struct Table {
    alloc: Global,
    slots: Vec<Option<Known>>,
    // How many strings were put, the same ones counted again.
    puts: usize,
}

impl Table {
    // The digest of a string, which it remembers.
    fn digest(&mut self, string: &[u8; STRING_BYTES]) -> [u8; 32]
        ensures { result ≡ sha256 string.now }
    {
        if let Some(digest) = self.known(string) {
            return digest;
        }
        let digest = Sha.digest(string);
        self.remember(Known {
            string: *string,
            digest,
        });
        digest
    }

    // The digest of a string that is remembered.
    fn known(&self, string: &[u8; STRING_BYTES]) -> Option<[u8; 32]>
        ensures { IfSome result (λ digest. digest ≡ sha256 string.now) }
    {
        let place = self.place(string);
        for slot in [place, place ^ 1] {
            match self.slots.get(slot) {
                Some(Some(known)) if known.string == *string => return Some(known.digest),
                _ => {}
            }
        }
        None
    }

    // The place of a string's first slot, by eight bytes of each of its two digests. They are other bytes of the one than of
    // the other, since the two are often equal. A table of no slot has none at that place.
    fn place(&self, string: &[u8; STRING_BYTES]) -> usize {
        let left = get_u64(string, 1).unwrap_or(0);
        let right = get_u64(string, STRING_BYTES - 8).unwrap_or(0);
        (left ^ right) as usize & self.slots.len().wrapping_sub(1)
    }

    // Remembers a string. The table grows once half as many were put as it has slots, before many push each other out.
    fn remember(&mut self, known: Known) {
        if self.slots.len() / 2 <= self.puts && self.slots.len() < MOST_SLOTS {
            self.grow();
        }
        self.puts = self.puts.saturating_add(1);
        self.put(known);
    }

    // Puts a string into its first slot, and what stood there into the slot beside it.
    fn put(&mut self, known: Known) {
        let place = self.place(&known.string);
        let mut pushed = None;
        if let Some(slot) = self.slots.get_mut(place) {
            pushed = mem::replace(slot, Some(known));
        }
        if let (Some(_), Some(slot)) = (pushed, self.slots.get_mut(place ^ 1)) {
            *slot = pushed;
        }
    }

    // Takes twice as many slots, to which the strings move. Where there is no memory nothing changes.
    fn grow(&mut self) {
        let count = FIRST_SLOTS.max(self.slots.len().saturating_mul(2));
        if let Ok(slots) = vec![in self.alloc; None; count] {
            for known in mem::replace(&mut self.slots, slots).into_iter().flatten() {
                self.put(known);
            }
        }
    }
}

/// SHA-256 (FIPS 180-4), which remembers strings of 65 bytes, as the inner nodes of a tree have, so that they aren't
/// digested again. No answer depends on what it remembers. It takes no memory until it digests such a string, and then
/// grows with them to 13 MB at most, and 20 MB while it grows. Where memory runs out it remembers less.
#[derive(Drop)]
pub struct KeptSha {
    table: RefCell<Table>,
}

impl KeptSha {
    /// Nothing is remembered. It takes no memory.
    pub fn new(alloc: Global) -> KeptSha {
        KeptSha {
            table: RefCell::new(Table {
                alloc,
                slots: Vec::new(alloc),
                puts: 0,
            }),
        }
    }
}

impl Hash32 for KeptSha {
    ghost digest_of = { λ _ bytes. sha256 bytes };

    ghost length_is = { λ _ bytes. length-sha256 bytes };

    ghost bytes_are = { λ _ bytes. (small-sha256 bytes).are };

    fn digest(&self, bytes: &[u8]) -> [u8; 32] {
        match (
            <&[u8; STRING_BYTES]>::try_from(bytes),
            self.table.try_borrow_mut(),
        ) {
            (Ok(string), Ok(mut table)) => table.digest(string),
            _ => Sha.digest(bytes),
        }
    }

    fn digest_two(&self, first: &[u8], second: &[u8]) -> [u8; 32] {
        Sha.digest_two(first, second)
    }

    fn is_sha256(&self) -> bool {
        true
    }
}
