ghost use Rattle.std.specs.Prelude.{◌≡◌, ◌≤◌};
ghost use Rattle.sparse_merkle.specs.TreeDigest.{default_digest, AreDefaults};

use plasma_base::Hash32;
use sparse_merkle::{defaults, node_digest};
use std::marker::Model;

/// A digest, and the nodes of the map without a leaf under it. Contracts see the digest.
#[derive(Drop)]
pub struct Defaults<H: Hash32 + Copy> {
    hash: H,
    below: [[u8; 32]; 64],
    root: [u8; 32],
}

impl<H: Hash32 + Copy> Model for Defaults<H> {
    ghost use Rattle.merkle_pages.specs.Nodes.{KeepsDefaults};

    ghost Value = { H };

    ghost view = { λ d. d.hash };

    ghost invariant = { λ d. KeepsDefaults (H.digest_of d.hash) d.below d.root };
}

impl<H: Hash32 + Copy> Defaults<H> {
    /// The defaults of a digest, by 65 digests. It takes no memory.
    pub fn new(hash: H) -> Defaults<H>
        ensures { result ≡ hash }
    {
        let below = defaults(&hash);
        let root = node_digest(&hash, &below[63], &below[63]);
        Defaults { hash, below, root }
    }

    /// The digest.
    pub fn hash(&self) -> H
        ensures { result ≡ self.now }
    {
        self.hash
    }

    /// The defaults of the levels 0 to 63, lent.
    pub fn below(&self) -> &[[u8; 32]; 64]
        ensures { AreDefaults (H.digest_of self.now) result.now }
    {
        &self.below
    }

    /// The default of a level, lent. That of level 64 is the root.
    pub fn of_level(&self, level: usize) -> &[u8; 32]
        requires { level ≤ 64 }
        ensures { result.now ≡ default_digest (H.digest_of self.now) level }
    {
        if level == 64 {
            return &self.root;
        }
        &self.below[level]
    }
}
