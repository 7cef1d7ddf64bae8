//! LMS signatures with SHA-256 (RFC 8554): keys, signing with a leaf, and the test of a signature.
#![tactic(auto)]

ghost use Rattle.lms_sign.specs.Types.{HasSizes};
ghost use Rattle.lms_sign.specs.Tree.{NodesAreTheStandards};
ghost use Rattle.lms_sign.specs.Valid.{SignaturesAreValid};

mod blocks;
mod chains;
mod fields;
mod hashing;
mod lanes;
mod one_time;
mod public_key;
mod secret;
mod secret_key;
mod signing;
mod types;
mod verifying;

pub use public_key::{BadType, PublicKey};
pub use secret_key::SecretKey;
pub use signing::sign;
pub use types::LmsTypes;
pub use verifying::verify;

/// The pairs that are supported, with the leaves of a key and the bytes of a signature: 5 and 4, 6 and
/// 4, 5 and 3, 6 and 3 (RFC 8554, sections 4.1 and 5.1).
pub fn types_have_these_sizes()
    ensures of_5_4 { HasSizes 5 4 32 1292 }
    ensures of_6_4 { HasSizes 6 4 1024 1452 }
    ensures of_5_3 { HasSizes 5 3 32 2348 }
    ensures of_6_3 { HasSizes 6 3 1024 2508 }
{}

/// Each node of a tree is what RFC 8554, section 5.3, says of its number.
pub fn nodes_are_the_standards()
    ensures { NodesAreTheStandards }
{}

/// Each signature that a leaf of a tree makes is valid under the tree's public key, for every
/// message.
pub fn signatures_are_valid()
    ensures { SignaturesAreValid }
{}
