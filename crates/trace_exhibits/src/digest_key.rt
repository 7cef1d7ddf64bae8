ghost use Rattle.std.specs.Prelude.{[], ◌∷◌};
ghost use Rattle.std.proofs.Common.{ap};
ghost use Rattle.std.proofs.lemmas.Slice.Eq.{bytes_eq-Decides};

use std::hash::{Hash, Hasher};

/// A digest as a key of a map. It is hashed in one write, where an array is byte by byte.
#[derive(Clone, Copy, PartialEq, Eq)]
pub(crate) struct DigestKey {
    pub(crate) bytes: [u8; 32],
}

impl Hash for DigestKey {
    ghost hash_input = { λ key. key.bytes ∷ [] };

    ghost respects_eq = { λ one other same.
        ap (λ bytes. bytes ∷ []) ((bytes_eq-Decides one.bytes other.bytes).0 same) };

    fn hash<H: Hasher>(&self, state: &mut H) {
        state.write(&self.bytes);
    }
}
