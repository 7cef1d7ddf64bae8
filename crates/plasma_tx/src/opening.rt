ghost use Rattle.std.specs.Prelude.{◌≡◌, ◌≢◌, ◌<◌, ◌^◌, ◌+◌, ◌≤◌, length, take, drop, IfOk, MatchOption, Err};
ghost use Rattle.plasma_tx.specs.Openings.{HasOpeningLength, opening_in, opening_text, raw_of, leaf_length, leaf_in};
ghost use Rattle.sparse_merkle.specs.TreeDigest.{AreDefaults};

use plasma_base::{Bytes, Hash32, NoMemory, get_u32, put_u32};
use sparse_merkle::{Proof, ProofRefusal, defaults};
use std::alloc::{AllocError, AllocFailed, Global};
use thiserror::Error;

/// What a block's tree has at a coin, as bytes that aren't read yet.
#[derive(Drop)]
pub struct RawOpening {
    pub block: u64,
    pub bytes: Bytes,
}

/// What a block's tree has at a coin: the leaf, which is empty where the coin is absent, and the
/// proof that opens the block's root to it.
#[derive(Drop)]
pub struct Opening {
    pub block: u64,
    pub leaf: Bytes,
    pub proof: Proof,
}

/// Why bytes aren't read as an opening.
#[derive(Debug, Clone, Copy, PartialEq, Eq, Error)]
pub enum OpeningRefusal {
    /// The bytes don't spell a leaf and a proof.
    #[error("unreadable")]
    Unreadable,
    /// Memory ran out.
    #[error("no memory")]
    NoMemory,
}

impl From<NoMemory> for OpeningRefusal {
    ghost use Rattle.plasma_tx.specs.declared.opening.OpeningRefusal.{OpeningRefusal};

    ghost from_gives = { λ _ refusal. refusal ≡ OpeningRefusal.NoMemory };

    fn from(_error: NoMemory) -> OpeningRefusal {
        OpeningRefusal::NoMemory
    }
}

impl RawOpening {
    /// The opening that the bytes spell: the leaf's length as a u32, the leaf, and a proof with nothing
    /// after it, of which no sibling is the default of its level. `Unreadable` exactly where they spell
    /// none. No memory is taken before the leaf's and the proof's lengths are found to fit. It makes 64
    /// digests, which give the defaults.
    pub fn open_up<H: Hash32>(&self, h: &H) -> Result<Opening, OpeningRefusal>
        ensures read { result ≢ Err OpeningRefusal.NoMemory → result ≡ opening_in (H.digest_of h.now) self.now }
        ensures memory { result ≡ Err OpeningRefusal.NoMemory → HasOpeningLength self.now.bytes }
    {
        self.open_up_with_defaults(h, &defaults(h))
    }

    /// As `open_up`, where the caller has the defaults of levels 0 to 63 already: `Unreadable` exactly
    /// where the bytes spell no opening, and no memory is taken before both lengths are found to fit.
    /// It makes no digest; `h` says whose defaults they are.
    #[tactic(auto, unfolding(crate::specs::Openings::opening_in))]
    pub fn open_up_with_defaults<H: Hash32>(
        &self,
        h: &H,
        defaults: &[[u8; 32]; 64],
    ) -> Result<Opening, OpeningRefusal>
        requires { AreDefaults (H.digest_of h.now) defaults.now }
        ensures read { result ≢ Err OpeningRefusal.NoMemory → result ≡ opening_in (H.digest_of h.now) self.now }
        ensures memory { result ≡ Err OpeningRefusal.NoMemory → HasOpeningLength self.now.bytes }
    {
        let Some((leaf, rest)) = parts(self.bytes.as_slice()) else {
            return Err(OpeningRefusal::Unreadable);
        };
        let alloc = self.bytes.allocator();
        let proof = match Proof::read_with_defaults(alloc, h, defaults, rest) {
            Ok(proof) => proof,
            Err(ProofRefusal::NoMemory) => return Err(OpeningRefusal::NoMemory),
            Err(_) => return Err(OpeningRefusal::Unreadable),
        };
        Ok(Opening {
            block: self.block,
            leaf: copy_of(alloc, leaf)?,
            proof,
        })
    }

    /// An equal opening, or `NoMemory`.
    pub fn copy(&self) -> Result<RawOpening, NoMemory>
        ensures { IfOk result (λ copied. copied ≡ self.now) }
    {
        Ok(RawOpening {
            block: self.block,
            bytes: self.bytes.copy()?,
        })
    }
}

impl Opening {
    /// The opening as bytes, which `open_up` reads where the proof shows no default.
    #[tactic(auto, unfolding(crate::specs::Openings::opening_text))]
    pub fn write(&self) -> Result<RawOpening, NoMemory>
        requires { length self.now.leaf < 2 ^ 32 }
        ensures { IfOk result (λ raw. raw ≡ raw_of self.now) }
    {
        let mut bytes = Vec::new(self.leaf.allocator());
        put_u32(&mut bytes, self.leaf.len() as u32)?;
        bytes.extend_from_slice(self.leaf.as_slice())?;
        self.proof.write(&mut bytes)?;
        Ok(RawOpening {
            block: self.block,
            bytes: Bytes::from_vec(bytes),
        })
    }
}

/// The leaf, and what stands behind it; `None` where the bytes end before.
#[tactic(auto, unfolding(crate::specs::Openings::leaf_in))]
fn parts(bytes: &[u8]) -> Option<(&[u8], &[u8])>
    ensures { MatchOption result (length bytes.now < 4 + leaf_length bytes.now)
        (λ parts. (4 + leaf_length bytes.now ≤ length bytes.now) × (parts.0.now ≡ leaf_in bytes.now)
        × (parts.1.now ≡ drop (4 + leaf_length bytes.now) bytes.now)) }
{
    let length = get_u32(bytes, 0)? as usize;
    let behind = &bytes[4..];
    if behind.len() < length {
        return None;
    }
    Some(behind.split_at(length))
}

/// The leaf that so many bytes of an opening show behind its length, whether or not they spell an opening: where they
/// end before, what there is of it.
#[tactic(auto, unfolding(crate::specs::Openings::leaf_in))]
pub fn leaf_in(bytes: &[u8]) -> &[u8]
    ensures { result.now ≡ leaf_in bytes.now }
{
    match get_u32(bytes, 0) {
        None => &[],
        Some(length) => {
            let behind = &bytes[4..];
            &behind[..behind.len().min(length as usize)]
        }
    }
}

/// The bytes as a byte string of their own.
fn copy_of(alloc: Global, bytes: &[u8]) -> Result<Bytes, NoMemory>
    ensures { IfOk result (λ copied. copied ≡ bytes.now) }
{
    Ok(Bytes::from_vec(Vec::from_slice(alloc, bytes)?))
}
