ghost use Rattle.std.specs.Prelude.{◌≡◌, ◌≢◌, ◌++◌, ◌≤◌, length, take, drop, IfOk, OnOk, OnErr, Err};
ghost use Rattle.plasma_tx.specs.Spelling.{signed_text, signed_in, body_length};
ghost use Rattle.plasma_tx.specs.Transfer.{is_signed_by};

use super::body::{Body, body_length};
use super::owner::Owner;
use lms_sign::{PublicKey, verify};
use plasma_base::{Bytes, NoMemory};
use std::alloc::{AllocError, AllocFailed, Global};
use thiserror::Error;

/// Why bytes aren't read as a signed transfer.
#[derive(Debug, Clone, Copy, PartialEq, Eq, Error)]
pub enum TxRefusal {
    /// There are fewer than 116 bytes, or fewer than 124 where they begin with `PCT2`.
    #[error("short")]
    Short,
    /// The bytes begin with neither mark.
    #[error("bad mark")]
    BadMark,
    /// The tag is another one.
    #[error("bad tag")]
    BadTag,
    /// Memory ran out.
    #[error("no memory")]
    NoMemory,
}

impl From<NoMemory> for TxRefusal {
    ghost use Rattle.plasma_tx.specs.declared.signed_tx.TxRefusal.{TxRefusal};

    ghost from_gives = { λ _ refusal. refusal ≡ TxRefusal.NoMemory };

    fn from(_error: NoMemory) -> TxRefusal {
        TxRefusal::NoMemory
    }
}

/// A transfer with the signature of the coin's owner before it.
#[derive(Drop)]
pub struct SignedTx {
    pub body: Body,
    pub signature: Bytes,
}

impl SignedTx {
    /// The signed transfer with this tag that the bytes spell: a body, then the signature, which is all
    /// that remains and may be empty. `Short` comes for under 116 bytes, and for under 124 where they
    /// begin with `PCT2`; then `BadMark` where they begin with neither mark; then `BadTag` where the
    /// tag is another one.
    #[tactic(auto, unfolding(crate::specs::Spelling::signed_in))]
    pub fn read(alloc: Global, tag: &[u8; 32], bytes: &[u8]) -> Result<SignedTx, TxRefusal>
        ensures { result ≢ Err TxRefusal.NoMemory → result ≡ signed_in tag.now bytes.now }
    {
        let body = Body::read(tag, bytes)?;
        Ok(SignedTx {
            body,
            signature: signature_behind(alloc, bytes)?,
        })
    }

    /// Puts the bytes of the transfer at the end, which `read` reads. Where memory runs out nothing
    /// changes.
    pub fn write(&self, out: &mut Vec<u8>) -> Result<(), NoMemory>
        ensures ok { OnOk result (out.new.items ≡ out.old.items ++ signed_text self.now) }
        ensures err { OnErr result (out.new.items ≡ out.old.items) }
    {
        let before = out.len();
        let pushed = push_transfer(out, self);
        if pushed.is_err() {
            out.truncate(before);
        }
        pushed
    }

    /// An equal transfer, or `NoMemory`.
    pub fn copy(&self) -> Result<SignedTx, NoMemory>
        ensures { IfOk result (λ copied. copied ≡ self.now) }
    {
        Ok(SignedTx {
            body: self.body,
            signature: self.signature.copy()?,
        })
    }
}

/// The bytes behind the body that the bytes begin with.
pub fn signature_behind(alloc: Global, bytes: &[u8]) -> Result<Bytes, NoMemory>
    requires { body_length bytes.now ≤ length bytes.now }
    ensures { IfOk result (λ signature. signature ≡ drop (body_length bytes.now) bytes.now) }
{
    let signature = &bytes[body_length(bytes)..];
    Ok(Bytes::from_vec(Vec::from_slice(alloc, signature)?))
}

// As `write`, but where memory runs out some of the bytes may stand at the end.
#[tactic(auto, unfolding(crate::specs::Spelling::signed_text))]
fn push_transfer(out: &mut Vec<u8>, tx: &SignedTx) -> Result<(), NoMemory>
    ensures ok { OnOk result (out.new.items ≡ out.old.items ++ signed_text tx.now) }
    ensures front { take (length out.old.items) out.new.items ≡ out.old.items }
{
    out.extend_from_slice(tx.body.write().as_slice())?;
    out.extend_from_slice(tx.signature.as_slice())?;
    Ok(())
}

/// Whether the owner signed the transfer: his key reads, and the signature is valid under it over the
/// bytes of the body. It takes no memory.
#[tactic(auto, unfolding(crate::specs::Transfer::is_signed_by))]
pub fn signed_by(tx: &SignedTx, owner: &Owner) -> bool
    ensures { result ≡ is_signed_by tx.now owner.now }
{
    match PublicKey::read(&owner.key) {
        Ok(key) => verify(&key, tx.body.write().as_slice(), tx.signature.as_slice()),
        Err(_) => false,
    }
}
