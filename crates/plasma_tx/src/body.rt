ghost use Rattle.std.specs.Prelude.{◌≡◌, ◌≤◌, length, take, IfOk};
ghost use Rattle.plasma_tx.specs.Spelling.{body_text, body_in, body_at_start, body_length, mark_of, common_text};

use super::fields::{number_at, put};
use super::owner::Owner;
use super::signed_tx::TxRefusal;
use std::marker::Model;

/// What an owner signs: that a coin goes to a new owner. The parent is the block of the coin's
/// transaction before; `last`, where there is one, is the last block that may hold the transfer.
#[derive(Clone, Copy, PartialEq, Eq)]
pub struct Body {
    /// The chain's tag.
    pub tag: [u8; 32],
    pub coin: u64,
    pub parent: u64,
    pub to: Owner,
    pub last: Option<u64>,
}

impl Body {
    /// The body with this tag that the bytes begin with: 116 bytes from `PCT1` on, or 124 from `PCT2`
    /// on. What stands behind it isn't read. `Short` comes for fewer bytes, where under 116 are short
    /// whatever they are; then `BadMark` where they begin with neither mark; then `BadTag` where the
    /// tag is another one. It takes no memory, so it never answers `NoMemory`.
    #[tactic(auto, unfolding(crate::specs::Spelling::body_in))]
    pub fn read(tag: &[u8; 32], bytes: &[u8]) -> Result<Body, TxRefusal>
        ensures value { result ≡ body_in tag.now bytes.now }
        ensures long { IfOk result (λ _. body_length bytes.now ≤ length bytes.now) }
    {
        if bytes.len() < body_length(bytes) {
            return Err(TxRefusal::Short);
        }
        if !(bytes.starts_with(b"PCT1") || bytes.starts_with(b"PCT2")) {
            return Err(TxRefusal::BadMark);
        }
        if bytes[4..36] != tag[..] {
            return Err(TxRefusal::BadTag);
        }
        Ok(body_at_start(bytes))
    }

    /// The bytes of the body, which `read` reads and which a signature is over: the mark, the tag, the
    /// coin and the parent as u64, the new owner, and the last block as a u64 where there is one. It
    /// takes no memory.
    #[tactic(auto, unfolding(crate::specs::Spelling::body_text))]
    pub fn write(&self) -> BodyBytes
        ensures { result ≡ body_text self.now }
    {
        let mut bytes = [0; 124];
        put_body(&mut bytes, self);
        match self.last {
            None => BodyBytes { bytes, length: 116 },
            Some(last) => {
                put(&mut bytes, 116, &last.to_be_bytes());
                BodyBytes { bytes, length: 124 }
            }
        }
    }
}

/// The mark of a body.
fn mark_of(last: Option<u64>) -> [u8; 4]
    ensures { result ≡ mark_of last }
{
    match last {
        None => *b"PCT1",
        Some(_) => *b"PCT2",
    }
}

/// Writes the body's bytes but for the last block.
fn put_body(bytes: &mut [u8; 124], body: &Body)
    ensures { take 116 bytes.new ≡ common_text body.now }
{
    put(bytes, 0, &mark_of(body.last));
    put(bytes, 4, &body.tag);
    put(bytes, 36, &body.coin.to_be_bytes());
    put(bytes, 44, &body.parent.to_be_bytes());
    put(bytes, 52, &body.to.write());
}

/// How long the body is that the bytes begin with.
pub fn body_length(bytes: &[u8]) -> usize
    ensures { result ≡ body_length bytes.now }
{
    if bytes.starts_with(b"PCT2") { 124 } else { 116 }
}

/// The body that the bytes begin with.
fn body_at_start(bytes: &[u8]) -> Body
    requires { body_length bytes.now ≤ length bytes.now }
    ensures { result ≡ body_at_start bytes.now }
{
    let mut tag = [0; 32];
    tag.copy_from_slice(&bytes[4..36]);
    let mut to = [0; 64];
    to.copy_from_slice(&bytes[52..116]);
    let last = if bytes.starts_with(b"PCT2") {
        Some(number_at(bytes, 116))
    } else {
        None
    };
    Body {
        tag,
        coin: number_at(bytes, 36),
        parent: number_at(bytes, 44),
        to: Owner::read(&to),
        last,
    }
}

/// The bytes of a body: 116, or 124 with a last block. Contracts see them as a list.
#[derive(Drop)]
pub struct BodyBytes {
    bytes: [u8; 124],
    length: usize,
}

impl Model for BodyBytes {
    ghost use Rattle.std.specs.Prelude.{List, ℕ, ◌≤◌, take};

    ghost Value = { List ℕ };

    ghost view = { λ b. take b.length b.bytes };

    ghost invariant = { λ b. b.length ≤ 124 };
}

impl BodyBytes {
    /// The bytes, lent.
    pub fn as_slice(&self) -> &[u8]
        ensures { result.now ≡ self.now }
    {
        &self.bytes[..self.length]
    }
}
