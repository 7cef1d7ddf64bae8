ghost use Rattle.std.specs.Prelude.{◌≡◌, ◌<◌, ◌≤◌, ◌+◌, ◌*◌, [], ◌∷◌, ◌++◌, codes, length, vec_len, vec_capacity, IfOk};
ghost use Rattle.hex.specs.Hex.{encode_lower};
ghost use Rattle.lms_sign.specs.Types.{leaf_count};
ghost use Rattle.hss_keys.specs.Keys.{bottom_secret, hss_signature_length};
ghost use Rattle.hss_keys.specs.Levels.{bound_of};
ghost use Rattle.hss_runs.specs.Signing.{first_line, signed_text};

use super::next::NextLeaf;
use hss_keys::{HssBound, HssSecret};
use line_forms::push_number;
use lms_sign::SecretKey;
use plasma_base::NoMemory;
use std::alloc::Global;

/// What an answer needs: the bottom key, the text up to the signature's digits, and room for the rest. Its memory is
/// taken before a leaf is bound, so that no leaf is spent for want of it.
#[derive(Drop)]
pub struct Answer {
    pub bottom: SecretKey,
    pub text: Vec<u8>,
    pub digits: Vec<u8>,
    pub signature: Vec<u8>,
    ghost digits_fit: { vec_len digits ≡ 2 * vec_len signature },
    ghost has_room: { vec_len text + vec_len digits + 1 ≤ vec_capacity text },
}

// The first line of the answer of a leaf.
fn first_line(alloc: Global, next: NextLeaf) -> Result<Vec<u8>, NoMemory>
    ensures { IfOk result (λ text. text.items ≡ first_line next.top_leaf next.leaf) }
{
    let mut text = Vec::new(alloc);
    text.extend_from_slice(b"signed ")?;
    push_number(&mut text, u64::from(next.top_leaf))?;
    text.push(b' ')?;
    push_number(&mut text, u64::from(next.leaf))?;
    text.push(b'\n')?;
    Ok(text)
}

// Writes the digits of bytes.
fn put_digits(bytes: &[u8], digits: &mut [u8])
    requires { length digits.old ≡ 2 * length bytes.now }
    ensures { digits.new ≡ encode_lower bytes.now }
{
    hex::encode_to_slice(bytes, digits).unwrap();
}

// Puts digits and a line feed at the end of a text that has room for them.
fn end_line(text: &mut Vec<u8>, digits: &[u8])
    requires { vec_len text.old + length digits.now + 1 ≤ vec_capacity text.old }
    ensures { text.new.items ≡ text.old.items ++ digits.now ++ 10 ∷ [] }
{
    text.extend_from_slice(digits).unwrap();
    text.push(b'\n').unwrap();
}

impl Answer {
    /// Takes the memory for the answer of a leaf, and makes its bottom key.
    pub fn prepare(alloc: Global, secret: &HssSecret, next: NextLeaf) -> Result<Answer, NoMemory>
        requires { next.top_leaf < leaf_count secret.now.top }
        ensures bottom { IfOk result (λ answer. answer.bottom ≡ bottom_secret secret.now next.top_leaf) }
        ensures text { IfOk result (λ answer.
            answer.text.items ≡ first_line next.top_leaf next.leaf ++ codes "0x") }
        ensures signature { IfOk result (λ answer.
            vec_len answer.signature ≡ hss_signature_length secret.now) }
    {
        let bottom = secret.bottom(next.top_leaf)?;
        let length = secret.signature_len();
        let signature = vec![in alloc; 0u8; length]?;
        let digits = vec![in alloc; 0u8; 2 * length]?;
        let mut text = first_line(alloc, next)?;
        text.extend_from_slice(b"0x")?;
        text.reserve(2 * length + 1)?;
        Ok(Answer {
            bottom,
            text,
            digits,
            signature,
        })
    }

    /// The text of the answer, with the signature of what a leaf is bound to. The secret and the leaf have to be those
    /// of `prepare`. It takes no memory.
    pub fn sign(self, secret: &HssSecret, bound: HssBound) -> Vec<u8>
        requires bound { bound ≡ bound_of secret.now bound.top_leaf bound.leaf bound.message }
        requires bottom { self.bottom ≡ bottom_secret secret.now bound.top_leaf }
        requires text { self.text.items ≡ first_line bound.top_leaf bound.leaf ++ codes "0x" }
        requires signature { vec_len self.signature ≡ hss_signature_length secret.now }
        ensures { result.items ≡ signed_text secret.now bound.top_leaf bound.leaf bound.message }
    {
        let Answer {
            bottom,
            mut text,
            mut digits,
            mut signature,
        } = self;
        bound.sign(secret, &bottom, &mut signature);
        put_digits(&signature, &mut digits);
        end_line(&mut text, &digits);
        text
    }
}
