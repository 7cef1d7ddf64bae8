ghost use Rattle.std.specs.Prelude.{◌≡◌, ◌+◌, ◌<◌, ◌≤◌, ◌++◌, length, take};
ghost use Rattle.std.specs.Str.{bytes_eq};
ghost use Rattle.lms_sign.specs.Types.{leaf_count, signature_length, u32_at, u32str};
ghost use Rattle.lms_sign.specs.Tree.{public_key_of, signature_of};
ghost use Rattle.lms_sign.specs.Valid.{IsValid};

use lms_sign::{SecretKey, sign};

/// The four bytes of a number, the high byte first.
#[tactic(auto, unfolding(lms_sign::specs::Types::u32str))]
pub fn u32str(value: u32) -> [u8; 4]
    ensures { result ≡ u32str value }
{
    value.to_be_bytes()
}

/// The number that the four bytes at a place spell.
#[tactic(auto, unfolding(lms_sign::specs::Types::u32_at))]
pub fn u32_at(bytes: &[u8], place: usize) -> u32
    requires { place + 4 ≤ length bytes.now }
    ensures { result ≡ u32_at bytes.now place }
{
    let mut field = [0; 4];
    field.copy_from_slice(&bytes[place..place + 4]);
    u32::from_be_bytes(field)
}

/// Whether the bytes begin with those of a number.
pub fn begins_with(bytes: &[u8], number: u32) -> bool
    ensures { result ≡ bytes_eq (take 4 bytes.now) (u32str number) }
{
    let front = &bytes[..usize::min(4, bytes.len())];
    front == u32str(number).as_slice()
}

/// Writes the bytes at a place, after which those from there on are free.
pub fn put(out: &mut [u8], place: usize, bytes: &[u8])
    requires { place + length bytes.now ≤ length out.old }
    ensures { take (place + length bytes.now) out.new ≡ take place out.old ++ bytes.now }
{
    out[place..place + bytes.len()].copy_from_slice(bytes);
}

/// Writes the signature of a message by a leaf of the key at a place, after which the bytes from there on are free.
pub fn put_signature(key: &SecretKey, leaf: u32, message: &[u8], out: &mut [u8], place: usize)
    requires leaf { leaf < leaf_count key.now.types }
    requires room { place + signature_length key.now.types ≤ length out.old }
    ensures written { take (place + signature_length key.now.types) out.new
        ≡ take place out.old ++ signature_of key.now leaf message.now }
    ensures valid { IsValid (public_key_of key.now) message.now (signature_of key.now leaf message.now) }
{
    let end = place + key.signature_len();
    sign(key, leaf, message, &mut out[place..end]);
}
