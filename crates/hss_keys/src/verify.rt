ghost use Rattle.std.specs.Prelude.{◌≡◌, ◌↔◌, IsTrue, length};
ghost use Rattle.lms_sign.specs.Valid.{is_valid};
ghost use Rattle.hss_keys.specs.Keys.{is_hss_valid, IsHssValid};

use super::fields::{begins_with, u32_at};
use super::sizes::signature_len;
use lms_sign::{LmsTypes, PublicKey, verify};

// Whether the signature of the message is valid under a public key of one level, whose types may be any.
fn is_valid(key: &[u8], message: &[u8], signature: &[u8]) -> bool
    requires { length key.now ≡ 56 }
    ensures { result ≡ is_valid key.now message.now signature.now }
{
    let mut bytes = [0; 56];
    bytes.copy_from_slice(key);
    match PublicKey::read(&bytes) {
        Ok(key) => verify(&key, message, signature),
        Err(_) => false,
    }
}

// Whether the signature is valid by both levels.
fn is_hss_valid(public: &[u8; 60], message: &[u8], signature: &[u8]) -> bool
    ensures { result ≡ is_hss_valid public.now message.now signature.now }
{
    let top = &public[4..];
    let types = LmsTypes {
        lms: u32_at(top, 0),
        ots: u32_at(top, 4),
    };
    let place = 4 + signature_len(&types);
    if !begins_with(public, 2) {
        return false;
    }
    if !begins_with(signature, 1) {
        return false;
    }
    if signature.len() < place + 56 {
        return false;
    }
    let bottom = &signature[place..place + 56];
    is_valid(top, bottom, &signature[4..place])
        && is_valid(bottom, message, &signature[place + 56..])
}

/// Whether the signature of the message is valid under the public key of two levels: both have the form of two levels,
/// the top key signed the bottom key, whose types are supported, and the bottom key signed the message (RFC 8554,
/// section 6.3). Any bytes may be given as a signature. It takes no memory.
pub fn hss_verify(public: &[u8; 60], message: &[u8], signature: &[u8]) -> bool
    ensures value { result ≡ is_hss_valid public.now message.now signature.now }
    ensures valid { IsTrue result ↔ IsHssValid public.now message.now signature.now }
{
    is_hss_valid(public, message, signature)
}
