ghost use Rattle.std.specs.Prelude.{◌≡◌};
ghost use Rattle.replay_run.specs.Forms.{is_verified};

use lms_sign::{PublicKey, verify};

/// Whether the key has 56 bytes and reads, and the signature of the message is valid under it.
#[tactic(auto, unfolding(crate::specs::Forms::is_verified))]
pub fn is_verified(key: &[u8], message: &[u8], signature: &[u8]) -> bool
    ensures { result ≡ is_verified key.now message.now signature.now }
{
    if key.len() != 56 {
        return false;
    }
    let mut bytes = [0; 56];
    bytes.copy_from_slice(key);
    match PublicKey::read(&bytes) {
        Ok(key) => verify(&key, message, signature),
        Err(_) => false,
    }
}
