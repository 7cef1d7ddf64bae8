ghost use Rattle.std.specs.Prelude.{◌≡◌, ◌≢◌};
ghost use Rattle.plasma_base.specs.Causes.{faults_after};
ghost use Rattle.run_endings.specs.Statuses.{is_write_fault};
ghost use Rattle.run_endings.specs.Outputs.{EndsAs};
ghost use Rattle.hss_runs.specs.Verdict.{is_hss_verified, verdict_output};

use hss_keys::hss_verify;
use plasma_outside::Sink;
use run_endings::{Status, put_line};

// Whether the key has 60 bytes, and the signature of the message is valid under it.
#[tactic(auto, unfolding(crate::specs::Verdict::is_hss_verified))]
fn is_hss_verified(key: &[u8], message: &[u8], signature: &[u8]) -> bool
    ensures { result ≡ is_hss_verified key.now message.now signature.now }
{
    if key.len() != 60 {
        return false;
    }
    let mut public = [0; 60];
    public.copy_from_slice(key);
    hss_verify(&public, message, signature)
}

/// Puts `valid` where the key has 60 bytes and the signature of the message is valid under it (RFC 8554, section 6.3),
/// and else `invalid`. The message and the signature may be any bytes.
pub fn verify_signature<K: Sink>(
    sink: &mut K,
    key: &[u8],
    message: &[u8],
    signature: &[u8],
) -> Status
    ensures output { EndsAs (verdict_output (is_hss_verified key.now message.now signature.now)) result
        (K.taken sink.old) (K.taken sink.new) ⊥ }
    ensures no_read_fault { result ≢ Status.ReadFault }
    ensures sink_faults { K.faults sink.new ≡ faults_after (K.faults sink.old) (is_write_fault result) }
{
    if is_hss_verified(key, message, signature) {
        return put_line(sink, b"valid\n", Status::Done);
    }
    put_line(sink, b"invalid\n", Status::Done)
}
