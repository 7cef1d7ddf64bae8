ghost use Rattle.std.specs.Prelude.{◌≡◌, ◌≤◌, true};
ghost use Rattle.lms_sign.specs.Types.{is_supported, leaf_count, signature_length};

use lms_sign::LmsTypes;

/// The number of leaves of a key with these types, which is 2^h (RFC 8554, section 5.1).
#[tactic(auto, unfolding(lms_sign::specs::Types::height))]
pub fn leaf_count(types: &LmsTypes) -> u32
    ensures value { result ≡ leaf_count types.now }
    ensures bound { result ≤ 1024 }
{
    if types.lms == 6 { 1024 } else { 32 }
}

/// The bytes of a signature by a key with these types (RFC 8554, section 5.4).
#[tactic(auto, unfolding(lms_sign::specs::Types::height, lms_sign::specs::Types::chains))]
pub fn signature_len(types: &LmsTypes) -> usize
    ensures value { result ≡ signature_length types.now }
    ensures bound { result ≤ 2508 }
{
    let height = if types.lms == 6 { 10 } else { 5 };
    let chains = if types.ots == 3 { 67 } else { 34 };
    44 + 32 * chains + 32 * height
}
