ghost use Rattle.std.specs.Prelude.{◌≡◌, ◌+◌, ◌≤◌, ◌++◌, length, take};
ghost use Rattle.lms_sign.specs.Types.{u16str, u32_at, u32str, u8str};

// The bytes of a number, the high byte first, at the three sizes.
#[tactic(auto, unfolding(crate::specs::Types::u32str))]
pub(crate) fn u32str(value: u32) -> [u8; 4]
    ensures { result ≡ u32str value }
{
    value.to_be_bytes()
}

#[tactic(auto, unfolding(crate::specs::Types::u16str))]
pub(crate) fn u16str(value: u16) -> [u8; 2]
    ensures { result ≡ u16str value }
{
    value.to_be_bytes()
}

#[tactic(auto, unfolding(crate::specs::Types::u8str))]
pub(crate) fn u8str(value: u8) -> [u8; 1]
    ensures { result ≡ u8str value }
{
    value.to_be_bytes()
}

// The number that the 4 bytes at a place spell.
#[tactic(auto, unfolding(crate::specs::Types::u32_at))]
pub(crate) fn u32_at(bytes: &[u8], place: usize) -> u32
    requires { place + 4 ≤ length bytes.now }
    ensures { result ≡ u32_at bytes.now place }
{
    let mut field = [0; 4];
    field.copy_from_slice(&bytes[place..place + 4]);
    u32::from_be_bytes(field)
}

// Writes the bytes at a place, after which those from there on are free.
pub(crate) fn put(out: &mut [u8], place: usize, bytes: &[u8])
    requires { place + length bytes.now ≤ length out.old }
    ensures { take (place + length bytes.now) out.new ≡ take place out.old ++ bytes.now }
{
    out[place..place + bytes.len()].copy_from_slice(bytes);
}
