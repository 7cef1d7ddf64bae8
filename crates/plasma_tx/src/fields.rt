ghost use Rattle.std.specs.Prelude.{◌≡◌, ◌+◌, ◌≤◌, ◌++◌, length, take};
ghost use Rattle.plasma_tx.specs.Spelling.{number_at};

/// The number that the eight bytes at a place spell, the highest first.
pub fn number_at(bytes: &[u8], place: usize) -> u64
    requires { place + 8 ≤ length bytes.now }
    ensures { result ≡ number_at bytes.now place }
{
    let mut field = [0; 8];
    field.copy_from_slice(&bytes[place..place + 8]);
    u64::from_be_bytes(field)
}

/// Writes the bytes at a place, after which those from there on are free.
pub fn put(out: &mut [u8], place: usize, bytes: &[u8])
    requires { place + length bytes.now ≤ length out.old }
    ensures { take (place + length bytes.now) out.new ≡ take place out.old ++ bytes.now }
{
    out[place..place + bytes.len()].copy_from_slice(bytes);
}
