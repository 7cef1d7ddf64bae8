ghost use Rattle.std.specs.Prelude.{◌≡◌, ◌≤◌, length};
ghost use Rattle.leaf_journal.specs.Records.{with_number};

use std::marker::Model;

/// At most 132 bytes, which take no memory of their own. Contracts see them as a list.
#[derive(Drop)]
pub struct ShortBytes {
    bytes: [u8; 132],
    length: usize,
}

impl Model for ShortBytes {
    ghost use Rattle.std.specs.Prelude.{ℕ, List, take, ◌≤◌};

    ghost Value = { List ℕ };

    ghost view = { λ short. take short.length short.bytes };

    ghost invariant = { λ short. short.length ≤ 132 };
}

impl ShortBytes {
    /// These bytes.
    pub fn of(bytes: &[u8]) -> ShortBytes
        requires { length bytes.now ≤ 132 }
        ensures { result ≡ bytes.now }
    {
        let mut room = [0; 132];
        room[..bytes.len()].copy_from_slice(bytes);
        ShortBytes {
            bytes: room,
            length: bytes.len(),
        }
    }

    /// The number in four bytes, the high byte first, and then the message.
    pub fn with_number(number: u32, message: &[u8]) -> ShortBytes
        requires { length message.now ≤ 128 }
        ensures { result ≡ with_number number message.now }
    {
        let end = 4 + message.len();
        let mut room = [0; 132];
        room[..4].copy_from_slice(&number.to_be_bytes());
        room[4..end].copy_from_slice(message);
        ShortBytes {
            bytes: room,
            length: end,
        }
    }

    /// The bytes.
    pub fn as_slice(&self) -> &[u8]
        ensures value { result.now ≡ self.now }
        ensures short { length result.now ≤ 132 }
    {
        &self.bytes[..self.length]
    }
}
