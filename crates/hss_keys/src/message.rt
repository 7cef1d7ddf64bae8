ghost use Rattle.std.specs.Prelude.{◌≡◌, ◌≤◌, length};

use std::marker::Model;

/// A message of at most 128 bytes, which takes no memory of its own. Contracts see it as a list.
#[derive(Drop)]
pub struct Message {
    bytes: [u8; 128],
    length: usize,
}

impl Model for Message {
    ghost use Rattle.std.specs.Prelude.{ℕ, List, take, ◌≤◌};

    ghost Value = { List ℕ };

    ghost view = { λ message. take message.length message.bytes };

    ghost invariant = { λ message. message.length ≤ 128 };
}

impl Message {
    /// These bytes.
    pub fn of(bytes: &[u8]) -> Message
        requires { length bytes.now ≤ 128 }
        ensures { result ≡ bytes.now }
    {
        let mut room = [0; 128];
        room[..bytes.len()].copy_from_slice(bytes);
        Message {
            bytes: room,
            length: bytes.len(),
        }
    }

    /// The bytes.
    pub fn as_slice(&self) -> &[u8]
        ensures value { result.now ≡ self.now }
        ensures short { length result.now ≤ 128 }
    {
        &self.bytes[..self.length]
    }
}
