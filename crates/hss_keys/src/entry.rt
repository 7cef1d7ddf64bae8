ghost use Rattle.std.specs.Prelude.{◌≡◌, ◌≤◌, true, length, IfSome};
ghost use Rattle.hss_keys.specs.Entries.{entry_in, entry_text, is_binding, is_opening};

use super::fields::{put, u32_at, u32str};
use super::message::Message;
use std::marker::Model;

/// What a record of a two-level signer says.
#[derive(Drop)]
pub enum Entry {
    /// The top leaf signs this bottom key.
    Opens {
        top_leaf: u32,
        key: [u8; 56],
    },
    /// The leaf of the bottom key that the top leaf signs is bound to the message.
    Binds {
        top_leaf: u32,
        leaf: u32,
        message: Message,
    },
}

/// The bytes of a record, at most 137, which take no memory of their own. Contracts see them as a list.
#[derive(Drop)]
pub struct Body {
    bytes: [u8; 137],
    length: usize,
}

impl Model for Body {
    ghost use Rattle.std.specs.Prelude.{ℕ, List, take, ◌≤◌};

    ghost Value = { List ℕ };

    ghost view = { λ body. take body.length body.bytes };

    ghost invariant = { λ body. body.length ≤ 137 };
}

impl Body {
    /// These bytes.
    pub fn of(bytes: &[u8]) -> Body
        requires { length bytes.now ≤ 137 }
        ensures { result ≡ bytes.now }
    {
        let mut room = [0; 137];
        room[..bytes.len()].copy_from_slice(bytes);
        Body {
            bytes: room,
            length: bytes.len(),
        }
    }

    /// The bytes.
    pub fn as_slice(&self) -> &[u8]
        ensures value { result.now ≡ self.now }
        ensures short { length result.now ≤ 137 }
    {
        &self.bytes[..self.length]
    }
}

/// The record that opens a bottom key: 01, the top leaf in four bytes, and the key.
fn opening_body(top_leaf: u32, key: &[u8; 56]) -> Body
    ensures { result ≡ entry_text (Entry.Opens top_leaf key.now) }
{
    let mut bytes = [0; 137];
    put(&mut bytes, 0, &[1]);
    put(&mut bytes, 1, &u32str(top_leaf));
    put(&mut bytes, 5, key);
    Body { bytes, length: 61 }
}

/// The record that binds a message: 02, the top leaf and the leaf in four bytes each, and the message.
fn binding_body(top_leaf: u32, leaf: u32, message: &[u8]) -> Body
    requires { length message.now ≤ 128 }
    ensures { result ≡ entry_text (Entry.Binds top_leaf leaf message.now) }
{
    let mut bytes = [0; 137];
    put(&mut bytes, 0, &[2]);
    put(&mut bytes, 1, &u32str(top_leaf));
    put(&mut bytes, 5, &u32str(leaf));
    put(&mut bytes, 9, message);
    let length = 9 + message.len();
    Body { bytes, length }
}

impl Entry {
    /// The record of the entry.
    pub fn body(&self) -> Body
        ensures { result ≡ entry_text self.now }
    {
        match self {
            Entry::Opens { top_leaf, key } => opening_body(*top_leaf, key),
            Entry::Binds {
                top_leaf,
                leaf,
                message,
            } => binding_body(*top_leaf, *leaf, message.as_slice()),
        }
    }
}

// Whether a record opens a bottom key.
fn is_opening(body: &[u8]) -> bool
    ensures value { result ≡ is_opening body.now }
    ensures length { result ≡ true → length body.now ≡ 61 }
{
    body.len() == 61 && body[0] == 1
}

// Whether a record binds a message.
fn is_binding(body: &[u8]) -> bool
    ensures value { result ≡ is_binding body.now }
    ensures least { result ≡ true → 10 ≤ length body.now }
    ensures most { result ≡ true → length body.now ≤ 137 }
{
    body.len() >= 10 && body.len() <= 137 && body[0] == 2
}

/// The entry that a record spells: 01, a number in four bytes and a key of 56 bytes; or 02, two such numbers and a
/// message of 1 to 128 bytes.
#[tactic(auto, unfolding(crate::specs::Entries::entry_in))]
pub fn entry_in(body: &[u8]) -> Option<Entry>
    ensures value { result ≡ entry_in body.now }
    ensures short { IfSome result (λ entry. length body.now ≤ 137) }
{
    if is_opening(body) {
        let mut key = [0; 56];
        key.copy_from_slice(&body[5..]);
        return Some(Entry::Opens {
            top_leaf: u32_at(body, 1),
            key,
        });
    }
    if is_binding(body) {
        return Some(Entry::Binds {
            top_leaf: u32_at(body, 1),
            leaf: u32_at(body, 5),
            message: Message::of(&body[9..]),
        });
    }
    None
}
