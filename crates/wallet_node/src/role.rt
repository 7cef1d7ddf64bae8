ghost use Rattle.std.specs.Prelude.{◌≡◌};
ghost use Rattle.wallet_node.specs.Inside.{body_of};

use super::records::{identity_in, read_note};
use leaf_journal::MessageKind;
use node_journal::Role;
use plasma_base::{Hash32, NoMemory};
use plasma_tx::Body;
use std::alloc::Global;

/// The role of a wallet's notes, under a digest.
#[derive(Clone, Copy)]
pub struct WalletRole<H> {
    pub hash: H,
}

impl<H: Hash32 + Copy> Role for WalletRole<H> {
    ghost use Rattle.node_rules.specs.WalletRecords.{wallet_kinds};

    ghost kinds = { λ role. wallet_kinds (H.digest_of role.hash) };

    fn is_identity(&self, body: &[u8]) -> bool {
        identity_in(body).is_some()
    }

    fn is_note(&self, alloc: Global, identity: &[u8], body: &[u8]) -> Result<bool, NoMemory> {
        match identity_in(identity) {
            Some(who) => Ok(read_note(alloc, &self.hash, &who.tag, body)?.is_some()),
            None => Ok(false),
        }
    }
}

// The body that a leaf's message spells, of whatever chain; `None` where it spells none.
pub fn body_of(message: &[u8]) -> Option<Body>
    ensures { result ≡ body_of message.now }
{
    if message.len() < 36 {
        return None;
    }
    let length = if message.starts_with(b"PCT2") {
        124
    } else {
        116
    };
    let mut tag = [0; 32];
    tag.copy_from_slice(&message[4..36]);
    match Body::read(&tag, message) {
        Ok(body) if message.len() == length => Some(body),
        _ => None,
    }
}

/// What a wallet's leaves bind: a transfer's body of either form.
pub struct TransferBody;

impl MessageKind for TransferBody {
    ghost use Rattle.node_rules.specs.WalletRecords.{is_body};

    ghost is_message = { is_body };

    fn is_message(message: &[u8]) -> bool {
        body_of(message).is_some()
    }
}
