ghost use Rattle.std.specs.Prelude.{◌≡◌, ◌⊎◌, ◌+◌, ◌<◌, false, true, length, take, None, Some, IfOk, IfErr, IfSome};
ghost use Rattle.lms_sign.specs.Types.{leaf_count, signature_length};
ghost use Rattle.lms_sign.specs.Tree.{public_key_of};
ghost use Rattle.leaf_journal.specs.Records.{is_marked};
ghost use Rattle.plasma_tx.specs.Spelling.{body_text, body_at_start};
ghost use Rattle.node_rules.specs.WalletRecords.{secret_of, is_body};
ghost use Rattle.node_rules.specs.Wallet.{who, used, sent_by, again_by, send_body};
ghost use Rattle.wallet_node.specs.State.{stop_in, wallet_stop, DidLeaf};
ghost use Rattle.wallet_node.specs.Inside.{bind_refusal};

use super::node::WalletNode;
use super::role::body_of;
use crash_disk::Disk;
use leaf_journal::{BindRefusal, Bound};
use node_rules::{Sent, WalletRefusal};
use plasma_base::{Bytes, Hash32, NoMemory};
use plasma_tx::Body;
use wallet_core::LeafRecord;

impl<D: Disk, H: Hash32 + Copy> WalletNode<D, H> {
    // A message, and room for its signature behind it.
    fn with_room(&self, message: &[u8]) -> Result<Vec<u8>, NoMemory>
        ensures room { IfOk result (λ bytes. length bytes.items
            ≡ length message.now + signature_length (who self.now.records).types) }
        ensures front { IfOk result (λ bytes. take (length message.now) bytes.items ≡ message.now) }
    {
        let room = self.key.secret_key().signature_len();
        let Some(length) = message.len().checked_add(room) else {
            return Err(NoMemory);
        };
        let mut bytes = Vec::with_capacity(self.alloc, length)?;
        bytes.extend_from_slice(message)?;
        bytes.resize(length, 0)?;
        Ok(bytes)
    }

    // Signs the message that a leaf is bound to, in the room behind it.
    fn signed(&self, bound: Bound, bytes: Vec<u8>) -> Sent
        requires key { bound.key ≡ public_key_of (secret_of (who self.now.records)) }
        requires room { length bytes.items ≡ length bound.message + signature_length (who self.now.records).types }
        requires front { take (length bound.message) bytes.items ≡ bound.message }
        ensures { result ≡ sent_by (who self.now.records) bound.leaf bound.message }
    {
        let mut bytes = bytes;
        let q = bound.leaf();
        let place = bound.message().len();
        bound.sign(self.key.secret_key(), &mut bytes[place..]);
        Sent {
            q,
            bytes: Bytes::from_vec(bytes),
        }
    }

    // Binds the next leaf to a body, and signs it.
    pub(crate) fn send_body(&mut self, body: Body) -> Result<Sent, WalletRefusal>
        requires open { self.old.closed ≡ false }
        requires left { used self.old.records < leaf_count (who self.old.records).types }
        requires form { IfSome body.last (λ last. is_marked self.old.records.leaves ≡ true) }
        ensures answer { wallet_stop result ≡ None → result ≡ (send_body self.old.records body).answer }
        ensures did { DidLeaf D.told D.plan D.faults (send_body self.old.records body).leaf
            self.old (wallet_stop result) self.new }
    {
        let message = body.write();
        let body = read_back(&body, message.as_slice());
        let bytes = match self.with_room(message.as_slice()) {
            Ok(bytes) => bytes,
            Err(_) => return Err(WalletRefusal::NoMemory),
        };
        if self.bodies.reserve(1).is_err() {
            return Err(WalletRefusal::NoMemory);
        }
        match self.leaves.bind(message.as_slice()) {
            Ok(bound) => {
                self.bodies.push(LeafRecord { body }).unwrap();
                Ok(self.signed(bound, bytes))
            }
            Err(why) => Err(bind_refusal(why)),
        }
    }

    // The transfer that a bound leaf signs, again.
    pub(crate) fn signed_again(&self, q: u32) -> Result<Sent, WalletRefusal>
        requires { q < used self.now.records }
        ensures answer { wallet_stop result ≡ None → result ≡ again_by self.now.records (Some q) }
        ensures stops { IfErr result (λ why. (stop_in why ≡ None) ⊎ (why ≡ WalletRefusal.NoMemory)) }
    {
        let Some(bound) = self.leaves.again(q) else {
            return Err(WalletRefusal::NotSending);
        };
        match self.with_room(bound.message()) {
            Ok(bytes) => Ok(self.signed(bound, bytes)),
            Err(_) => Err(WalletRefusal::NoMemory),
        }
    }
}

// The body that is read from a body's bytes, which are a message that a leaf may bind.
fn read_back(body: &Body, message: &[u8]) -> Body
    requires { message.now ≡ body_text body.now }
    ensures read { result ≡ body_at_start message.now }
    ensures is_body { is_body message.now ≡ true }
    ensures tag { length body.now.tag ≡ 32 }
    ensures key { length body.now.to.key ≡ 56 }
{
    let tag: &[u8] = &body.tag;
    let key: &[u8] = &body.to.key;
    prove!(tag.len() == 32);
    prove!(key.len() == 56);
    let Some(read) = body_of(message) else {
        unreachable!();
    };
    read
}

// Why a leaf wasn't bound, as a refusal.
fn bind_refusal(why: BindRefusal) -> WalletRefusal
    ensures { result ≡ bind_refusal why }
{
    match why {
        BindRefusal::KeySpent { used } => WalletRefusal::KeySpent { used },
        BindRefusal::DeviceFault => WalletRefusal::DeviceFault,
        BindRefusal::Closed => WalletRefusal::Closed,
    }
}
