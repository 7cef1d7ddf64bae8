ghost use Rattle.std.specs.Prelude.{◌≡◌, ◌+◌, ◌≤◌, ◌++◌, true, length, take, IfSome};
ghost use Rattle.plasma_tx.specs.Spelling.{number_at};
ghost use Rattle.receipt_audit.specs.Promises.{begins_promise, is_promise, promise_at_start, promise_in, promise_text};

use leaf_journal::MessageKind;

/// The bytes of a promise.
pub const PROMISE_LENGTH: usize = 100;

/// An operator's promise that a signed transfer will be what a block has at its coin.
#[derive(Clone, Copy)]
pub struct Promise {
    /// The chain's tag.
    pub tag: [u8; 32],
    pub coin: u64,
    /// The block of the coin's transaction before, which the transfer spends.
    pub parent: u64,
    /// The digest of the signed transfer's bytes.
    pub digest: [u8; 32],
    /// How many blocks there were when it was issued.
    pub issued: u64,
    /// The last block that may be the first with the transfer.
    pub due: u64,
}

/// The number that the eight bytes at a place spell, the highest first.
pub fn number_at(bytes: &[u8], place: usize) -> u64
    requires { place + 8 ≤ length bytes.now }
    ensures { result ≡ number_at bytes.now place }
{
    let mut field = [0; 8];
    field.copy_from_slice(&bytes[place..place + 8]);
    u64::from_be_bytes(field)
}

/// Whether the bytes begin with the mark of a promise, and are long enough for one.
fn begins_promise(bytes: &[u8]) -> bool
    ensures { result ≡ begins_promise bytes.now }
{
    bytes.len() >= PROMISE_LENGTH && &bytes[..4] == b"PCR1".as_slice()
}

/// The promise that the bytes begin with.
fn promise_at_start(bytes: &[u8]) -> Promise
    requires { 100 ≤ length bytes.now }
    ensures { result ≡ promise_at_start bytes.now }
{
    let mut tag = [0; 32];
    tag.copy_from_slice(&bytes[4..36]);
    let mut digest = [0; 32];
    digest.copy_from_slice(&bytes[52..84]);
    Promise {
        tag,
        coin: number_at(bytes, 36),
        parent: number_at(bytes, 44),
        digest,
        issued: number_at(bytes, 84),
        due: number_at(bytes, 92),
    }
}

/// The promise with this tag that a receipt begins with; `None` exactly where there are under 100 bytes, or
/// they don't begin with `PCR1` and the tag. It takes no memory.
#[tactic(auto, unfolding(crate::specs::Promises::promise_in))]
pub fn promise_in(tag: &[u8; 32], receipt: &[u8]) -> Option<Promise>
    ensures value { result ≡ promise_in tag.now receipt.now }
    ensures long { IfSome result (λ _. 100 ≤ length receipt.now) }
{
    if begins_promise(receipt) && receipt[4..36] == tag[..] {
        Some(promise_at_start(receipt))
    } else {
        None
    }
}

/// Writes the bytes at a place, after which those from there on are free.
pub(crate) fn put(out: &mut [u8], place: usize, bytes: &[u8])
    requires { place + length bytes.now ≤ length out.old }
    ensures { take (place + length bytes.now) out.new ≡ take place out.old ++ bytes.now }
{
    out[place..place + bytes.len()].copy_from_slice(bytes);
}

/// Writes the bytes of a promise.
#[tactic(auto, unfolding(crate::specs::Promises::promise_text))]
fn put_promise(bytes: &mut [u8; 100], promise: &Promise)
    ensures { take 100 bytes.new ≡ promise_text promise.now }
{
    put(bytes, 0, b"PCR1");
    put(bytes, 4, &promise.tag);
    put(bytes, 36, &promise.coin.to_be_bytes());
    put(bytes, 44, &promise.parent.to_be_bytes());
    put(bytes, 52, &promise.digest);
    put(bytes, 84, &promise.issued.to_be_bytes());
    put(bytes, 92, &promise.due.to_be_bytes());
}

impl Promise {
    /// The 100 bytes of the promise: `PCR1`, the tag, the coin and the parent as u64, the digest, and the two
    /// blocks as u64. It takes no memory.
    #[tactic(auto, unfolding(crate::specs::Promises::promise_text))]
    pub fn write(&self) -> [u8; 100]
        ensures value { result ≡ promise_text self.now }
        ensures is_promise { is_promise result ≡ true }
    {
        let mut bytes = [0; 100];
        put_promise(&mut bytes, self);
        bytes
    }
}

/// What a desk's leaves bind: a promise, of whatever chain.
pub struct PromiseKind;

impl MessageKind for PromiseKind {
    ghost use Rattle.receipt_audit.specs.Promises.{is_promise};

    ghost is_message = { is_promise };

    fn is_message(message: &[u8]) -> bool {
        message.len() == PROMISE_LENGTH && begins_promise(message)
    }
}
