ghost use Rattle.std.specs.Prelude.{◌≡◌, ℕ, Bool, true, List};

/// What a message may be, for a caller that asks more of it than its length: `Leaves::open_of` refuses a
/// journal with a message of another kind.
pub trait MessageKind {
    /// The test, as contracts see it.
    ghost is_message: { List ℕ → Bool };

    /// Whether a message is of the kind.
    fn is_message(message: &[u8]) -> bool
        ensures { result ≡ is_message message.now };
}

/// Every message.
pub struct EveryMessage;

impl MessageKind for EveryMessage {
    ghost use Rattle.leaf_journal.specs.Records.{every_message};

    ghost is_message = { every_message };

    fn is_message(_message: &[u8]) -> bool {
        true
    }
}
