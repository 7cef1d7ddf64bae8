ghost use Rattle.std.specs.Prelude.{◌≡◌};

use plasma_base::Bytes;
use std::marker::Model;

/// What a line of a schedule is answered: one variant for each answer, with its numbers.
#[derive(Drop)]
pub enum Reply {
    /// The chain begins.
    Chain,
    /// A wallet was declared.
    Wallet,
    /// A watcher was declared.
    Watcher,
    /// A rogue was declared.
    Rogue,
    /// Money came to an account.
    Funded,
    /// The clock was set.
    Ticked,
    /// A deposit made this coin in this block.
    Deposited { coin: u64, block: u64 },
    /// This block was committed.
    Committed { block: u64 },
    /// An exit stands, which may be finished from this time, in seconds.
    Started { opens: u64 },
    /// An exit was cancelled.
    Cancelled,
    /// An exit was challenged; the challenge may be answered before this time, in seconds.
    Challenged { until: u64 },
    /// A challenge was answered.
    Responded,
    /// An exit was paid.
    Paid,
    /// An exit was dropped.
    Dropped,
    /// The balance that was asked for.
    Money { balance: u64 },
    /// The node has no such offer.
    Nothing,
    /// A wallet accepted the coin at this tip.
    Accepted { coin: u64, tip: u64 },
    /// A watcher guards the coin at this tip.
    Guarded { coin: u64, tip: u64 },
    /// A wallet gave out a transfer that this leaf of its key signs.
    Sent { leaf: u32 },
    /// A wallet leaves from this tip, and offers the start of the exit.
    Leaving { tip: u64 },
    /// A watcher let a guard go.
    Released,
    /// A wallet took back the transfer of this coin that this leaf signed.
    Reclaimed { coin: u64, leaf: u32 },
    /// A wallet's journal of leaves got its marker.
    Migrated,
    /// The calls that a node offers, by their kinds.
    Offers { kinds: OfferKinds },
    /// The operator took a transfer of this coin into the pool.
    Pooled { coin: u64 },
    /// Bytes were laid at this coin.
    Laid { coin: u64 },
    /// The pool was made a tree of so many leaves.
    Sealed { leaves: u64 },
    /// A bundle up to this block was made.
    Bundled { tip: u64 },
    /// An opening was made.
    Proved,
    /// A rogue signed.
    Signed,
    /// A node's disks crashed.
    Crashed,
    /// A command was cut short.
    Stopped,
    /// A node was opened: how many records it has without the identity, and how many leaves bind a message.
    Opened { notes: u64, leaves: u64 },
    /// The node was up already.
    Up,
    /// The node is down.
    Down,
    /// The line was refused, for this cause.
    Refused { cause: Bytes },
}

/// The kinds of call that a watch may offer.
#[derive(Clone, Copy, PartialEq, Eq)]
pub enum OfferKind {
    After,
    Between,
    Before,
    Respond,
}

/// The kinds of offered calls in order, which contracts see as a list.
#[derive(Drop)]
pub struct OfferKinds {
    items: Vec<OfferKind>,
}

impl Model for OfferKinds {
    ghost use Rattle.std.specs.Prelude.{List};
    ghost use Rattle.node_replies.specs.declared.reply.OfferKind.{OfferKind};

    ghost Value = { List OfferKind };

    ghost view = { λ kinds. kinds.items.items };
}

impl OfferKinds {
    /// The kinds of a vector. It takes no memory.
    pub fn from_vec(items: Vec<OfferKind>) -> OfferKinds
        ensures { result ≡ items.items }
    {
        OfferKinds { items }
    }

    /// The kinds, lent.
    pub fn as_slice(&self) -> &[OfferKind]
        ensures { result.now ≡ self.now }
    {
        self.items.as_slice()
    }
}
