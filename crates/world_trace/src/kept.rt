ghost use Rattle.std.specs.Prelude.{◌≡◌, length, IfOk};
ghost use Rattle.world_trace.specs.Orders.{TellsStopped};
ghost use Rattle.world_trace.specs.Told.{HasKey, kept_told};

use super::event::LineEvent;
use super::given::bound;
use super::reading::{bundle_read, leaf_at_end, message_in};
use node_replies::{NodeOrder, WalletOrder, WatcherOrder};
use plasma_base::{Bytes, NoMemory};
use plasma_tx::Owner;
use std::alloc::Global;

// The event of an order of node n of which this record is kept.
fn event_of_kept(
    alloc: Global,
    n: u64,
    order: &NodeOrder,
    record: &[u8],
) -> Result<LineEvent, NoMemory>
    ensures { IfOk result (λ event. event ≡ kept_told n order.now «record».now) }
{
    Ok(match order {
        NodeOrder::Wallet(WalletOrder::Accept { bundle }) => LineEvent::Accepts {
            wallet: n,
            bundle: bundle_read(alloc, bundle.as_slice())?,
        },
        NodeOrder::Wallet(WalletOrder::Send { .. }) => bound(n, message_in(record)),
        NodeOrder::Wallet(WalletOrder::Reclaim { bundle }) => LineEvent::TakesBack {
            wallet: n,
            leaf: leaf_at_end(record),
            bundle: bundle_read(alloc, bundle.as_slice())?,
        },
        NodeOrder::Watcher(WatcherOrder::Guard { bundle }) => LineEvent::Guards {
            watcher: n,
            bundle: bundle_read(alloc, bundle.as_slice())?,
        },
        NodeOrder::Watcher(WatcherOrder::Release { coin, tip }) => LineEvent::Releases {
            watcher: n,
            coin: *coin,
            tip: *tip,
        },
        _ => LineEvent::Other { node: n },
    })
}

// An owner's key has 56 bytes, by its type.
fn owner_has_key(owner: Owner)
    ensures { length owner.key ≡ 56 }
{
    let _ = owner;
}

// So has that of an owner that an order sends to.
fn order_has_key(order: &NodeOrder)
    ensures { HasKey order.now }
{
    if let NodeOrder::Wallet(WalletOrder::Send { to, .. }) = order {
        owner_has_key(*to);
    }
}

/// The event of an order of node n that was stopped, of which the crash left this record, or none. `NoMemory` is
/// its one refusal.
pub fn event_of_stopped(
    alloc: Global,
    n: u64,
    order: &NodeOrder,
    kept: &Option<Bytes>,
) -> Result<LineEvent, NoMemory>
    ensures { IfOk result (TellsStopped n order.now kept.now) }
{
    match kept {
        Some(record) => {
            order_has_key(order);
            event_of_kept(alloc, n, order, record.as_slice())
        }
        None => Ok(LineEvent::Other { node: n }),
    }
}
