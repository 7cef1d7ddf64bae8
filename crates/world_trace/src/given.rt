ghost use Rattle.std.specs.Prelude.{◌≡◌, IfOk};
ghost use Rattle.node_replies.specs.declared.reply.Reply.{Reply};
ghost use Rattle.world_trace.specs.declared.event.LineEvent.{LineEvent};
ghost use Rattle.world_trace.specs.Events.{IsWatch};
ghost use Rattle.world_trace.specs.Orders.{TellsGiven, TellsFinished, bound_event, is_offering};
ghost use Rattle.world_trace.specs.Reading.{body_found};
ghost use Rattle.world_trace.specs.Told.{IsTold, operator_told, wallet_told, watcher_told};

use super::event::LineEvent;
use super::offered::coins_of;
use super::reading::{body_found, bundle_read};
use node_replies::{Given, NodeOrder, OperatorOrder, Reply, WalletOrder, WatcherOrder};
use plasma_base::NoMemory;
use plasma_tx::RootCall;
use std::alloc::Global;

/// The next leaf of wallet n's key binds the body that the bytes begin with.
pub(crate) fn bound(n: u64, bytes: &[u8]) -> LineEvent
    ensures { result ≡ bound_event n (body_found bytes.now) }
{
    match body_found(bytes) {
        Some(body) => LineEvent::Binds { wallet: n, body },
        None => LineEvent::Other { node: n },
    }
}

// Node n watched, and offers these calls.
fn watched(alloc: Global, n: u64, calls: &[RootCall]) -> Result<LineEvent, NoMemory>
    ensures { IfOk result (IsWatch n calls.now) }
{
    let coins = coins_of(alloc, calls)?;
    Ok(LineEvent::Watches { node: n, coins })
}

// The event of a wallet's order but a watch, by what it gave.
fn wallet_event(
    alloc: Global,
    n: u64,
    order: &WalletOrder,
    given: &Given,
) -> Result<LineEvent, NoMemory>
    ensures { IfOk result (λ event. event ≡ wallet_told n order.now given.now.reply given.now.made) }
{
    match (order, &given.reply) {
        (WalletOrder::Accept { bundle }, Reply::Accepted { .. }) => Ok(LineEvent::Accepts {
            wallet: n,
            bundle: bundle_read(alloc, bundle.as_slice())?,
        }),
        (WalletOrder::Send { .. }, Reply::Sent { .. }) => Ok(bound(n, given.made.as_slice())),
        (WalletOrder::Reclaim { bundle }, Reply::Reclaimed { leaf, .. }) => Ok(
            LineEvent::TakesBack {
                wallet: n,
                leaf: *leaf,
                bundle: bundle_read(alloc, bundle.as_slice())?,
            },
        ),
        _ => Ok(LineEvent::Other { node: n }),
    }
}

// The event of a watcher's order but a watch, by its answer.
fn watcher_event(
    alloc: Global,
    n: u64,
    order: &WatcherOrder,
    reply: &Reply,
) -> Result<LineEvent, NoMemory>
    ensures { IfOk result (λ event. event ≡ watcher_told n order.now reply.now) }
{
    match (order, reply) {
        (WatcherOrder::Guard { bundle }, Reply::Guarded { .. }) => Ok(LineEvent::Guards {
            watcher: n,
            bundle: bundle_read(alloc, bundle.as_slice())?,
        }),
        (WatcherOrder::Release { coin, tip }, Reply::Released) => Ok(LineEvent::Releases {
            watcher: n,
            coin: *coin,
            tip: *tip,
        }),
        _ => Ok(LineEvent::Other { node: n }),
    }
}

// The event of an order of the operator, by its answer.
fn operator_event(n: u64, order: &OperatorOrder, reply: &Reply) -> LineEvent
    ensures { result ≡ operator_told n order.now reply.now }
{
    match (order, reply) {
        (OperatorOrder::Seal, Reply::Sealed { .. }) => LineEvent::Other { node: 0 },
        _ => LineEvent::Other { node: n },
    }
}

// The event of an order of node n that a node that is up gave this for.
fn event_told(
    alloc: Global,
    n: u64,
    order: &NodeOrder,
    given: &Given,
) -> Result<LineEvent, NoMemory>
    ensures { IfOk result (IsTold n order.now given.now) }
{
    match order {
        NodeOrder::Wallet(WalletOrder::Watch) => watched(alloc, n, &given.offers),
        NodeOrder::Wallet(order) => wallet_event(alloc, n, order, given),
        NodeOrder::Watcher(WatcherOrder::Watch) => watched(alloc, n, &given.offers),
        NodeOrder::Watcher(order) => watcher_event(alloc, n, order, &given.reply),
        NodeOrder::Operator(order) => Ok(operator_event(n, order, &given.reply)),
        NodeOrder::Open => Ok(LineEvent::Other { node: n }),
    }
}

/// The event of an order of node n that was done and gave this. A node that was down, and answered so, did nothing.
/// `NoMemory` is its one refusal.
pub fn event_of_given(
    alloc: Global,
    n: u64,
    order: &NodeOrder,
    given: &Given,
) -> Result<LineEvent, NoMemory>
    ensures done { IfOk result (TellsGiven n order.now given.now) }
    ensures down { given.now.reply ≡ Reply.Down → IfOk result (λ event. event ≡ LineEvent.Idle) }
{
    match given.reply {
        Reply::Down => Ok(LineEvent::Idle),
        _ => event_told(alloc, n, order, given),
    }
}

/// The event of an order of node n that was done before a crash and gave this: the node then offers nothing.
pub fn event_of_finished(
    alloc: Global,
    n: u64,
    order: &NodeOrder,
    given: &Given,
) -> Result<LineEvent, NoMemory>
    ensures { IfOk result (TellsFinished n order.now given.now) }
{
    if is_offering(order) {
        return Ok(LineEvent::Other { node: n });
    }
    event_of_given(alloc, n, order, given)
}

// Whether the order leaves nothing but offers.
fn is_offering(order: &NodeOrder) -> bool
    ensures { result ≡ is_offering order.now }
{
    matches!(
        order,
        NodeOrder::Wallet(WalletOrder::Watch)
            | NodeOrder::Watcher(WatcherOrder::Watch)
            | NodeOrder::Operator(OperatorOrder::Seal)
    )
}
