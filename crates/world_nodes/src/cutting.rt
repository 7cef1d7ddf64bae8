ghost use Rattle.std.specs.Prelude.{◌≡◌, ◌-◌, ◌<◌, ◌≤◌, min, ℕ, [], length, true, false, IfOk, OnOk, OnErr};
ghost use Rattle.crash_disk.specs.Outcomes.{HasPattern};
ghost use Rattle.crash_disk.specs.Memory.{with_fuse};
ghost use Rattle.node_replies.specs.declared.order.NodeOrder.{NodeOrder};
ghost use Rattle.world_nodes.specs.Orders.{fits, is_opening_order, IsFit};
ghost use Rattle.world_nodes.specs.Nodes.{role_of, declared_as, answers_down, Spells};
ghost use Rattle.world_nodes.specs.Cuts.{Cuts};
ghost use Rattle.world_nodes.specs.Inside.{down_halves, down_kind, end_in, HaveJournals, MayOpen, IsToStop, IsCutShort, IsCutOpening};

use super::boxed::BoxedSite;
use super::down::{DownNode, are_bytes};
use super::entry::{Entry, closed_of, down_of, offer_nothing, put, take};
use super::kept::{Counts, count_records, kept_record};
use super::order::CutEnd;
use super::up::{counts, run_up};
use crash_disk::Outcome;
use node_journal::Stop;
use node_replies::{Given, NodeOrder, Reply, WalletOrder, WatcherOrder, says};
use plasma_base::{Hash32, NoMemory};
use plasma_tx::RootLog;
use std::alloc::Global;

// What is left of an order that was cut: the disks, and what it gave, where no device fault stopped it.
#[derive(Drop)]
struct CutShort {
    down: DownNode,
    given: Option<Given>,
}

// What is left of an opening that was cut: the disks, and how it ended.
#[derive(Drop)]
struct CutOpening {
    down: DownNode,
    end: CutEnd,
}

// What the type of a key says of it. It does nothing.
fn is_key(key: [u8; 56])
    ensures { length key ≡ 56 }
{
    let _ = key;
}

// What the types of an order's parts say of them. It does nothing.
fn is_fit(order: &NodeOrder)
    ensures { IsFit order.now }
{
    match order {
        NodeOrder::Wallet(WalletOrder::Accept { bundle }) => are_bytes(bundle.as_slice()),
        NodeOrder::Wallet(WalletOrder::Send { to, .. }) => is_key(to.key),
        NodeOrder::Wallet(WalletOrder::Reclaim { bundle }) => are_bytes(bundle.as_slice()),
        NodeOrder::Watcher(WatcherOrder::Guard { bundle }) => are_bytes(bundle.as_slice()),
        _ => {}
    }
}

// A fuse that lets an opening and so many further calls of four pass.
fn fuse_of(calls: u64) -> u64
    ensures rest { min 4 (result - 3) ≡ min 4 calls }
    ensures opening { 3 ≤ result }
{
    calls.saturating_add(3)
}

// Opens disks and runs an order on their node, as far as they let it.
fn run_cut<H: Hash32 + Copy>(
    alloc: Global,
    hash: H,
    down: DownNode,
    log: &RootLog,
    order: &NodeOrder,
) -> Result<CutShort, NoMemory>
    requires fits { fits (role_of (down_kind down)) order.now ≡ true }
    requires is_command { is_opening_order order.now ≡ false }
    requires may_open { MayOpen (H.digest_of hash) down }
    ensures { IfOk result (λ cut.
        IsCutShort H (H.digest_of hash) log.now.log order.now down cut.given cut.down) }
{
    let mut node = down.open_up(alloc, hash)?;
    let ran = run_up(alloc, &mut node, log, order);
    let down = node.take_down();
    match ran {
        Ok(given) => Ok(CutShort {
            down,
            given: Some(given),
        }),
        Err(stop) => match stop {
            Stop::DeviceFault => Ok(CutShort { down, given: None }),
            Stop::NoMemory => Err(NoMemory),
            Stop::Closed => unreachable!(),
        },
    }
}

// Opens disks that let so many device calls pass.
fn open_cut<H: Hash32 + Copy>(
    alloc: Global,
    hash: H,
    down: DownNode,
    calls: u64,
) -> Result<CutOpening, NoMemory>
    requires stops { calls < 3 → IsToStop H (H.digest_of hash) down }
    requires opens { 3 ≤ calls → MayOpen (H.digest_of hash) down }
    ensures { IfOk result (λ cut. IsCutOpening H (H.digest_of hash) calls down cut.end cut.down) }
{
    if calls < 3 {
        let down = down.stop_up(alloc, hash)?;
        return Ok(CutOpening {
            down,
            end: CutEnd::Stopped { kept: None },
        });
    }
    let node = down.open_up(alloc, hash)?;
    let (notes, leaves) = counts(&node);
    Ok(CutOpening {
        down: node.take_down(),
        end: CutEnd::Done {
            given: says(alloc, Reply::Opened { notes, leaves }),
        },
    })
}

// How an order ended whose disks crashed, and held so many records before it.
fn end_of(
    alloc: Global,
    down: &DownNode,
    before: &Counts,
    given: Option<Given>,
) -> Result<CutEnd, NoMemory>
    requires { HaveJournals (down_halves down.now) }
    ensures { IfOk result (λ end. end ≡ end_in before.now (down_halves down.now) given) }
{
    match given {
        Some(given) => Ok(CutEnd::Done { given }),
        None => {
            let kept = kept_record(alloc, down, before)?;
            Ok(CutEnd::Stopped { kept })
        }
    }
}

impl<H: Hash32 + Copy> Entry<H> {
    /// Runs an order of the node of which so many device calls may pass: those of an append of a node that is
    /// up, or on each disk those of an opening of one that is down. Then the node goes down, and each of its
    /// disks crashes with this outcome. The bytes of a mix aren't empty.
    ///
    /// The order is `Stopped` where it needs more calls, and then the record that the crash left of it is told;
    /// else it is `Done`, but offers nothing. A node that is down does no order but the one that opens it: it
    /// is `Down`, takes no memory, and nothing changes. `NoMemory` may lose the node.
    pub fn cut(
        &mut self,
        log: &RootLog,
        order: &NodeOrder,
        calls: u64,
        outcome: &Outcome,
    ) -> Result<CutEnd, NoMemory>
        requires fits { fits self.old.node.role order.now ≡ true }
        requires pattern { HasPattern outcome.now }
        requires spells { Spells self.old }
        ensures cuts { IfOk result (λ end.
            Cuts (H.digest_of self.old.hash) log.now.log calls outcome.now order.now self.old end self.new) }
        ensures memory { OnErr result (answers_down order.now self.old.node ≡ false) }
        ensures spells { OnOk result (Spells self.new) }
        ensures hash { self.new.hash ≡ self.old.hash }
        ensures declared { declared_as self.new.node ≡ declared_as self.old.node }
    {
        match (order, self.is_up()) {
            (NodeOrder::Open, true) => {
                self.crash(outcome)?;
                Ok(CutEnd::Done {
                    given: says(self.alloc, Reply::Up),
                })
            }
            (NodeOrder::Open, false) => self.cut_opening(calls, outcome),
            (_, true) => self.cut_up(log, order, calls, outcome),
            (_, false) => Ok(CutEnd::Down),
        }
    }

    // Cuts the opening of a node that is down.
    fn cut_opening(&mut self, calls: u64, outcome: &Outcome) -> Result<CutEnd, NoMemory>
        requires pattern { HasPattern outcome.now }
        requires spells { Spells self.old }
        requires is_down { self.old.node.is_up ≡ false }
        ensures cuts { IfOk result (λ end.
            Cuts (H.digest_of self.old.hash) [] calls outcome.now NodeOrder.Open self.old end self.new) }
        ensures spells { OnOk result (Spells self.new) }
        ensures hash { self.new.hash ≡ self.old.hash }
        ensures declared { declared_as self.new.node ≡ declared_as self.old.node }
    {
        self.is_of_role();
        let site = take(&mut self.site);
        let down = closed_of(site);
        let opened = open_cut(self.alloc, self.hash, down.fuse(calls), calls)?;
        let CutOpening { down, end } = opened;
        let down = down.crash(outcome)?;
        let kept = BoxedSite::down(self.alloc, down)?;
        put(&mut self.site, kept);
        offer_nothing(&mut self.offers);
        Ok(end)
    }

    // Cuts an order of a node that is up.
    fn cut_up(
        &mut self,
        log: &RootLog,
        order: &NodeOrder,
        calls: u64,
        outcome: &Outcome,
    ) -> Result<CutEnd, NoMemory>
        requires fits { fits self.old.node.role order.now ≡ true }
        requires is_command { is_opening_order order.now ≡ false }
        requires pattern { HasPattern outcome.now }
        requires is_up { self.old.node.is_up ≡ true }
        requires spells { Spells self.old }
        ensures cuts { IfOk result (λ end.
            Cuts (H.digest_of self.old.hash) log.now.log calls outcome.now order.now self.old end self.new) }
        ensures spells { OnOk result (Spells self.new) }
        ensures hash { self.new.hash ≡ self.old.hash }
        ensures declared { declared_as self.new.node ≡ declared_as self.old.node }
    {
        self.is_of_role();
        is_fit(order);
        log.blocks();
        let site = take(&mut self.site);
        let down = down_of(site);
        down.are_bytes();
        let before = count_records(self.alloc, &down)?;
        let cut = run_cut(self.alloc, self.hash, down.fuse(fuse_of(calls)), log, order)?;
        let CutShort { down, given } = cut;
        let down = down.crash(outcome)?;
        let end = end_of(self.alloc, &down, &before, given)?;
        let kept = BoxedSite::down(self.alloc, down)?;
        put(&mut self.site, kept);
        offer_nothing(&mut self.offers);
        Ok(end)
    }
}
