ghost use Rattle.std.specs.Prelude.{◌≡◌, ◌≤◌, ◌+◌, ◌++◌, ◌∷◌, [], length, take, OnOk};
ghost use Rattle.plasma_base.specs.Causes.{faults_after};
ghost use Rattle.crash_disk.specs.Calls.{WhereTold};
ghost use Rattle.gate_journal.specs.Journal.{IsSettled};
ghost use Rattle.node_journal.specs.Begin.{init_steps, Inits, is_init_fault};
ghost use Rattle.node_rules.specs.Watcher.{identity_text};

use super::node::WatcherNode;
use crash_disk::Disk;
use gate_journal::InitRefusal;
use node_journal::begin;
use std::alloc::Global;

// Writes the bytes at a place, after which those from there on are free.
fn put(out: &mut [u8], place: usize, bytes: &[u8])
    requires { place + length bytes.now ≤ length out.old }
    ensures { take (place + length bytes.now) out.new ≡ take place out.old ++ bytes.now }
{
    out[place..place + bytes.len()].copy_from_slice(bytes);
}

// The record of an identity.
#[tactic(auto, unfolding(node_rules::specs::Watcher::identity_text))]
fn identity_text(tag: &[u8; 32], account: u64) -> [u8; 41]
    ensures { result ≡ identity_text (record { tag = tag.now; account = account }) }
{
    let mut bytes = [0; 41];
    put(&mut bytes, 0, &[17]);
    put(&mut bytes, 1, tag);
    put(&mut bytes, 33, &account.to_be_bytes());
    bytes
}

impl<D: Disk> WatcherNode<D> {
    /// Begins the journal of a watcher with this account, of the chain with this tag. At `Ok` each image that
    /// a crash may leave spells the identity alone. At most sixteen device calls. A call that was stopped may
    /// be repeated. `AlreadyMade` comes where the image spells one or more records, or spells no list of
    /// records and has more than five bytes; it yields to a `DeviceFault` of the same call.
    pub fn init(
        alloc: Global,
        notes: D,
        tag: [u8; 32],
        account: u64,
    ) -> (D, Result<(), InitRefusal>)
        ensures inits { Inits D.told D.plan (init_steps (identity_text (record { tag = tag; account = account })))
            notes result.1 result.0 }
        ensures begun { OnOk result.1 (WhereTold (D.told result.0) (λ now.
            IsSettled now (identity_text (record { tag = tag; account = account }) ∷ []))) }
        ensures cause { D.faults result.0 ≡ faults_after (D.faults notes) (is_init_fault result.1) }
    {
        let identity = identity_text(&tag, account);
        begin(alloc, notes, &identity)
    }
}
