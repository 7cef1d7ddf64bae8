ghost use Rattle.std.specs.Prelude.{◌≡◌, ◌≤◌, ◌+◌, ◌++◌, ◌∷◌, [], true, false, length, take, OnOk};
ghost use Rattle.crash_disk.specs.Calls.{WhereTold};
ghost use Rattle.gate_journal.specs.Journal.{IsSettled};
ghost use Rattle.node_journal.specs.Begin.{BeginsPair};
ghost use Rattle.lms_sign.specs.Types.{is_supported};
ghost use Rattle.node_rules.specs.WalletRecords.{is_first, common_text, identity_text};

use super::node::WalletNode;
use super::records::is_first;
use crash_disk::Disk;
use gate_journal::InitRefusal;
use node_journal::begin_pair;
use node_rules::WalletIdentity;
use std::alloc::Global;

// Writes the bytes at a place, after which those from there on are free.
fn put(out: &mut [u8], place: usize, bytes: &[u8])
    requires { place + length bytes.now ≤ length out.old }
    ensures { take (place + length bytes.now) out.new ≡ take place out.old ++ bytes.now }
{
    out[place..place + bytes.len()].copy_from_slice(bytes);
}

// The tag, the account and the seed.
fn common_text(who: &WalletIdentity) -> [u8; 72]
    ensures { result ≡ common_text who.now }
{
    let mut bytes = [0; 72];
    put(&mut bytes, 0, &who.tag);
    put(&mut bytes, 32, &who.account.to_be_bytes());
    put(&mut bytes, 40, &who.seed);
    bytes
}

// The record of an identity of the first form.
#[tactic(auto, unfolding(node_rules::specs::WalletRecords::identity_text))]
fn first_text(who: &WalletIdentity) -> [u8; 73]
    requires { is_first who.now.types ≡ true }
    ensures { result ≡ identity_text who.now }
{
    let mut bytes = [0; 73];
    put(&mut bytes, 0, &[1]);
    put(&mut bytes, 1, &common_text(who));
    bytes
}

// The record of an identity of the second form.
#[tactic(auto, unfolding(node_rules::specs::WalletRecords::identity_text))]
fn second_text(who: &WalletIdentity) -> [u8; 81]
    requires { is_first who.now.types ≡ false }
    ensures { result ≡ identity_text who.now }
{
    let mut bytes = [0; 81];
    put(&mut bytes, 0, &[4]);
    put(&mut bytes, 1, &who.types.lms.to_be_bytes());
    put(&mut bytes, 5, &who.types.ots.to_be_bytes());
    put(&mut bytes, 9, &common_text(who));
    bytes
}

impl<D: Disk> WalletNode<D> {
    /// Begins a wallet: the journal of its notes and that of its leaves, and then its identity is appended to the
    /// notes, as `node_journal`'s `begin_pair`. The types have to be supported. At most sixteen device calls on
    /// each disk. A call that was stopped may be repeated.
    ///
    /// `AlreadyMade` comes exactly where an image spells one or more records, or spells no list of records and
    /// has more than five bytes, with its length, and the notes' where both are so. It yields to a `DeviceFault`
    /// of the same call, and to want of memory.
    pub fn init(
        alloc: Global,
        notes: D,
        leaves: D,
        who: &WalletIdentity,
    ) -> (D, D, Result<(), InitRefusal>)
        requires { is_supported who.now.types ≡ true }
        ensures inits { BeginsPair D.told D.plan D.faults D.told D.plan D.faults (identity_text who.now)
            notes leaves result.2 result.0 result.1 }
        ensures begun { OnOk result.2 (WhereTold (D.told result.0) (λ now. IsSettled now (identity_text who.now ∷ []))) }
        ensures empty { OnOk result.2 (WhereTold (D.told result.1) (λ now. IsSettled now [])) }
    {
        if is_first(who.types) {
            return begin_pair(alloc, notes, leaves, &first_text(who));
        }
        begin_pair(alloc, notes, leaves, &second_text(who))
    }
}
