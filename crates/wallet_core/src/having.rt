ghost use Rattle.std.specs.Prelude.{◌≡◌, ◌==◌, ◌&&◌, ◌||◌, true, ℕ, IfOk, OnOk, OnErr};
ghost use Rattle.std.specs.Ordering.{nat_cmp};
ghost use Rattle.std.specs.BTreeSet.{contains, IsOrdered};
ghost use Rattle.plasma_tx.specs.Views.{is_exiting};
ghost use Rattle.wallet_core.specs.State.{may_have, HasOwnExit};
ghost use Rattle.wallet_core.specs.Laws.{OtherCoinsAreNothing};

use super::notes::Notes;
use plasma_base::NoMemory;
use plasma_tx::RootLog;
use std::alloc::Global;
use std::collections::BTreeSet;

// Adds a coin where an exit of it stands.
fn insert_exiting(own: &mut BTreeSet<u64>, log: &RootLog, coin: u64) -> Result<(), NoMemory>
    ensures coins { OnOk result ((c : ℕ)
        → contains nat_cmp own.new c ≡ (contains nat_cmp own.old c || ((coin == c) && is_exiting log.now.log c))) }
    ensures memory { OnErr result (is_exiting log.now.log coin ≡ true) }
{
    if log.exiting().contains(&coin) {
        own.insert(coin)?;
    }
    Ok(())
}

/// The coins of which an exit stands among those that the wallet accepted or its account deposited, rising: each
/// other coin is `Nothing` to it. `NoMemory` is its one refusal, and comes only where there is such a coin.
pub fn own_exiting(alloc: Global, notes: &Notes, log: &RootLog) -> Result<BTreeSet<u64>, NoMemory>
    ensures coins { IfOk result (λ own. (c : ℕ)
        → contains nat_cmp own c ≡ (may_have notes.now log.now.log c && is_exiting log.now.log c)) }
    ensures rising { IfOk result (λ own. IsOrdered nat_cmp own) }
    ensures memory { OnErr result (HasOwnExit notes.now log.now.log) }
{
    let mut own = BTreeSet::new(alloc);
    for coin in log.deposits(notes.me.account) {
        insert_exiting(&mut own, log, *coin)?;
    }
    for note in notes.accepted.as_slice() {
        insert_exiting(&mut own, log, note.coin)?;
    }
    // Gives the proof that they rise.
    let _count = own.len();
    Ok(own)
}

/// A law: a coin is `Nothing` to a wallet that neither accepted it nor has its depositor's account.
pub fn other_coins_are_nothing()
    ensures { OtherCoinsAreNothing }
{}
