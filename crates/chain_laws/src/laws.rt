ghost use Rattle.std.specs.Prelude.{List, ℕ};
ghost use Rattle.plasma_tx.specs.Shown.{Rules};
ghost use Rattle.chain_laws.specs.Lives.{LivesTipsStayOpen, LivesBondsComeBack, LivesReserveSuffices, LivesTimelyCoinsAreSafe, LivesGuardingCostsNothing, LivesLooksAreEnough};

use chain_lives::chains_are_legal;
use crash_disk::Disk;

/// What guarding takes in money, of wallets and watchers over their disks, run after run: a challenge that is due
/// stays open, its bond comes back, a reserve suffices, who leaves first needs none, and guarding costs nothing. The
/// words are those of `money_laws`, over the events of a chain with its nodes.
pub fn guarding_lives<D: Disk>()
    ensures open { (dig : List ℕ → List ℕ) (rules : Rules)
        → LivesTipsStayOpen D.told D.plan D.faults dig rules }
    ensures back { (dig : List ℕ → List ℕ) (rules : Rules) → LivesBondsComeBack D.told D.plan D.faults dig rules }
    ensures reserve { (dig : List ℕ → List ℕ) (rules : Rules)
        → LivesReserveSuffices D.told D.plan D.faults dig rules }
    ensures timely { (dig : List ℕ → List ℕ) (rules : Rules)
        → LivesTimelyCoinsAreSafe D.told D.plan D.faults dig rules }
    ensures ledger { (dig : List ℕ → List ℕ) (rules : Rules)
        → LivesGuardingCostsNothing D.told D.plan D.faults dig rules }
{
    chains_are_legal::<D>();
}

/// Looks that are made in time are enough, of wallets and watchers over their disks, run after run. The words are those
/// of `safety_laws`, over the events of a chain with its nodes.
pub fn looking_at_lives<D: Disk>()
    ensures { (dig : List ℕ → List ℕ) (rules : Rules) → LivesLooksAreEnough D.told D.plan D.faults dig rules }
{
    chains_are_legal::<D>();
}
