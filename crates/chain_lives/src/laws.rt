ghost use Rattle.std.specs.Prelude.{List, ℕ};
ghost use Rattle.plasma_tx.specs.Shown.{Rules};
ghost use Rattle.chain_lives.specs.Begun.{BeginningsAreLegal};
ghost use Rattle.chain_lives.specs.Entered.{EntriesAreLegal};
ghost use Rattle.chain_lives.specs.Log.{EventsHoldTheChain, EventsTellEachEntry};
ghost use Rattle.chain_lives.specs.CutChains.{ChainsWithCutsAreChains, ChainsAreChainsWithCuts, LivesWithCutsKeepTheirCoins};
ghost use Rattle.chain_lives.specs.Keeping.{ChainsAreLegal, LivesKeepTheirCoins, LivesHoldApart, LivesDueCallsAreTaken, LivesStartsAreTaken};
ghost use Rattle.world_rules.specs.Laws.{IsDigest};
ghost use Rattle.chain_lives.specs.SmallChain.{SmallChain};
ghost use Rattle.chain_lives.specs.SmallCutChain.{SmallChainWithCut};
ghost use Rattle.chain_lives.specs.Samples.{ReceivedWatchedSent, PowerIsLost, HastyIsWrong};

use crash_disk::Disk;

/// What two worked chains come to: a coin is received, watched through a stranger's exit, and sent; and power is lost
/// within a send and within an acceptance. A hasty reading, by which what was begun is done and what was said is heard,
/// gives other answers.
pub fn chains_are_read()
    ensures sent { ReceivedWatchedSent }
    ensures lost { PowerIsLost }
    ensures hasty { HastyIsWrong }
{}

/// A chain with its nodes, in which calls of the program may be cut off within, is one of the calls as which these are
/// taken: so each law of chains is one of chains with cuts. One whose calls all ended is a chain with cuts. And a coin
/// that a wallet holds and that was looked after is safe at each event of a chain with cuts, unless the events exhibit.
pub fn chains_with_cuts_are_chains<D: Disk>()
    ensures chains { (dig : List ℕ → List ℕ) (rules : Rules)
        → ChainsWithCutsAreChains D.told D.plan D.faults dig rules }
    ensures ended { (dig : List ℕ → List ℕ) (rules : Rules) → ChainsAreChainsWithCuts D.told D.plan D.faults dig rules }
    ensures safe { (dig : List ℕ → List ℕ) (rules : Rules)
        → LivesWithCutsKeepTheirCoins D.told D.plan D.faults dig rules }
{}

/// The calls that the events of a chain with its nodes accepted are those of the chain, in its order, whatever the
/// nodes did: no command of a node is one. And the events tell each call that was entered, accepted or refused.
pub fn events_hold_the_chain<D: Disk>()
    ensures accepted { (dig : List ℕ → List ℕ) (rules : Rules) → EventsHoldTheChain D.told D.plan D.faults dig rules }
    ensures entered { (dig : List ℕ → List ℕ) (rules : Rules) → EventsTellEachEntry D.told D.plan D.faults dig rules }
{}

/// A call that may be entered is legal after the events so far, whatever the nodes' next runs will find.
pub fn entries_are_legal<D: Disk>()
    ensures { (dig : List ℕ → List ℕ) (rules : Rules) → EntriesAreLegal D.told D.plan D.faults dig rules }
{}

/// Where a wallet was begun, its declaration is legal after the events so far: no event before is one of its.
pub fn beginnings_are_legal<D: Disk>()
    ensures { (dig : List ℕ → List ℕ) (rules : Rules) → BeginningsAreLegal D.told D.plan D.faults dig rules }
{}

/// The events of a chain with its nodes are legal, each after those before it: what nodes did in runs over files, with
/// any fault in them, cut off anywhere and with crashes between, is what the laws of coins ask of events.
pub fn chains_are_legal<D: Disk>()
    ensures { (dig : List ℕ → List ℕ) (rules : Rules) → ChainsAreLegal D.told D.plan D.faults dig rules }
{}

/// Lives keep their coins: for every chain with its nodes, whatever runs they made, with any fault, want of memory and
/// loss of power. A coin that a wallet holds and that was looked after is safe at each event, unless the events
/// exhibit; two wallets don't both hold it; and what a watch and a leave offer is taken.
pub fn lives_keep_their_coins<D: Disk>()
    ensures safe { (dig : List ℕ → List ℕ) (rules : Rules) → LivesKeepTheirCoins D.told D.plan D.faults dig rules }
    ensures one_holder { (dig : List ℕ → List ℕ) (rules : Rules) → LivesHoldApart D.told D.plan D.faults dig rules }
    ensures due_is_taken { (dig : List ℕ → List ℕ) (rules : Rules)
        → LivesDueCallsAreTaken D.told D.plan D.faults dig rules }
    ensures starts_are_taken { (dig : List ℕ → List ℕ) (rules : Rules)
        → LivesStartsAreTaken D.told D.plan D.faults dig rules }
{}

/// A small chain with a wallet is one: the wallet is begun, a run of it reads the log and watches, and it deposits a
/// coin, which it holds, and which is looked after. So the laws above speak of some.
pub fn a_small_chain_is_one()
    ensures { (dig : List ℕ → List ℕ) → IsDigest dig → SmallChain dig }
{}

/// A small chain with a wallet and a cut is one: power is lost as a run of the wallet ends, whose watch was answered.
/// So the laws of chains with cuts speak of some.
pub fn a_small_chain_with_a_cut_is_one()
    ensures { (dig : List ℕ → List ℕ) → IsDigest dig → SmallChainWithCut dig }
{}
