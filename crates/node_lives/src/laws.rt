ghost use Rattle.std.specs.Prelude.{List, ℕ};
ghost use Rattle.node_lives.specs.Cuts.{CutsAreFaults};
ghost use Rattle.node_lives.specs.CutLaws.{LawsThroughCuts};
ghost use Rattle.node_lives.specs.Moments.{EndsMayBeCut, InitsMayBeCut, OpeningsMayBeCut, SessionsMayBeCut};
ghost use Rattle.node_lives.specs.Samples.{SmallLife};
ghost use Rattle.node_lives.specs.CutSample.{SmallLifeWithCut};
ghost use Rattle.node_lives.specs.Laws.{IdentitiesAreOfTheirRoles, BegunNodesStay, RunsWriteTheirAnswers, AnsweredRecordsStand, LeavesGiveOutOneMessage};

use crash_disk::Disk;

/// Once a wallet, a watcher or an operator, with a key or without one, was begun, each later call finds it, whatever
/// came between: runs of any role with any input, broken off by any fault or for want of memory, inits, and crashes. No
/// run of its role is refused as no journal, no init begins one again, and each image that a crash may leave of its
/// disks keeps its identity, and records of its role.
pub fn begun_nodes_stay<D: Disk>()
    ensures { (dig : List ℕ → List ℕ) → BegunNodesStay D.told D.plan D.faults dig }
{}

/// The records of the lines that a run of a wallet, a watcher or an operator answered stand in every later call since:
/// in each image that a crash may leave of the disks that it is handed, and in front of what a later run of the role
/// finds.
pub fn answered_records_stand<D: Disk>()
    ensures { (dig : List ℕ → List ℕ) → AnsweredRecordsStand D.told D.plan D.faults dig }
{}

/// All that a leaf of a wallet's key gave out since the wallet was begun, in one run or in several, is one message with
/// one signature: no leaf signs two messages.
pub fn leaves_give_out_one_message<D: Disk>()
    ensures { (dig : List ℕ → List ℕ) → LeavesGiveOutOneMessage D.told D.plan D.faults dig }
{}

/// What a run of a node wrote is a beginning of its answers, or all of them and a beginning of what it says of its end.
/// So a byte of an answer is written of a line alone whose record stands in every later call.
pub fn runs_write_their_answers<D: Disk>()
    ensures { (dig : List ℕ → List ℕ) → RunsWriteTheirAnswers D.told D.plan D.faults dig }
{}

/// The bytes of an identity are one of its role, where its fields are of their types, and where an operator's has a
/// key, the digests have 32 bytes.
pub fn identities_are_of_their_roles()
    ensures { (dig : List ℕ → List ℕ) → IdentitiesAreOfTheirRoles dig }
{}

/// A small life of a wallet is a life, so the laws above speak of some: a device fault stops an init, the next one
/// makes the wallet, a fault breaks off a run as its record is added, and a crash follows; the next run adds the record
/// and is answered, and a last one finds it.
pub fn a_small_life_is_one()
    ensures { (dig : List ℕ → List ℕ) → SmallLife dig }
{}

/// What a crash leaves at the moment of a cut is among what a crash leaves of a call that faults broke off there. So a
/// life with calls that were cut off is a life of calls that ended, and all laws of lives hold of it.
pub fn cuts_are_faults<D: Disk>()
    ensures { (dig : List ℕ → List ℕ) → CutsAreFaults D.told D.plan D.faults dig }
{}

/// The laws of lives hold where calls were cut off: a node that was begun is found, answered records stand, and a leaf
/// of a wallet's key gives out one message, in calls that ended and in those that were cut off.
pub fn laws_hold_through_cuts<D: Disk>()
    ensures { (dig : List ℕ → List ℕ) → LawsThroughCuts D.told D.plan D.faults dig }
{}

/// A call that ended may be cut off at its end.
pub fn ends_may_be_cut()
    ensures { (dig : List ℕ → List ℕ) → EndsMayBeCut dig }
{}

/// An init, of the notes alone or of both disks, may be cut off before each of its device calls.
pub fn inits_may_be_cut()
    ensures { (dig : List ℕ → List ℕ) → InitsMayBeCut dig }
{}

/// A run of a node may be cut off within the opening of its notes, and within that of its leaves.
pub fn openings_may_be_cut()
    ensures { (dig : List ℕ → List ℕ) → OpeningsMayBeCut dig }
{}

/// Behind an opening that went through a run of a node may be cut off at each moment of its session, told without a
/// fault: behind lines that it answered, within the appends of the next command, or behind these.
pub fn sessions_may_be_cut()
    ensures { (dig : List ℕ → List ℕ) → SessionsMayBeCut dig }
{}

/// A small life of a wallet with a cut is one: power is lost as the gate of a record is written, and the next run finds
/// the record or not.
pub fn a_small_life_with_a_cut_is_one()
    ensures { (dig : List ℕ → List ℕ) → SmallLifeWithCut dig }
{}
