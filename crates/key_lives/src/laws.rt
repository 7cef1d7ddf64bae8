ghost use Rattle.std.specs.Prelude.{List, ℕ};
ghost use Rattle.key_lives.specs.DeskLaws.{DesksPromiseOnce};
ghost use Rattle.key_lives.specs.CutLaws.{KeysThroughCuts};
ghost use Rattle.key_lives.specs.DeskSample.{SmallDeskLifeIsOne};
ghost use Rattle.key_lives.specs.Moments.{SigningsMayBeCut};
ghost use Rattle.key_lives.specs.SignerSample.{SmallSignerLife};
ghost use Rattle.key_lives.specs.SignerLaws.{BegunSignersStay, SignedRecordsStand, SignersSignOnce, SigningsWriteTheirAnswers};

use crash_disk::Disk;

/// Once a two-level signer was begun, each later call finds it, whatever came between: signings of any message, runs of
/// nodes, broken off by any fault or for want of memory, inits, and crashes. No signing is refused as no journal, no
/// init begins one again, and each image that a crash may leave of its disks keeps its identity, and records of its
/// key.
pub fn begun_signers_stay<D: Disk>()
    ensures { (dig : List ℕ → List ℕ) → BegunSignersStay D.told D.plan D.faults dig }
{}

/// The records that a signing left stand in every later call: in each image that a crash may leave of the disks that it
/// is handed, and in front of what a later signing finds. Where it signed they keep both leaves.
pub fn signed_records_stand<D: Disk>()
    ensures { (dig : List ℕ → List ℕ) → SignedRecordsStand D.told D.plan D.faults dig }
{}

/// Since a two-level signer was begun no leaf of either level signs two messages, in one call or in several: a top leaf
/// signs one bottom key, and a leaf of that one message.
pub fn signers_lives_sign_once<D: Disk>()
    ensures { (dig : List ℕ → List ℕ) → SignersSignOnce D.told D.plan D.faults dig }
{}

/// What a signing wrote is a beginning of its answer, whose records were added before, or of what it says of a device
/// fault. So a byte of a signature is written of a message alone that stands in every later call.
pub fn signings_write_their_answers<D: Disk>()
    ensures { (dig : List ℕ → List ℕ) → SigningsWriteTheirAnswers D.told D.plan D.faults dig }
{}

/// All that a leaf of an operator's key gave out since the operator was begun, in one run or in several, is one
/// receipt: no leaf signs two promises.
pub fn desks_promise_once<D: Disk>()
    ensures { (dig : List ℕ → List ℕ) → DesksPromiseOnce D.told D.plan D.faults dig }
{}

/// The laws of keys hold where calls were cut off: a signer that was begun is found, what was signed stands, and each
/// leaf of a signer and of an operator signs once, in calls that ended and in those that were cut off.
pub fn keys_hold_through_cuts<D: Disk>()
    ensures { (dig : List ℕ → List ℕ) → KeysThroughCuts D.told D.plan D.faults dig }
{}

/// A signing that opened its disks may be cut off at each moment, told without a fault: as its records are appended,
/// and behind them.
pub fn signings_may_be_cut()
    ensures { (dig : List ℕ → List ℕ) → SigningsMayBeCut dig }
{}

/// A small life of a signer is a life, so the laws above speak of some: after an init a device fault stops a signing as
/// it opens a bottom key, and a crash follows; the next signing opens the key, and signs by its first leaf.
pub fn a_small_signers_life_is_one()
    ensures { (dig : List ℕ → List ℕ) → SmallSignerLife dig }
{}

/// A small life of an operator with a key is a life, so the law of desks speaks of some: after an init a run reads a
/// log with a deposit, prepares the key's leaves, and gives a receipt for a transfer that the coin's owner signed.
pub fn a_small_desks_life_is_one()
    ensures { SmallDeskLifeIsOne }
{}
