ghost use Rattle.safety_laws.specs.Calls.{LegalActsAreAccepted, ActsOfRunsAreAccepted, StartsAreLeaves, LegalEnoughIsEnough, EnoughOfRunsIsEnough};
ghost use Rattle.safety_laws.specs.Gone.{LegalGoneMeansGone, LegalPaidMeansPaid, GoneMeansGone, PaidMeansPaid};
ghost use Rattle.safety_laws.specs.Safe.{LegalSafeMeansSafe, LegalLeavingMeansSafe, LegalActLeavesTime, LegalActMeansAct, LegalHoldersBeginInTime, LegalNextLookIsInTime, LegalLooksAreEnough, LegalLookedAtCoinsAreSafe, LookedAtCoinsAreSafe};

/// A law: what a look says of a coin that a wallet holds goes on for its time. Safe until a time: no exit of the
/// coin comes too late till then, if none did so far and the owner starts none. Leaving: none does for less than
/// the time in which a challenge may be answered, or in which an exit may be challenged, once the owner's can't be any
/// more. Act by a time: none does till then, also before a call is entered; and where what is due was entered till
/// then, none does after that for as long as if nothing had been due. Of legal events, unless those up to the look
/// exhibit.
pub fn safe_means_safe()
    ensures safe { LegalSafeMeansSafe }
    ensures leaving { LegalLeavingMeansSafe }
    ensures act { LegalActLeavesTime }
    ensures acted { LegalActMeansAct }
{}

/// A law: to look again while the last look goes is enough, from when the wallet comes to hold the coin. The next look
/// finds no window that ended unseen, and no exit comes too late; so the coin is safe at each event, unless the events
/// exhibit; and at each line of a run.
pub fn looks_are_enough()
    ensures begins { LegalHoldersBeginInTime }
    ensures next { LegalNextLookIsInTime }
    ensures chain { LegalLooksAreEnough }
    ensures legal { LegalLookedAtCoinsAreSafe }
    ensures run { LookedAtCoinsAreSafe }
{}

/// A law: Gone means that the coin was paid in that line of the log's file, by a Finish of an exit that the account had
/// started, which isn't the holder's; so it is withdrawn, and no wallet holds it. Paid means the same of the holder's
/// account.
pub fn gone_means_gone()
    ensures legal { LegalGoneMeansGone }
    ensures legal_paid { LegalPaidMeansPaid }
    ensures run { GoneMeansGone }
    ensures run_paid { PaidMeansPaid }
{}

/// A law: each call that is advised for a coin that a node keeps is accepted, unless it takes money that the
/// account hasn't got; where the events show no clash at the coin. The start of the own exit is the call that a wallet
/// offers when it leaves.
pub fn acts_are_accepted()
    ensures legal { LegalActsAreAccepted }
    ensures run { ActsOfRunsAreAccepted }
    ensures leave { StartsAreLeaves }
{}

/// A law: where no money is missing, all calls that are advised for a coin are accepted, entered one after the other
/// in their order; where the events show no clash at the coin.
pub fn enough_is_enough()
    ensures legal { LegalEnoughIsEnough }
    ensures run { EnoughOfRunsIsEnough }
{}
