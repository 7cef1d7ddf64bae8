ghost use Rattle.coin_safety.specs.Laws.{NothingDueIsLeftOut, ActsAreAccepted, EnoughIsEnough, NoneIsPoor, WordsTell};

/// Each call that is due for a coin that wasn't signed away is among those that are advised; in place of a
/// Before there may be a call that cancels its exit.
pub fn nothing_due_is_left_out()
    ensures { NothingDueIsLeftOut }
{}

/// In a log of accepted calls, each call that is advised for the history of a coin is accepted, unless it is
/// a Before for which the account has no money. The one premise is that no two openings, of the history
/// and of the log's calls of the coin, show two leaves of one root.
pub fn acts_are_accepted()
    ensures { ActsAreAccepted }
{}

/// Who has what calls take together has what each of them takes, when its turn comes; so where no money is
/// missing, no Before lacks it.
pub fn enough_is_enough()
    ensures each { EnoughIsEnough }
    ensures none { NoneIsPoor }
{}

/// Each word tells what it says of the log, the coin and the clock.
pub fn words_tell()
    ensures { WordsTell }
{}
