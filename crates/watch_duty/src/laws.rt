ghost use Rattle.watch_duty.specs.Laws.{NothingIsDueWithoutExits, OneChallengeIsDue, DueCallsAreAccepted, LinksAreByPlace, DueCallsAreByPlace};

/// Where no exit of a guard's coin stands, nothing is due for it.
pub fn nothing_is_due_without_exits()
    ensures { NothingIsDueWithoutExits }
{}

/// At most one challenge is due for an exit.
pub fn one_challenge_is_due()
    ensures { OneChallengeIsDue }
{}

/// In a log of accepted calls, each call that is due for the history of a coin is accepted, unless it is a
/// Before for which the account has no money. The one premise is that no two openings, of the history
/// and of the log's calls of the coin, show two leaves of one root.
pub fn due_calls_are_accepted()
    ensures { DueCallsAreAccepted }
{}

/// The link that spent a block of a guard is the one behind the lowest place at which the guard has the
/// block: its blocks are the deposit block and those of its links, in order. There is none behind the
/// last.
pub fn links_are_by_place()
    ensures { LinksAreByPlace }
{}

/// What is due for guards are the calls of the first of five rules whose condition holds, for each exit
/// that stands of a guard's coin, in the order of the guards and of the exits.
pub fn due_calls_are_by_place()
    ensures { DueCallsAreByPlace }
{}
