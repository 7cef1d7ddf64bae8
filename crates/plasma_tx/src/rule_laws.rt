ghost use Rattle.std.specs.Prelude.{◌≡◌, ◌^◌};
ghost use Rattle.plasma_tx.specs.RuleLaws.{LogsAreLegal, MoneyIsKept, HeldIsOfAccounts, BalancesSuffice, HeldSuffices, BalancesAreCovered, TimesAreBounded, ExitsAreTheirOwners, OpeningsShow, OwnersAreRead, TransfersAreShown, AcceptedCallsShow, ShownCallsAreAccepted, AnswersDecide, OthersLeaveExits, ExitsLeaveBy, PaidExactly, WithdrawnIsAnsweredPaid};

use super::{
    CHALLENGE_BOND, CHALLENGE_WINDOW, EXIT_BOND, EXIT_PERIOD, LAST_TIME, MOST_MONEY,
    RESPONSE_WINDOW,
};

/// Whatever calls come, under whichever digests, the log is one of accepted calls alone.
pub fn logs_are_legal()
    ensures { LogsAreLegal }
{}

/// No money is made or lost: over a log of accepted calls, the balances of all its accounts, the amounts
/// of the coins that aren't withdrawn, and the bonds of the standing exits and of their open challenges
/// are all that was funded.
pub fn money_is_kept()
    ensures { MoneyIsKept }
{}

/// What is held of the accounts is the amounts of the coins that aren't withdrawn, and the bonds.
pub fn held_is_of_accounts()
    ensures { HeldIsOfAccounts }
{}

/// No balance is overdrawn: what an accepted call takes from an account, the account had before it.
pub fn balances_suffice()
    ensures { BalancesSuffice }
{}

/// What an accepted call lets go of what is held of an account was held of it.
pub fn held_suffices()
    ensures { HeldSuffices }
{}

/// A balance, with all that is held, is no more than what was funded, over a log of accepted calls.
pub fn balances_are_covered()
    ensures { BalancesAreCovered }
{}

/// The clock keeps its limit, and no standing exit and no challenge is from a later time.
pub fn times_are_bounded()
    ensures { TimesAreBounded }
{}

/// Over a log of accepted calls, the account that started a standing exit is its owner's.
pub fn exits_are_their_owners()
    ensures { ExitsAreTheirOwners }
{}

/// An opening shows a transfer exactly where it opens the root of its block, and its leaf spells the transfer.
pub fn openings_show()
    ensures opened { OpeningsShow }
    ensures shown { TransfersAreShown }
{}

/// The owner that a call shows is the one that the views of the log read.
pub fn owners_are_read()
    ensures { OwnersAreRead }
{}

/// A call is accepted exactly where it shows what its kind has to show.
pub fn accepted_calls_show()
    ensures shows { AcceptedCallsShow }
    ensures accepted { ShownCallsAreAccepted }
{}

/// Each answer accepts the call or refuses it; none is want of memory.
pub fn answers_decide()
    ensures { AnswersDecide }
{}

/// Only its own calls change an exit.
pub fn others_leave_exits()
    ensures { OthersLeaveExits }
{}

/// An exit leaves the standing ones only by an After, a Between or a Finish of it.
pub fn exits_leave_by()
    ensures { ExitsLeaveBy }
{}

/// A Finish is Paid exactly where its exit stands, its period is over, no challenge of it is open and its
/// coin isn't withdrawn.
pub fn paid_exactly()
    ensures { PaidExactly }
{}

/// A coin is withdrawn exactly where a finish of it was answered Paid, over a log of accepted calls.
pub fn withdrawn_is_answered_paid()
    ensures { WithdrawnIsAnsweredPaid }
{}

/// The numbers of the rules: bonds of 100 and 40, windows of 604,800 and 302,400 seconds and their sum, at
/// most 2^62 of money, and a clock up to 2^40 seconds.
pub fn the_rules_have_these_numbers()
    ensures exit_bond { EXIT_BOND ≡ 100 }
    ensures challenge_bond { CHALLENGE_BOND ≡ 40 }
    ensures challenge_window { CHALLENGE_WINDOW ≡ 604800 }
    ensures response_window { RESPONSE_WINDOW ≡ 302400 }
    ensures period { EXIT_PERIOD ≡ 907200 }
    ensures money { MOST_MONEY ≡ 2 ^ 62 }
    ensures time { LAST_TIME ≡ 2 ^ 40 }
{}
