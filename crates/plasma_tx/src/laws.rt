ghost use Rattle.plasma_tx.specs.Laws.{ClocksAreTicks, BlocksAreCalls, CoinsAreDeposits, ExitsStand, ChallengesStand, ExitsAreInOrder, ChallengesAreInOrder, NewChallengesAreOpen, WithdrawnIsPaid};
ghost use Rattle.plasma_tx.specs.Openings.{LeavesAreShown, OpeningsAreReadBack, OpeningsHaveOneSpelling};
ghost use Rattle.plasma_tx.specs.Spelling.{OwnersAreReadBack, OwnersHaveOneSpelling, TransfersAreReadBack, TransfersHaveOneSpelling};
ghost use Rattle.plasma_tx.specs.Transfer.{EmptyLeavesAreNone, TransfersAreRead, RecipientsAreNamed};

/// A law: each owner has one spelling, which is read as that owner.
pub fn owners_have_one_spelling()
    ensures read_back { OwnersAreReadBack }
    ensures one { OwnersHaveOneSpelling }
{}

/// A law: each signed transfer has one spelling, which is read as that transfer.
pub fn transfers_have_one_spelling()
    ensures read_back { TransfersAreReadBack }
    ensures one { TransfersHaveOneSpelling }
{}

/// A law: each opening has one spelling, which is read as that opening; and the leaf that is read is
/// the one that its bytes show, whatever the digest.
pub fn openings_have_one_spelling()
    ensures leaf { LeavesAreShown }
    ensures read_back { OpeningsAreReadBack }
    ensures one { OpeningsHaveOneSpelling }
{}

/// A law: the transfer that a leaf of a block spells has the tag and the coin, may stand in the block
/// and goes to whom the leaf's bytes alone name. An empty leaf spells none.
pub fn transfers_are_read()
    ensures read { TransfersAreRead }
    ensures named { RecipientsAreNamed }
    ensures empty { EmptyLeavesAreNone }
{}

/// A law: the clock is the time of the last Tick of a log, or 0. So it is in every list of calls, also
/// one that no contract accepted; and so are the laws below.
pub fn clocks_are_ticks()
    ensures { ClocksAreTicks }
{}

/// A law: block n is the n-th Deposit or Commit of a log, and there are no others.
pub fn blocks_are_calls()
    ensures { BlocksAreCalls }
{}

/// A law: coin c is the c-th Deposit of a log, and there are no others. Its deposit block is that call's
/// place among the Deposits and Commits.
pub fn coins_are_deposits()
    ensures { CoinsAreDeposits }
{}

/// A law: an exit stands exactly where the last call that starts, cancels or finishes it is a start,
/// from which it has its account, parent, owners and time.
pub fn exits_stand()
    ensures { ExitsStand }
{}

/// A law: a standing exit is challenged at a block exactly where there was a Before of it there since
/// its start, of which the first counts, and the challenge is answered exactly where there was a
/// Respond to it since that start.
pub fn challenges_stand()
    ensures { ChallengesStand }
{}

/// A law: the standing exits are in the order of their starts, and the challenges of each in the order
/// in which they were made.
pub fn exits_are_in_order()
    ensures exits { ExitsAreInOrder }
    ensures challenges { ChallengesAreInOrder }
{}

/// A law: where each Respond of a log named a challenge of a standing exit, as in every log of accepted
/// calls, the challenge that a first Before at a block makes is open.
pub fn new_challenges_are_open()
    ensures { NewChallengesAreOpen }
{}

/// A law: a coin is withdrawn exactly where a Finish of it was paid: its exit had no open challenge,
/// and no earlier Finish of the coin was paid.
pub fn withdrawn_is_paid()
    ensures { WithdrawnIsPaid }
{}
