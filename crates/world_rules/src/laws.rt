ghost use Rattle.std.specs.Prelude.{◌≡◌};
ghost use Rattle.world_rules.specs.Laws.{LinesThatKeepTheRulesStep, StepsKeepTheLog, LogsAreOfEvents, RecordsGrow, CrashesLeaveTheRecords, ItemsAreMade, DownNodesStay, CutsKeepAsAppendsDo, CutOpeningsLeaveTheRecords, OffersAreOfEvents, DownNodesOfferNothing};

use super::{MOST_MAIL, MOST_WALLETS};

/// A law: a line has a step exactly where it keeps the rules of declarations. It has one, since a step is a
/// function.
pub fn lines_that_keep_the_rules_step()
    ensures { LinesThatKeepTheRulesStep }
{}

/// A law: each step leaves the log, or appends one call that the contract accepted. So the log of a run is
/// that of its events.
pub fn steps_keep_the_log()
    ensures step { StepsKeepTheLog }
    ensures run { LogsAreOfEvents }
{}

/// A law: each step leaves the nodes, or declares one, or changes one, whose records have at most one more. A
/// crash leaves the records.
pub fn records_grow()
    ensures step { RecordsGrow }
    ensures crash { CrashesLeaveTheRecords }
{}

/// A law: the mail item of a line is what the line made.
pub fn items_are_made()
    ensures { ItemsAreMade }
{}

/// A law: a node that is down answers each command but `open` so, alone and in a cut, and nothing changes.
pub fn down_nodes_stay()
    ensures { DownNodesStay }
{}

/// A law: a cut keeps a command's record exactly where an append of which so many calls pass keeps its record
/// under the outcome; a cut `open` keeps the records. When a cut is stopped, and what it answers else.
pub fn cuts_keep_as_appends_do()
    ensures command { CutsKeepAsAppendsDo }
    ensures opening { CutOpeningsLeaveTheRecords }
{}

/// A law: what a node offers is what the events of the run say, and a node that is down offers nothing.
pub fn offers_are_of_events()
    ensures offers { OffersAreOfEvents }
    ensures down { DownNodesOfferNothing }
{}

/// The limits of a schedule: 64 wallets, and 268,435,456 bytes of all mail items together.
pub fn the_limits_are_these_numbers()
    ensures wallets { MOST_WALLETS ≡ 64 }
    ensures mail { MOST_MAIL ≡ 268435456 }
{}
