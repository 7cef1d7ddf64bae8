ghost use Rattle.coin_history.specs.Laws.{OnlyAbsencesPass, AbsencesExcludeLinks, AbsencesPass, AbsencesRefusals, AbsencesStay, DepositsAreBare, HistoriesAgree, OnlyHistoriesPass, HistoriesHaveBeginnings, HistoriesHaveOneMeaning, HistoriesPass, HistoriesRefusals, HistoriesStay, LinksRise, ReadersRefusals, RefusalsComeBehindLinks, TipsAreLinks};

/// A law: the check answers a bundle whose blocks rise its links exactly where the bundle is a history
/// with these links.
pub fn histories_are_checked()
    ensures found { OnlyHistoriesPass }
    ensures pass { HistoriesPass }
{}

/// A law: the check passes a bundle whose blocks rise exactly where the bundle goes to the block asked
/// and its openings show that the coin is absent up to there.
pub fn absences_are_checked()
    ensures found { OnlyAbsencesPass }
    ensures pass { AbsencesPass }
{}

/// A law: a history stays the same history as the log grows, and so do absences up to a block that is
/// there.
pub fn histories_stay()
    ensures links { HistoriesStay }
    ensures absences { AbsencesStay }
{}

/// A law: a bundle is a history with one list of links only.
pub fn histories_have_one_meaning()
    ensures { HistoriesHaveOneMeaning }
{}

/// A law: what a history has up to one of its links, or up to the deposit, is a history with the links
/// up to there.
pub fn histories_have_beginnings()
    ensures { HistoriesHaveBeginnings }
{}

/// A law: two histories of one coin, of which one may reach further, have the same leaves up to the
/// nearer tip, and so the same links and the same absences, or they show two openings of one root to
/// different leaves.
pub fn histories_agree()
    ensures { HistoriesAgree }
{}

/// A law: a history has no link in a block in which openings show that its coin is absent, or they show
/// two openings of one root to different leaves.
pub fn absences_exclude_links()
    ensures { AbsencesExcludeLinks }
{}

/// A law: the blocks of a history's links rise strictly from its deposit on; a history whose tip is the
/// deposit has neither openings nor links; and of any other the leaf at the tip isn't empty.
pub fn a_history_has_its_shape()
    ensures rise { LinksRise }
    ensures deposit { DepositsAreBare }
    ensures tip { TipsAreLinks }
{}

/// A law: a bundle of a coin that was made, to a tip that may be one, is refused for what is wrong at the
/// lowest block at which something is. Before that block it is as a history is: the openings are those
/// of the committed blocks, and each leaf is empty or is the next link. So the last link there, which
/// the failing opening is held against, is the transfer in the last leaf before that isn't empty, or the
/// deposit.
pub fn refusals_come_behind_links()
    ensures { RefusalsComeBehindLinks }
{}

/// A law: bytes are refused only as a bad bundle; a history only for its coin, for a block that is
/// unknown or missing, or for an opening, a link or a signature; and absences only for a block that is
/// unknown or missing, for an opening, or for a block that has something at the coin.
pub fn refusals_are_their_own()
    ensures reader { ReadersRefusals }
    ensures history { HistoriesRefusals }
    ensures absence { AbsencesRefusals }
{}
