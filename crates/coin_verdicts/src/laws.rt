ghost use Rattle.coin_verdicts.specs.Laws.{OwnersStayInRuns};

/// A law: along the events of a run, a wallet that was declared keeps its owner.
pub fn owners_stay_in_runs()
    ensures { OwnersStayInRuns }
{}
