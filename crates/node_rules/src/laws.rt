ghost use Rattle.node_rules.specs.Laws.{KeptCoinsAreReadBack, KeptCoinsHaveOneSpelling, KeptHistoriesAreReadBack, KeptLinksStay};

/// A law: the bytes of a kept coin are read as it, and bytes that are read as a kept coin are its own, so each
/// has one spelling. A bundle that a node is handed and that is the history of its coin is read back from the
/// openings that are kept of it: they show the same links, under the same log and each longer one.
pub fn kept_histories_are_read_back()
    ensures histories { KeptHistoriesAreReadBack }
    ensures read { KeptCoinsAreReadBack }
    ensures spelled { KeptCoinsHaveOneSpelling }
    ensures stay { KeptLinksStay }
{}
