ghost use Rattle.proof_archive.specs.Laws.{BundlesAreHistories, TipsHaveBundles};

/// A law: after every list of calls that an archive follows and openings that it is given, in whatever
/// order, a bundle has exactly the kept openings up to its tip, and is a history by the log and by each
/// that extends it, with the links up to there; and the greatest tip of a coin has a bundle.
pub fn bundles_are_histories()
    ensures bundles { BundlesAreHistories }
    ensures tips { TipsHaveBundles }
{}
