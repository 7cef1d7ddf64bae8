ghost use Rattle.hss_keys.specs.Keys.{HssSignaturesAreValid, ValidHssSignaturesPass};
ghost use Rattle.hss_keys.specs.Entries.{EntriesAreReadBack, EntriesHaveOneSpelling};
ghost use Rattle.hss_keys.specs.Laws.{BoundsStay, KeptBoundsStay, LevelJournalsStay, NoLeafSignsTwoMessages, StoppedLevelAppends};

/// The test of a signature passes exactly for those that are valid by RFC 8554, section 6.3.
pub fn valid_hss_signatures_pass()
    ensures { ValidHssSignaturesPass }
{}

/// Each signature of two keys is valid under the top one, for every message.
pub fn hss_signatures_are_valid()
    ensures { HssSignaturesAreValid }
{}

/// The record of an entry is read as that entry.
pub fn entries_are_read_back()
    ensures { EntriesAreReadBack }
{}

/// Each entry has one record that is read as it.
pub fn entries_have_one_spelling()
    ensures { EntriesHaveOneSpelling }
{}

/// Over every list of openings, advances, binds, faults and crashes: a top leaf signs one bottom key, and a leaf of it
/// one message.
pub fn no_leaf_signs_two_messages()
    ensures { NoLeafSignsTwoMessages }
{}

/// Records stay: every later image of a crash keeps them, and so does every node that opens the journal later.
pub fn bounds_stay()
    ensures { BoundsStay }
{}

/// A leaf that records bind keeps its message, and its bottom key, in all records that continue them.
pub fn kept_bounds_stay()
    ensures { KeptBoundsStay }
{}

/// A journal of this signer never stops to be one: no later opening answers `NotJournal`.
pub fn level_journals_stay()
    ensures { LevelJournalsStay }
{}

/// Whether the record is there after a crash of an advance or a bind that was stopped after so many of its device
/// calls.
pub fn stopped_level_appends()
    ensures { StoppedLevelAppends }
{}
