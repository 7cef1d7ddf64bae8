ghost use Rattle.std.specs.Prelude.{◌≡◌};
ghost use Rattle.operator_rules.specs.Acts.{BundlesAreHistories, PresentBundlesAreHistories, ZeroAsksForThePresentTip, CommandsKeepTheRole, CommandsAddTheirNotes};
ghost use Rattle.operator_rules.specs.Laws.{IdentitiesAreReadBack, IdentitiesHaveOneSpelling, NotesAreReadBack, NotesHaveOneSpelling};

use super::MOST_LAID;

/// A law: where the operator laid nothing and kept the rules, the bundle of a coin that it makes for a
/// tip that the walk over its trees passed, or for the deposit block, has bytes and is a history under
/// the log. It ends with the owner whom the walk gives the coin there. The same holds of its bundle for
/// the tip 0, which stands for the present tip.
pub fn bundles_are_histories()
    ensures passed { BundlesAreHistories }
    ensures present { PresentBundlesAreHistories }
{}

/// A law: the bundle for the tip 0 is the bundle for the present tip, whatever the operator did.
pub fn zero_asks_for_the_present_tip()
    ensures { ZeroAsksForThePresentTip }
{}

/// A law: the record that an offer, a lay or a seal adds to the operator's records is one of the
/// operator's kinds, and is read as that command's note behind the notes that were there.
pub fn commands_keep_the_role()
    ensures kinds { CommandsKeepTheRole }
    ensures notes { CommandsAddTheirNotes }
{}

/// A law: the bytes of an identity are read as that identity, and those of a note as that note. Bytes that
/// are read as an identity or a note are its own bytes, so each has one spelling. An identity that is read
/// has a tag of 32 bytes, an account of 64 bits and, if it has a seed, one of 32 bytes. A note that is read
/// has a transfer with the chain's tag, bytes at a coin of 64 bits, or neither.
pub fn records_have_one_spelling()
    ensures identities_read { IdentitiesAreReadBack }
    ensures identities_spelled { IdentitiesHaveOneSpelling }
    ensures notes_read { NotesAreReadBack }
    ensures notes_spelled { NotesHaveOneSpelling }
{}

/// The most bytes that are laid at a coin are 65,536.
pub fn the_limit_is_this_number()
    ensures { MOST_LAID ≡ 65536 }
{}
