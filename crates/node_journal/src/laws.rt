ghost use Rattle.node_journal.specs.Laws.{NotesFollow, InitsMakeFewCalls, InitsMayBeRepeated, InitsEndBegun, StoppedPreparations, PreparedJournalsAreEmpty, RefusedPairsStay};

use crash_disk::Disk;

/// Records of a role and one that may follow them are of the role.
pub fn notes_follow()
    ensures { NotesFollow }
{}

/// An init makes at most sixteen device calls on its disk, with the one that asks for the length.
pub fn inits_make_few_calls()
    ensures { InitsMakeFewCalls }
{}

/// Over every list of inits, faults and crashes on a disk that wasn't taken: each image of a crash is no
/// journal and has at most five bytes, or spells no record, or spells the identity alone. So an init that
/// was stopped may be repeated.
pub fn inits_may_be_repeated()
    ensures { InitsMayBeRepeated }
{}

/// After such a list an init that isn't stopped ends begun: each image of a crash spells the identity
/// alone. It answers `Ok`, or `AlreadyMade` where the disk held the identity already.
pub fn inits_end_begun()
    ensures { InitsEndBegun }
{}

/// What a crash leaves of a making or opening of an empty journal, however it went: what it could have
/// left before, or an image that isn't taken.
pub fn stopped_preparations()
    ensures { StoppedPreparations }
{}

/// A journal that was made or opened over an image that isn't taken is empty in each image of a crash.
pub fn prepared_journals_are_empty()
    ensures { PreparedJournalsAreEmpty }
{}

/// An init of notes and of leaves that is refused since an image is taken leaves both as they were, where the disks tell
/// what they hold.
pub fn refused_pairs_stay<D: Disk, E: Disk>()
    ensures { RefusedPairsStay D.told D.plan D.faults E.told E.plan E.faults }
{}
