ghost use Rattle.node_rules.specs.WalletLaws.{IdentitiesAreReadBack, IdentitiesHaveOneSpelling, NotesAreReadBack, NotesHaveOneSpelling};
ghost use Rattle.node_rules.specs.WalletCommandLaws.{AcceptsKeepTheRole, SendsKeepTheRole, LeavesKeepTheRole, ReclaimsKeepTheRole, MigrationsKeepTheRole, AcceptsAddTheirNotes, SendsAddTheirLeaves, LeavesAddTheirNotes, ReclaimsAddTheirNotes, MigrationsAddTheMarker, LeavesAreAnswered, ExitsAreOfTheTip, WalletsDoTheirDuty};

/// A law: the bytes of a wallet's identity are read as it, and those of a note as that note. Bytes that are
/// read as an identity or a note are its own, so each has one spelling.
pub fn wallet_records_have_one_spelling()
    ensures identities_read { IdentitiesAreReadBack }
    ensures identities_spelled { IdentitiesHaveOneSpelling }
    ensures notes_read { NotesAreReadBack }
    ensures notes_spelled { NotesHaveOneSpelling }
{}

/// A law: the records of a wallet stay a wallet's with what a command adds to them.
pub fn wallet_commands_keep_the_role()
    ensures accept { AcceptsKeepTheRole }
    ensures send { SendsKeepTheRole }
    ensures leave { LeavesKeepTheRole }
    ensures reclaim { ReclaimsKeepTheRole }
    ensures migrate { MigrationsKeepTheRole }
{}

/// A law: what a command adds is read as it behind the records that were there: an accepted coin as what is
/// kept of the links that were handed in, a sent coin as the body of its transfer at the next leaf, a leaving
/// and a transfer that is taken back with the coin's tip, and the marker as none.
pub fn wallet_commands_add_their_records()
    ensures accept { AcceptsAddTheirNotes }
    ensures send { SendsAddTheirLeaves }
    ensures leave { LeavesAddTheirNotes }
    ensures reclaim { ReclaimsAddTheirNotes }
    ensures migrate { MigrationsAddTheMarker }
{}

/// A law: a wallet that leaves with a coin that it holds or leaves with is answered the start of its exit. The
/// exit is of the coin's tip, where each accepted coin has openings.
pub fn held_coins_may_leave()
    ensures answered { LeavesAreAnswered }
    ensures tip { ExitsAreOfTheTip }
{}

/// A law: a wallet answers what is due for the coins that it holds or leaves with, by rising coin.
pub fn wallets_do_their_duty()
    ensures { WalletsDoTheirDuty }
{}
