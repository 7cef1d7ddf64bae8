ghost use Rattle.node_rules.specs.WatcherLaws.{IdentitiesAreReadBack, IdentitiesHaveOneSpelling, NotesAreReadBack, NotesHaveOneSpelling, CommandsKeepTheRole, CommandsAddTheirNotes, WatchersDoTheirDuty};

/// A law: the bytes of a watcher's identity are read as it, and those of a note as that note. Bytes that are
/// read as an identity or a note are its own, so each has one spelling.
pub fn watcher_records_have_one_spelling()
    ensures identities_read { IdentitiesAreReadBack }
    ensures identities_spelled { IdentitiesHaveOneSpelling }
    ensures notes_read { NotesAreReadBack }
    ensures notes_spelled { NotesHaveOneSpelling }
{}

/// A law: the record that a command adds to a watcher's records may stand behind them, and the records are a
/// watcher's with it. It is read as the command's note behind the notes that were there: that of a guard as
/// what is kept of the links that were handed in.
pub fn watcher_commands_keep_the_role()
    ensures kinds { CommandsKeepTheRole }
    ensures notes { CommandsAddTheirNotes }
{}

/// A law: a watcher answers what is due for its guards whose coin the log has, in the order of coins and tips.
pub fn watchers_do_their_duty()
    ensures { WatchersDoTheirDuty }
{}
