ghost use Rattle.leaf_journal.specs.Laws.{BoundMessagesStay, ALeafHasOneMessage, MadeJournalsStay, StoppedBinds, StoppedMigrations, KindRecords};

/// Over every list of openings, binds, migrations, faults and crashes: a leaf has one message.
pub fn a_leaf_has_one_message()
    ensures { ALeafHasOneMessage }
{}

/// What a leaf is bound to stays: every later image of a crash keeps it, and so does every node that
/// opens the journal later.
pub fn bound_messages_stay()
    ensures { BoundMessagesStay }
{}

/// A journal of these leaves never stops to be one: no later opening answers `NotJournal`.
pub fn made_journals_stay()
    ensures { MadeJournalsStay }
{}

/// Whether a leaf is bound after a crash of a bind that was stopped after so many of its device calls.
pub fn stopped_binds()
    ensures { StoppedBinds }
{}

/// Whether the marker is there after a crash of a migration that was stopped after so many of its device
/// calls. No message changes.
pub fn stopped_migrations()
    ensures { StoppedMigrations }
{}

/// What an opening that asks for a kind takes is what one takes that doesn't, where each message is of the
/// kind.
pub fn kind_records()
    ensures { KindRecords }
{}
