ghost use Rattle.gate_journal.specs.Image.{SpelledIsRead, ReadIsSpelled};
ghost use Rattle.gate_journal.specs.Laws.{StoppedAppends, AppendsSettle, StoppedOpenings, StoppedMakings, RecordsStay, AppendedRecordsStay, MadeJournalsStay};

/// What an image spells is what is read of it: so an image spells one list of records.
pub fn spelled_is_read()
    ensures { SpelledIsRead }
{}

/// What is read of an image of bytes is what it spells: where no list of records fits, none is read.
pub fn read_is_spelled()
    ensures { ReadIsSpelled }
{}

/// What a crash leaves of an append that was stopped after so many of its device calls.
pub fn stopped_appends()
    ensures { StoppedAppends }
{}

/// After the four device calls of an append a settled journal is settled with the new record.
pub fn appends_settle()
    ensures { AppendsSettle }
{}

/// What a crash leaves of an opening at any of its moments, however it went: nothing that it couldn't
/// have left before.
pub fn stopped_openings()
    ensures { StoppedOpenings }
{}

/// What a crash leaves of a making at any of its moments, however it went: where the disk held a journal,
/// or more than five bytes, nothing that it couldn't have left before; else at most five bytes, which are
/// no journal or one without records.
pub fn stopped_makings()
    ensures { StoppedMakings }
{}

/// Over every list of makings, openings, appends, faults and crashes: records that a node had once stay.
/// Each later image of a crash keeps them, and every node that opens the journal later has them.
pub fn records_stay()
    ensures { RecordsStay }
{}

/// What a node appended, and was answered `Ok`, is among what is read later, at its place.
pub fn appended_records_stay()
    ensures { AppendedRecordsStay }
{}

/// A journal that was made never stops to be one: no later opening answers `NotJournal`.
pub fn made_journals_stay()
    ensures { MadeJournalsStay }
{}
