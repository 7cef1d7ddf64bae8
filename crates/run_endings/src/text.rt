ghost use Rattle.std.specs.Prelude.{◌≡◌, ◌≢◌, ◌⊎◌, ◌++◌, [], true, false, OnOk};
ghost use Rattle.plasma_base.specs.Causes.{faults_after};
ghost use Rattle.run_endings.specs.Statuses.{is_write_fault};
ghost use Rattle.run_endings.specs.Outputs.{EndsAs};
ghost use Rattle.run_endings.specs.Texts.{numbered, bad_line_text, too_long_text, not_journal_text, already_made_text, refused_text};

use super::status::Status;
use line_forms::push_number;
use plasma_base::NoMemory;
use plasma_outside::Sink;

// Puts words, a number after them and a line feed at the end.
fn push_numbered(out: &mut Vec<u8>, words: &[u8], number: u64) -> Result<(), NoMemory>
    ensures { OnOk result (out.new.items ≡ out.old.items ++ numbered words.now number) }
{
    out.extend_from_slice(words)?;
    out.push(b' ')?;
    push_number(out, number)?;
    out.push(b'\n')?;
    Ok(())
}

/// Puts the last line of a run that line `number` ended, which may not stand there or is missing.
pub fn push_bad_line(out: &mut Vec<u8>, number: u64) -> Result<(), NoMemory>
    ensures { OnOk result (out.new.items ≡ out.old.items ++ bad_line_text number) }
{
    push_numbered(out, b"bad line", number)
}

/// Puts the last line of a run that line `number` ended, which passes a limit.
pub fn push_too_long(out: &mut Vec<u8>, number: u64) -> Result<(), NoMemory>
    ensures { OnOk result (out.new.items ≡ out.old.items ++ too_long_text number) }
{
    push_numbered(out, b"too long", number)
}

/// Puts the last line of a run whose disk keeps no records of the role: the place of the first gate that is wrong.
pub fn push_not_journal(out: &mut Vec<u8>, place: u64) -> Result<(), NoMemory>
    ensures { OnOk result (out.new.items ≡ out.old.items ++ not_journal_text place) }
{
    push_numbered(out, b"not a journal", place)
}

/// Puts the last line of a run that was to begin a disk which has this many bytes.
pub fn push_already_made(out: &mut Vec<u8>, length: u64) -> Result<(), NoMemory>
    ensures { OnOk result (out.new.items ≡ out.old.items ++ already_made_text length) }
{
    push_numbered(out, b"already made", length)
}

/// Puts the last line of a run that a refusal for this cause ended.
pub fn push_refused(out: &mut Vec<u8>, cause: &[u8]) -> Result<(), NoMemory>
    ensures { OnOk result (out.new.items ≡ out.old.items ++ refused_text cause.now) }
{
    out.extend_from_slice(b"refused ")?;
    out.extend_from_slice(cause)?;
    out.push(b'\n')?;
    Ok(())
}

/// Puts the one text of a run, which then ends with this status.
pub fn put_line<K: Sink>(sink: &mut K, line: &[u8], status: Status) -> Status
    requires no_read_fault { status ≢ Status.ReadFault }
    requires no_write_fault { is_write_fault status ≡ false }
    ensures output { EndsAs (record { status = status; answers = []; last = line.now }) result
        (K.taken sink.old) (K.taken sink.new) ⊥ }
    ensures memory { result ≡ Status.NoMemory → (status ≡ Status.NoMemory) ⊎ (K.takes_memory ≡ true) }
    ensures no_read_fault { result ≢ Status.ReadFault }
    ensures sink_faults { K.faults sink.new ≡ faults_after (K.faults sink.old) (is_write_fault result) }
{
    match sink.put_all(line) {
        Ok(()) => status,
        Err(refusal) => Status::of_refusal(refusal),
    }
}
