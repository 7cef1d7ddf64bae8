ghost use Rattle.std.specs.Prelude.{◌≡◌, ◌++◌, ℕ, List, OnOk, IfOk};
ghost use Rattle.log_runs.specs.Archiving.{archive_cause};
ghost use Rattle.log_runs.specs.Auditing.{audit_cause};
ghost use Rattle.log_runs.specs.Kept.{IsRefused};

use super::phrases::{push_numbered, push_words};
use plasma_base::{Bytes, NoMemory};
use proof_archive::ArchiveRefusal;
use receipt_audit::AuditRefusal;
use std::alloc::Global;
use streamed_lines::{Halt, Stop};

// Puts what an archive refuses for at the end.
fn push_archive_cause(out: &mut Vec<u8>, why: ArchiveRefusal) -> Result<(), NoMemory>
    ensures { OnOk result (out.new.items ≡ out.old.items ++ archive_cause why) }
{
    match why {
        ArchiveRefusal::NoCoin => push_words(out, b"no-coin"),
        ArchiveRefusal::UnknownBlock { n } => push_numbered(out, b"unknown-block", n),
        ArchiveRefusal::HaveBlock { n } => push_numbered(out, b"have-block", n),
        ArchiveRefusal::Gap { n } => push_numbered(out, b"gap", n),
        ArchiveRefusal::BadOpening { n } => push_numbered(out, b"bad-opening", n),
        ArchiveRefusal::NotTip { tip } => push_numbered(out, b"not-tip", tip),
        ArchiveRefusal::NoMemory => Err(NoMemory),
    }
}

// Puts what an auditor refuses for at the end.
fn push_audit_cause(out: &mut Vec<u8>, why: AuditRefusal) -> Result<(), NoMemory>
    ensures { OnOk result (out.new.items ≡ out.old.items ++ audit_cause why) }
{
    match why {
        AuditRefusal::BadReceipt => push_words(out, b"bad-receipt"),
        AuditRefusal::BadKey => push_words(out, b"bad-key"),
        AuditRefusal::NotSigned => push_words(out, b"not-signed"),
        AuditRefusal::NotYet { due } => push_numbered(out, b"not-yet", due),
        AuditRefusal::BadBundle { place } => push_numbered(out, b"bad-bundle", place),
        AuditRefusal::OtherCoin { coin } => push_numbered(out, b"other-coin", coin),
        AuditRefusal::UnknownBlock { n } => push_numbered(out, b"unknown-block", n),
        AuditRefusal::MissingBlock { n } => push_numbered(out, b"missing-block", n),
        AuditRefusal::BadOpening { n } => push_numbered(out, b"bad-opening", n),
        AuditRefusal::Honoured { n } => push_numbered(out, b"honoured", n),
        AuditRefusal::NoMemory => Err(NoMemory),
    }
}

// The text of what an archive refuses for.
fn archive_cause(alloc: Global, why: ArchiveRefusal) -> Result<Bytes, NoMemory>
    ensures { IfOk result (λ cause. cause ≡ archive_cause why) }
{
    let mut cause = Vec::new(alloc);
    push_archive_cause(&mut cause, why)?;
    Ok(Bytes::from_vec(cause))
}

// The text of what an auditor refuses for.
fn audit_cause(alloc: Global, why: AuditRefusal) -> Result<Bytes, NoMemory>
    ensures { IfOk result (λ cause. cause ≡ audit_cause why) }
{
    let mut cause = Vec::new(alloc);
    push_audit_cause(&mut cause, why)?;
    Ok(Bytes::from_vec(cause))
}

// The refusal for a cause.
fn refused(cause: Result<Bytes, NoMemory>) -> Halt<Bytes>
    ensures { (text : List ℕ) → IfOk cause (λ own. own ≡ text) → IsRefused text result }
{
    match cause {
        Ok(cause) => Halt::Stops {
            stop: Stop::Ends { cause },
        },
        Err(NoMemory) => Halt::NoMemory,
    }
}

/// The refusal of an archive.
pub fn archive_halt(alloc: Global, why: ArchiveRefusal) -> Halt<Bytes>
    ensures cause { IsRefused (archive_cause why) result }
    ensures memory { why ≡ ArchiveRefusal.NoMemory → result ≡ Halt.NoMemory }
{
    match why {
        ArchiveRefusal::NoMemory => Halt::NoMemory,
        why => refused(archive_cause(alloc, why)),
    }
}

/// The refusal of an auditor.
pub fn audit_halt(alloc: Global, why: AuditRefusal) -> Halt<Bytes>
    ensures cause { IsRefused (audit_cause why) result }
    ensures memory { why ≡ AuditRefusal.NoMemory → result ≡ Halt.NoMemory }
{
    match why {
        AuditRefusal::NoMemory => Halt::NoMemory,
        why => refused(audit_cause(alloc, why)),
    }
}
