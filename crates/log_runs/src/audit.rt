ghost use Rattle.std.specs.Prelude.{◌≡◌, ◌++◌, ℕ, true, false, List, Ok, Err, OnOk, IfErr};
ghost use Rattle.plasma_base.specs.Causes.{faults_after};
ghost use Rattle.receipt_audit.specs.Audit.{conviction_answer};
ghost use Rattle.streamed_lines.specs.Outside.{ReadsToFault, ReadsToEnd};
ghost use Rattle.streamed_lines.specs.Prompt.{AnswersPromptly, answers_so_far};
ghost use Rattle.run_endings.specs.Statuses.{is_write_fault, ReadsBy};
ghost use Rattle.log_runs.specs.Following.{begun, log_rules};
ghost use Rattle.log_runs.specs.Auditing.{auditing, convicted_text};
ghost use Rattle.log_runs.specs.Runs.{RunsLog};
ghost use Rattle.log_runs.specs.Complete.{LogComplete};
ghost use Rattle.log_runs.specs.Lacking.{LacksMemory};
ghost use Rattle.log_runs.specs.Auditing.{audit_takes_memory};

use super::causes::audit_halt;
use super::follower::Follower;
use super::phrases::{push_numbered, push_told};
use super::reading::read_hex;
use super::run::run_log;
use plasma_base::{Bytes, Hash32, NoMemory};
use plasma_outside::{Sink, Source};
use plasma_tx::{RootCall, RootLog};
use receipt_audit::{Conviction, convict};
use run_endings::Status;
use std::alloc::Global;
use streamed_lines::{Halt, Stop};

/// What follows a log as an auditor does, with a key and a receipt, and with openings judged by this digest.
#[derive(Drop)]
struct Auditor<H> {
    h: H,
    key: [u8; 56],
    receipt: Bytes,
}

/// The log, and whether the bundle was answered.
#[derive(Drop)]
struct AuditLog {
    log: RootLog,
    is_answered: bool,
}

// Puts the coin and the due block of a broken promise at the end, as a line.
fn push_convicted(out: &mut Vec<u8>, conviction: &Conviction) -> Result<(), NoMemory>
    ensures { OnOk result (out.new.items ≡ out.old.items ++ convicted_text conviction.now) }
{
    push_numbered(out, b"convicted", conviction.coin)?;
    push_told(out, b"", conviction.due)
}

impl<H: Hash32 + Drop> Follower for Auditor<H> {
    ghost use Rattle.log_runs.specs.Auditing.{AuditAt, auditing, audit_takes_memory};
    ghost use Rattle.log_runs.specs.Audits.{audit_at};

    type Kept = AuditLog;

    ghost At = { AuditAt };

    ghost following = { λ auditor. auditing (H.digest_of auditor.h) auditor.key auditor.receipt };

    ghost is_at = { λ _ kept at. audit_at kept ≡ at };

    ghost takes_memory = { audit_takes_memory };

    fn begin(&self, _alloc: Global, log: RootLog) -> AuditLog {
        AuditLog {
            log,
            is_answered: false,
        }
    }

    fn follow(&self, kept: &mut AuditLog, call: RootCall) -> Result<(), NoMemory> {
        kept.log.push(call)
    }

    fn command(
        &self,
        alloc: Global,
        kept: &mut AuditLog,
        line: &[u8],
        text: &mut Vec<u8>,
    ) -> Result<(), Halt<Bytes>> {
        if kept.is_answered {
            return Err(Halt::Stops {
                stop: Stop::BadLine,
            });
        }
        let bundle = read_hex(alloc, line)?;
        let answer = convict(
            alloc,
            &self.h,
            &kept.log,
            &self.key,
            self.receipt.as_slice(),
            bundle.as_slice(),
        );
        match answer {
            Ok(conviction) => {
                let mut answer = Vec::new(alloc);
                push_convicted(&mut answer, &conviction)?;
                text.extend_from_slice(&answer)?;
                kept.is_answered = true;
                Ok(())
            }
            Err(why) => Err(audit_halt(alloc, why)),
        }
    }

    fn may_end(&self, kept: &AuditLog) -> bool {
        kept.is_answered
    }
}

/// Runs an audit of a receipt under a key: answers the lines of the source into the sink, with openings judged by this
/// digest, and gives the run's status.
///
/// The lines are a log of the root contract, a line `--`, and behind it one line, the bytes of a bundle as a hex. It is
/// answered `convicted` with the promise's coin and its due block, or refused as `convict` says, which ends the run.
/// So do a line that may not stand there, as a second one behind the log, one past a limit, a missing `--` or bundle,
/// and a fault.
pub fn run_audit<H: Hash32 + Drop, S: Source, K: Sink>(
    alloc: Global,
    h: H,
    key: [u8; 56],
    receipt: Bytes,
    source: &mut S,
    sink: &mut K,
) -> Status
    ensures runs { RunsLog (auditing (H.digest_of h) key receipt) (S.left source.old) (S.left source.new)
        (K.taken sink.old) (K.taken sink.new)
        (ReadsToFault (S.faults source.old) (S.faults source.new) (S.failed_last source.new) true) result }
    ensures prompt { AnswersPromptly (answers_so_far (log_rules (auditing (H.digest_of h) key receipt)) begun)
        (S.left source.old) (S.left source.new) (S.failed_last source.new) (K.taken sink.old) (K.taken sink.new) }
    ensures complete { LogComplete (auditing (H.digest_of h) key receipt) (S.left source.old) result }
    ensures memory { K.takes_memory ≡ false → result ≡ Status.NoMemory
        → LacksMemory (auditing (H.digest_of h) key receipt) audit_takes_memory (S.given_last source.new)
        (S.left source.old) (S.left source.new) }
    ensures source_memory { K.takes_memory ≡ false → result ≡ Status.NoMemory
        → ReadsToFault (S.faults source.old) (S.faults source.new) (S.failed_last source.new) false }
    ensures source_faults { ReadsBy result
        (ReadsToFault (S.faults source.old) (S.faults source.new) (S.failed_last source.new)) }
    ensures source_end { ReadsToEnd (S.ends source.old) (S.ends source.new) }
    ensures sink_faults { K.faults sink.new ≡ faults_after (K.faults sink.old) (is_write_fault result) }
{
    run_log(alloc, Auditor { h, key, receipt }, source, sink)
}
