ghost use Rattle.std.specs.Prelude.{◌≡◌, ◌+◌, ◌-◌, ◌^◌, ◌&&◌, min, not, if◌then◌else◌, ℕ};
ghost use Rattle.plasma_tx.specs.Views.{blocks, coins};
ghost use Rattle.world_rules.specs.Verdicts.{is_refused_reply, count_verdicts, is_held_kind, is_paid_kind, is_away_kind, is_lost_kind, is_unattended_kind};
ghost use Rattle.world_core.specs.Counting.{verdict_counts, with_log, with_answer};

use node_replies::Reply;
use plasma_tx::RootLog;
use world_rules::{Counts, Verdict, VerdictKind};

// Whether an answer begins with `refused`.
fn is_refused(done: bool, reply: &Reply) -> bool
    ensures { result ≡ (not done && is_refused_reply reply.now) }
{
    !done && matches!(reply, Reply::Refused { .. })
}

/// How many answers begin with `refused`, with one more answer.
pub fn with_answer(refused: u64, done: bool, reply: &Reply) -> u64
    ensures { result ≡ with_answer refused done reply.now }
{
    if is_refused(done, reply) {
        refused.saturating_add(1)
    } else {
        refused
    }
}

fn held(verdicts: &[Verdict]) -> u64
    ensures { result ≡ count_verdicts is_held_kind verdicts.now }
{
    verdicts
        .iter()
        .filter(|it| matches!(it.kind, VerdictKind::Held))
        .count() as u64
}

fn paid(verdicts: &[Verdict]) -> u64
    ensures { result ≡ count_verdicts is_paid_kind verdicts.now }
{
    verdicts
        .iter()
        .filter(|it| matches!(it.kind, VerdictKind::Paid))
        .count() as u64
}

fn away(verdicts: &[Verdict]) -> u64
    ensures { result ≡ count_verdicts is_away_kind verdicts.now }
{
    verdicts
        .iter()
        .filter(|it| matches!(it.kind, VerdictKind::Away))
        .count() as u64
}

fn lost(verdicts: &[Verdict]) -> u64
    ensures { result ≡ count_verdicts is_lost_kind verdicts.now }
{
    verdicts
        .iter()
        .filter(|it| matches!(it.kind, VerdictKind::Lost))
        .count() as u64
}

fn unattended(verdicts: &[Verdict]) -> u64
    ensures { result ≡ count_verdicts is_unattended_kind verdicts.now }
{
    verdicts
        .iter()
        .filter(|it| matches!(it.kind, VerdictKind::Unattended { .. }))
        .count() as u64
}

/// The counts of so many lines, of which so many were refused, with these verdicts; nothing is in the log.
pub fn verdict_counts(lines: u64, refused: u64, verdicts: &[Verdict]) -> Counts
    ensures { result ≡ verdict_counts lines refused verdicts.now }
{
    Counts {
        lines,
        accepted: 0,
        refused,
        blocks: 0,
        coins: 0,
        held: held(verdicts),
        paid: paid(verdicts),
        away: away(verdicts),
        lost: lost(verdicts),
        unattended: unattended(verdicts),
    }
}

/// The counts with what is in the log.
pub fn with_log(counts: Counts, log: &RootLog) -> Counts
    ensures { result ≡ with_log log.now.log counts }
{
    Counts {
        accepted: log.events().len() as u64,
        blocks: log.blocks(),
        coins: log.coins(),
        ..counts
    }
}
