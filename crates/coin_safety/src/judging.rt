ghost use Rattle.std.specs.Prelude.{◌≡◌, Some, None, IfOk, if◌then◌else◌};
ghost use Rattle.std.specs.List.{list_any};
ghost use Rattle.std.specs.Option.{option_copied};
ghost use Rattle.coin_safety.specs.Advice.{tip, holder, left_by, calls_of, missing, standing};
ghost use Rattle.coin_safety.specs.Commands.{command_of};
ghost use Rattle.coin_safety.specs.Words.{is_strange, away, sent_word, left_word, paid_word, first_end, late_word, stale_word, act_by, act_word, leaving_word, safe_word, word_of};

use super::advice::Advice;
use super::kept::Kept;
use super::left::signing_leaf;
use super::look::Look;
use super::money::missing;
use super::payment::payment_of;
use super::windows::{come, first_exit_end, later};
use super::word::{Judgement, Word};
use plasma_base::NoMemory;
use plasma_tx::{CHALLENGE_WINDOW, EXIT_PERIOD, RESPONSE_WINDOW, RawOpening, RootLog};
use std::alloc::Global;

/// Whether the coin is safe by this log, and what the account is to enter, where the caller's clock shows that
/// time. `NoMemory` also where money passes 2^64, as it does in no log that a contract accepted.
pub fn judge(
    alloc: Global,
    log: &RootLog,
    account: u64,
    clock: u64,
    kept: &Kept,
) -> Result<Judgement, NoMemory>
    ensures word { IfOk result (λ judged. judged.word ≡ word_of log.now.log account clock kept.now) }
    ensures calls { IfOk result (λ judged. judged.calls.items ≡ calls_of log.now.log account kept.now) }
    ensures command { IfOk result (λ judged. judged.command ≡ command_of log.now.log kept.now) }
{
    let look = Look { log, account, kept };
    let left = look.left_by();
    let advice = look.advice(alloc, left.is_some())?;
    let word = look.word(alloc, clock, &advice, left)?;
    Ok(Judgement {
        word,
        calls: advice.calls,
        command: look.command(left.is_some()),
    })
}

impl Look<'_> {
    /// The word of the first rule that speaks.
    fn word(
        &self,
        alloc: Global,
        clock: u64,
        advice: &Advice,
        left: Option<&RawOpening>,
    ) -> Result<Word, NoMemory>
        requires calls { advice.now.calls.items
            ≡ calls_of self.now.log.now.log self.now.account self.now.kept.now }
        requires by { advice.now.by
            ≡ act_by self.now.log.now.log self.now.account self.now.kept.now }
        requires left { option_copied left
            ≡ left_by self.now.log.now.log self.now.kept.now.links.coin (tip self.now.kept.now) }
        ensures { IfOk result (λ word. word
            ≡ word_of self.now.log.now.log self.now.account clock self.now.kept.now) }
    {
        if let Some(word) = self.sent_word() {
            return Ok(word);
        }
        if let Some(word) = self.paid_word(alloc)? {
            return Ok(word);
        }
        let end = self.first_end();
        if let Some(word) = self.late_word(end) {
            return Ok(word);
        }
        if self.is_stale(clock, end) {
            return Ok(Word::Stale);
        }
        if let Some(word) = self.act_word(alloc, advice)? {
            return Ok(word);
        }
        if let Some(word) = self.left_word(alloc, left)? {
            return Ok(word);
        }
        Ok(match self.leaving_word() {
            Some(word) => word,
            None => self.safe_word(),
        })
    }

    /// The node signed the coin away.
    fn sent_word(&self) -> Option<Word>
        ensures { result ≡ sent_word self.now.log.now.log self.now.kept.now }
    {
        Some(self.away(self.kept.sent?.leaf))
    }

    /// The leaf signed the coin away.
    fn away(&self, leaf: u32) -> Word
        ensures { result ≡ away self.now.log.now.log self.now.kept.now leaf }
    {
        if self.has_strange() {
            return Word::Frozen;
        }
        Word::Sent { leaf }
    }

    /// Whether an exit stands that isn't of the transfer by which the coin was signed away.
    fn has_strange(&self) -> bool
        ensures { result ≡ list_any (is_strange self.now.kept.now) (standing self.now.log.now.log self.now.kept.now) }
    {
        let tip = self.tip();
        self.exits().iter().any(|exit| exit.parent != tip)
    }

    /// The coin was paid out.
    fn paid_word(&self, alloc: Global) -> Result<Option<Word>, NoMemory>
        ensures { IfOk result (λ word. word ≡ paid_word self.now.log.now.log self.now.kept.now) }
    {
        let Some(paid) = payment_of(alloc, self.log, self.coin())? else {
            return Ok(None);
        };
        if paid.account == self.holder() {
            return Ok(Some(Word::Paid));
        }
        Ok(Some(Word::Gone {
            account: paid.account,
            line: paid.line,
        }))
    }

    /// The first end of a window of the coin's exits.
    fn first_end(&self) -> Option<u64>
        ensures { result ≡ first_end self.now.log.now.log self.now.kept.now }
    {
        let tip = self.tip();
        let mut first = None;
        for exit in self.exits() {
            first = first_exit_end(first, tip, exit);
        }
        first
    }

    /// A window ended unseen.
    fn late_word(&self, end: Option<u64>) -> Option<Word>
        requires { end ≡ first_end self.now.log.now.log self.now.kept.now }
        ensures { result ≡ late_word self.now.log.now.log self.now.kept.now }
    {
        Some(Word::Late {
            since: come(self.log.now(), end)?,
        })
    }

    /// Whether the log is old by the caller's clock.
    fn is_stale(&self, clock: u64, end: Option<u64>) -> bool
        requires { end ≡ first_end self.now.log.now.log self.now.kept.now }
        ensures { (if result then Some Word.Stale else None)
            ≡ stale_word self.now.log.now.log clock self.now.kept.now }
    {
        clock > later(self.log.now(), RESPONSE_WINDOW) || come(clock, end).is_some()
    }

    /// Calls are to be entered.
    fn act_word(&self, alloc: Global, advice: &Advice) -> Result<Option<Word>, NoMemory>
        requires calls { advice.now.calls.items
            ≡ calls_of self.now.log.now.log self.now.account self.now.kept.now }
        requires by { advice.now.by
            ≡ act_by self.now.log.now.log self.now.account self.now.kept.now }
        ensures { IfOk result (λ word. word
            ≡ act_word self.now.log.now.log self.now.account self.now.kept.now) }
    {
        let Some(by) = advice.by else {
            return Ok(None);
        };
        let missing = missing(alloc, self.log, self.account, advice.calls.as_slice())?;
        Ok(Some(Word::Act { by, missing }))
    }

    /// An answer shows that the coin has left the tip.
    fn left_word(&self, alloc: Global, left: Option<&RawOpening>) -> Result<Option<Word>, NoMemory>
        requires { option_copied left
            ≡ left_by self.now.log.now.log self.now.kept.now.links.coin (tip self.now.kept.now) }
        ensures { IfOk result (λ word. word ≡ left_word self.now.log.now.log self.now.kept.now) }
    {
        let Some(spend) = left else {
            return Ok(None);
        };
        Ok(match signing_leaf(alloc, spend)? {
            None => None,
            Some(leaf) => Some(self.away(leaf)),
        })
    }

    /// The holder's exit stands.
    fn leaving_word(&self) -> Option<Word>
        ensures { result ≡ leaving_word self.now.log.now.log self.now.kept.now }
    {
        Some(Word::Leaving {
            opens: later(self.tip_exit()?.start, EXIT_PERIOD),
        })
    }

    /// Nothing is to be done.
    fn safe_word(&self) -> Word
        ensures { result ≡ safe_word self.now.log.now.log }
    {
        Word::Safe {
            until: later(self.log.now(), CHALLENGE_WINDOW - 1),
        }
    }
}
