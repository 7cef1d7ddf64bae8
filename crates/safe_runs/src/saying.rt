ghost use Rattle.std.specs.Prelude.{◌≡◌, ◌++◌, ◌∷◌, [], map, IfOk, OnOk};
ghost use Rattle.std.specs.List.{flat_map, list_all};
ghost use Rattle.plasma_tx.specs.Money.{amount_of};
ghost use Rattle.plasma_tx.specs.Views.{coin_at};
ghost use Rattle.safe_runs.specs.Answers.{phrase, call_line, command_line, word_text, is_good, coin_line, case_word, case_calls, case_command, told_text, case_text, is_case_good};

use super::case::Case;
use coin_safety::{Command, Judgement, Kept, Word, judge};
use line_forms::push_number;
use plasma_base::NoMemory;
use plasma_tx::{RootCall, RootLog};
use root_log::print_call;
use std::alloc::Global;

/// One look: the log, the account that would enter calls, and the time by the caller's clock.
#[derive(Drop)]
pub struct Look<'a> {
    pub log: &'a RootLog,
    pub account: u64,
    pub clock: u64,
}

// Puts a word and the numbers behind it at the end, each after a blank.
fn push_phrase(out: &mut Vec<u8>, words: &[u8], numbers: &[u64]) -> Result<(), NoMemory>
    ensures { OnOk result (out.new.items ≡ out.old.items ++ phrase words.now numbers.now) }
{
    out.extend_from_slice(words)?;
    for number in numbers {
        out.push(b' ')?;
        push_number(out, *number)?;
    }
    Ok(())
}

// Puts what is said of a coin at the end.
fn push_word(out: &mut Vec<u8>, word: Word) -> Result<(), NoMemory>
    ensures { OnOk result (out.new.items ≡ out.old.items ++ word_text word) }
{
    match word {
        Word::Safe { until } => push_phrase(out, b"safe", &[until]),
        Word::Act { by, missing } => push_phrase(out, b"act", &[by, missing]),
        Word::Sent { leaf } => push_phrase(out, b"sent", &[u64::from(leaf)]),
        Word::Leaving { opens } => push_phrase(out, b"leaving", &[opens]),
        Word::Paid => push_phrase(out, b"paid", &[]),
        Word::Gone { account, line } => push_phrase(out, b"gone", &[account, line]),
        Word::Late { since } => push_phrase(out, b"late", &[since]),
        Word::Frozen => push_phrase(out, b"frozen", &[]),
        Word::Stale => push_phrase(out, b"stale", &[]),
    }
}

// Puts the line of a coin at the end.
fn push_line(out: &mut Vec<u8>, coin: u64, amount: u64, word: Word) -> Result<(), NoMemory>
    ensures { OnOk result (out.new.items ≡ out.old.items ++ coin_line coin amount word) }
{
    push_number(out, coin)?;
    out.push(b' ')?;
    push_number(out, amount)?;
    out.push(b' ')?;
    push_word(out, word)?;
    out.push(b'\n')?;
    Ok(())
}

// Puts calls at the end, each as a line of a log.
fn push_calls(out: &mut Vec<u8>, calls: &[RootCall]) -> Result<(), NoMemory>
    ensures { OnOk result (out.new.items ≡ out.old.items ++ flat_map call_line calls.now) }
{
    for call in calls {
        print_call(call, out)?;
        out.push(b'\n')?;
    }
    Ok(())
}

// Puts what the node is told of a coin at the end, as a line.
fn push_command(out: &mut Vec<u8>, kept: &Kept, command: Command) -> Result<(), NoMemory>
    ensures { OnOk result (out.new.items ≡ out.old.items ++ command_line kept.now command) }
{
    let coin = kept.links.coin;
    match command {
        Command::Release => push_phrase(out, b"release", &[coin, kept.links.tip()])?,
        Command::Reclaim { last } => push_phrase(out, b"reclaim", &[coin, last])?,
    }
    out.push(b'\n')?;
    Ok(())
}

// Whether nothing is to be done.
fn is_good(word: Word) -> bool
    ensures { result ≡ is_good word }
{
    match word {
        Word::Safe { .. } => true,
        Word::Sent { .. } => true,
        Word::Leaving { .. } => true,
        Word::Paid => true,
        _ => false,
    }
}

impl Look<'_> {
    // How a case stands, and what has to be entered.
    fn judged(&self, alloc: Global, case: &Case) -> Result<Judgement, NoMemory>
        ensures word { IfOk result (λ judged. judged.word
            ≡ case_word self.now.log.now.log self.now.account self.now.clock case.now) }
        ensures calls { IfOk result (λ judged. judged.calls.items
            ≡ case_calls self.now.log.now.log self.now.account self.now.clock case.now) }
        ensures command { IfOk result (λ judged. judged.command
            ≡ case_command self.now.log.now.log self.now.account self.now.clock case.now) }
    {
        match &case.kept {
            None => Ok(Judgement {
                word: Word::Stale,
                calls: Vec::new(alloc),
                command: None,
            }),
            Some(kept) => judge(alloc, self.log, self.account, self.clock, kept),
        }
    }

    // The amount of a coin; 0 where the log doesn't have it.
    fn amount(&self, coin: u64) -> u64
        ensures { result ≡ amount_of (coin_at self.now.log.now.log coin) }
    {
        match self.log.coin(coin) {
            Some(made) => made.amount,
            None => 0,
        }
    }

    // Puts what the node is told of a case at the end, if anything.
    fn tell(&self, case: &Case, command: Option<Command>, out: &mut Vec<u8>) -> Result<(), NoMemory>
        requires { command ≡ case_command self.now.log.now.log self.now.account self.now.clock case.now }
        ensures { OnOk result (out.new.items ≡ out.old.items
            ++ told_text self.now.log.now.log self.now.account self.now.clock case.now) }
    {
        let Some(kept) = &case.kept else {
            return Ok(());
        };
        match command {
            Some(command) => push_command(out, kept, command),
            None => Ok(()),
        }
    }

    // Puts what is said of a case at the end, and answers whether nothing is to be done.
    fn say_case(&self, alloc: Global, case: &Case, out: &mut Vec<u8>) -> Result<bool, NoMemory>
        ensures text { OnOk result (out.new.items ≡ out.old.items
            ++ case_text self.now.log.now.log self.now.account self.now.clock case.now) }
        ensures good { IfOk result (λ good. good
            ≡ is_case_good self.now.log.now.log self.now.account self.now.clock case.now) }
    {
        let judged = self.judged(alloc, case)?;
        push_line(out, case.coin, self.amount(case.coin), judged.word)?;
        push_calls(out, &judged.calls)?;
        self.tell(case, judged.command, out)?;
        Ok(is_good(judged.word))
    }

    /// Puts what is said of cases at the end, in their order, and answers whether nothing is to be done for any.
    pub fn say(&self, alloc: Global, cases: &[Case], out: &mut Vec<u8>) -> Result<bool, NoMemory>
        ensures text { OnOk result (out.new.items ≡ out.old.items
            ++ flat_map (case_text self.now.log.now.log self.now.account self.now.clock) cases.now) }
        ensures good { IfOk result (λ good. good
            ≡ list_all (is_case_good self.now.log.now.log self.now.account self.now.clock) cases.now) }
    {
        let mut are_good = true;
        for case in cases {
            let is_good = self.say_case(alloc, case, out)?;
            are_good = are_good && is_good;
        }
        Ok(are_good)
    }
}
