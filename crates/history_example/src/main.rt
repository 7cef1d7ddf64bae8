//! Checks the history of a coin: `history_example LOG BUNDLE`. LOG is a root contract's log as text, a first line that
//! names the chain and a line for each call; BUNDLE is a file with the hex of a bundle, as an operator answers it. It
//! writes the coin's blocks with their owners, and ends with status 0. Else it says on standard error why the bundle is
//! no history, or what can't be read, and ends with status 1.
#![tactic(auto)]

ghost use Rattle.std.specs.Prelude.{◌≡◌, ◌≢◌, None, Some, Err, IfOk};
ghost use Rattle.std.specs.Str.Lines.{lines};
ghost use Rattle.history_example.specs.Logs.{texts, and_calls, log_in};
ghost use Rattle.history_example.specs.Shown.{IsShown, answer_of};

use anyhow::{Context, Result, bail};
use coin_history::{Bundle, HistoryRefusal, check, histories_are_checked};
use plasma_base::{Sha, take_hex};
use plasma_tx::{Links, RootLog};
use root_log::{LogRefusal, read_chain, read_line};
use std::alloc::{AllocError, Global};
use std::{env, fs};

/// The lines of a text.
fn lines_of(alloc: Global, text: &str) -> Result<Vec<&str>, AllocError>
    ensures { IfOk result (λ found. texts found.items ≡ lines text.now) }
{
    text.lines().collect(alloc)
}

/// The log with the call of each line as its newest. A line is taken at its word.
fn with_calls(alloc: Global, mut log: RootLog, calls: &[&str]) -> Result<RootLog, LogRefusal>
    ensures found { IfOk result (λ after. and_calls (Some log) calls.now ≡ Some after) }
    ensures bad { result ≡ Err LogRefusal.BadEvent → and_calls (Some log) calls.now ≡ None }
{
    for call in calls {
        read_line(alloc, &mut log, call.as_bytes())?;
    }
    Ok(log)
}

/// The log that a text spells, or BadEvent where it spells none.
fn read_log(alloc: Global, text: &str) -> Result<RootLog, LogRefusal>
    ensures found { IfOk result (λ log. log_in text.now ≡ Some log) }
    ensures bad { result ≡ Err LogRefusal.BadEvent → log_in text.now ≡ None }
{
    let Ok(lines) = lines_of(alloc, text) else {
        return Err(LogRefusal::NoMemory);
    };
    let Some((first, calls)) = lines.split_first() else {
        return Err(LogRefusal::BadEvent);
    };
    let log = read_chain(alloc, first.as_bytes())?;
    with_calls(alloc, log, calls)
}

/// The links of the history that a bundle's bytes spell under a log, or the first cause for which they spell none.
/// `check` answers by the definition `history_of`, as `value` says. That links which it answers are the coin's whole
/// history, as `history` says, is a law: the call of a law does nothing, and hands its statement to the prover.
fn links_of(alloc: Global, log: &RootLog, bytes: &[u8]) -> Result<Links, HistoryRefusal>
    ensures value { result ≢ Err HistoryRefusal.NoMemory → result ≡ answer_of log.now bytes.now }
    ensures history { IfOk result (IsShown log.now bytes.now) }
{
    histories_are_checked();
    let bundle = Bundle::read(alloc, bytes)?;
    check(alloc, &Sha, log, &bundle)
}

fn main(rt: HostRuntime) -> Result<()> {
    let alloc = rt.alloc();
    let words: Vec<String> = env::args(&rt)?.skip(1).collect(alloc)?;
    let [log, bundle] = words.as_slice() else {
        bail!("usage: history_example LOG BUNDLE");
    };
    let text = fs::read_to_string(&rt, log.as_str()).context("reading the log")?;
    let log = read_log(alloc, text.as_str()).context("the log")?;
    let text = fs::read_to_string(&rt, bundle.as_str()).context("reading the bundle")?;
    let bytes = take_hex(alloc, text.trim_end().as_bytes()).context("the bundle")?;
    let links = links_of(alloc, &log, &bytes)?;
    println!(rt; "coin {}", links.coin)?;
    println!(rt; "block {}: account {}", links.deposit, links.owner.account)?;
    for link in links.spends.as_slice() {
        println!(rt; "block {}: account {}", link.block, link.tx.body.to.account)?;
    }
    Ok(())
}
