ghost use Rattle.std.specs.Prelude.{◌≡◌, ◌≤◌, true, [], ◌++◌, Some, None, Err, IfOk, OnOk, OnErr};
ghost use Rattle.line_forms.specs.Tokens.{AreBytes};
ghost use Rattle.plasma_tx.specs.Chain.{with_log};
ghost use Rattle.schedule_text.specs.Grammar.{begins_with_bytes};
ghost use Rattle.root_log.specs.Grammar.{call_in, call_text, chain_in, chain_text, IsLogChain, appended, TakesMemory, begins_as_chain};

use super::calls::call_of_line;
use super::first_line::{FirstLine, MOST_BLOCKS};
use super::lines::line_of;
use super::refusal::LogRefusal;
use plasma_base::NoMemory;
use plasma_tx::{RootCall, RootLog};
use std::alloc::Global;

/// The empty log of the chain that the first line of a log names, without a line feed:
/// `chain <hex of 32 bytes> <operator> <most>`, where `most` is from 1 to `MOST_BLOCKS`. Unless memory
/// runs out it refuses `BadEvent` exactly where the line isn't in the grammar; it takes memory only where
/// the first word is `chain`.
#[tactic(auto, unfolding(crate::specs::Grammar::chain_in))]
pub fn read_chain(alloc: Global, line: &[u8]) -> Result<RootLog, LogRefusal>
    ensures found { IfOk result (λ log. chain_in line.now ≡ Some log) }
    ensures bad { result ≡ Err LogRefusal.BadEvent → chain_in line.now ≡ None }
    ensures memory { result ≡ Err LogRefusal.NoMemory → begins_as_chain line.now ≡ true }
    ensures grammar { IfOk result IsLogChain }
{
    let first: FirstLine = line_forms::read(alloc, line)?;
    Ok(RootLog::make(alloc, first.tag, first.operator, first.most))
}

/// Puts the first line of a log at the end, without a line feed; `read_chain` reads it as the log
/// without its calls. Where memory runs out nothing changes.
#[tactic(auto, unfolding(crate::specs::Grammar::chain_text))]
pub fn print_chain(log: &RootLog, out: &mut Vec<u8>) -> Result<(), NoMemory>
    requires least { 1 ≤ log.now.most_blocks }
    requires most { log.now.most_blocks ≤ MOST_BLOCKS }
    ensures ok { OnOk result (out.new.items ≡ out.old.items ++ chain_text log.now) }
    ensures read_back { OnOk result (chain_in (chain_text log.now) ≡ Some (with_log log.now [])) }
    ensures err { OnErr result (out.new.items ≡ out.old.items) }
{
    let tag = log.tag();
    each_has_eight_bits(&tag);
    let first = FirstLine {
        tag,
        operator: log.operator(),
        most: log.most_blocks(),
    };
    line_forms::print(&first, out)
}

// What holds of all bytes, said of these. It does nothing.
fn each_has_eight_bits(bytes: &[u8])
    ensures { AreBytes bytes.now }
{}

/// The call that a line spells, without a line feed: a `fund`, `tick` or `call` line of a schedule with each
/// key and each opening a hex. `BadEvent` where the line is none; it takes the memory of the call, and of a name or
/// bytes in a line of another kind.
#[tactic(auto, unfolding(crate::specs::Grammar::call_in))]
pub fn read_call(alloc: Global, line: &[u8]) -> Result<RootCall, LogRefusal>
    ensures found { IfOk result (λ call. call_in line.now ≡ Some call) }
    ensures bad { result ≡ Err LogRefusal.BadEvent → call_in line.now ≡ None }
    ensures memory { result ≡ Err LogRefusal.NoMemory → begins_with_bytes line.now ≡ true }
{
    let line = schedule_text::read(alloc, line)?;
    call_of_line(line).ok_or(LogRefusal::BadEvent)
}

/// Appends the call that a line spells, without a line feed: a `fund`, `tick` or `call` line of a
/// schedule with each key and each opening a hex. The log takes it at its word, so any call is
/// appended, also one that no contract accepted. Unless memory runs out it refuses `BadEvent` exactly
/// where the line isn't in the grammar, and memory is taken only for a call, or where the first word begins a
/// form that may have a name or bytes; a refusal leaves the log as it was.
pub fn read_line(alloc: Global, log: &mut RootLog, line: &[u8]) -> Result<(), LogRefusal>
    ensures ok { OnOk result (appended log.old line.now ≡ Some log.new) }
    ensures bad { result ≡ Err LogRefusal.BadEvent → call_in line.now ≡ None }
    ensures memory { result ≡ Err LogRefusal.NoMemory → TakesMemory line.now }
    ensures err { OnErr result (log.new ≡ log.old) }
{
    let call = read_call(alloc, line)?;
    Ok(log.push(call)?)
}

/// Puts the line of a call at the end, without a line feed; `read_line` reads it as that call. Where
/// memory runs out nothing changes.
#[tactic(auto, unfolding(crate::specs::Grammar::call_text))]
pub fn print_call(call: &RootCall, out: &mut Vec<u8>) -> Result<(), NoMemory>
    ensures ok { OnOk result (out.new.items ≡ out.old.items ++ call_text call.now) }
    ensures read_back { OnOk result (call_in (call_text call.now) ≡ Some call.now) }
    ensures err { OnErr result (out.new.items ≡ out.old.items) }
{
    let line = line_of(*out.allocator(), call)?;
    schedule_text::print(&line, out)
}
