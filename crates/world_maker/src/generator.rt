ghost use Rattle.std.specs.Prelude.{◌≡◌, ◌++◌, ◌≤◌, length, take, IfOk, OnOk, OnErr};
ghost use Rattle.std.specs.List.{All};
ghost use Rattle.schedule_text.specs.Grammar.{IsLine};
ghost use Rattle.world_maker.specs.Generator.{first_lines, made_text, text_of_lines};

use super::lines::{fund_line, wallet_line, watcher_line};
use super::round::{Round, word_of};
use plasma_base::NoMemory;
use schedule_text::{Line, print};
use std::alloc::Global;

/// The largest number of rounds of a schedule that is made.
pub const MOST_ROUNDS: u64 = 10_000;

/// Puts the schedule of this seed with so many rounds at the end: its lines, each ended by a line feed. Where
/// memory runs out nothing changes.
pub fn make(alloc: Global, seed: u64, count: u64, out: &mut Vec<u8>) -> Result<(), NoMemory>
    requires { count ≤ MOST_ROUNDS }
    ensures ok { OnOk result (out.new.items ≡ out.old.items ++ made_text seed count) }
    ensures err { OnErr result (out.new.items ≡ out.old.items) }
{
    let before = out.len();
    match push_schedule(alloc, seed, count, out) {
        Ok(()) => Ok(()),
        Err(NoMemory) => {
            out.truncate(before);
            Err(NoMemory)
        }
    }
}

// Puts the schedule at the end. Where memory runs out some of its lines may stand there.
fn push_schedule(alloc: Global, seed: u64, count: u64, out: &mut Vec<u8>) -> Result<(), NoMemory>
    requires { count ≤ MOST_ROUNDS }
    ensures ok { OnOk result (out.new.items ≡ out.old.items ++ made_text seed count) }
    ensures front { take (length out.old.items) out.new.items ≡ out.old.items }
{
    let first = first_lines(alloc)?;
    push_lines(&first, out)?;
    let mut lines = first.len() as u64;
    for done in 0..count {
        let number = done + 1;
        let word = word_of(seed, number);
        let round = Round {
            number,
            word,
            lines_before: lines,
        };
        let round_lines = round.lines(alloc)?;
        push_lines(&round_lines, out)?;
        lines += round_lines.len() as u64;
    }
    Ok(())
}

// Puts lines at the end, each ended by a line feed. Where memory runs out some of them may stand there.
fn push_lines(lines: &[Line], out: &mut Vec<u8>) -> Result<(), NoMemory>
    requires { All IsLine lines.now }
    ensures ok { OnOk result (out.new.items ≡ out.old.items ++ text_of_lines lines.now) }
    ensures front { take (length out.old.items) out.new.items ≡ out.old.items }
{
    for line in lines {
        print(line, out)?;
        out.push(b'\n')?;
    }
    Ok(())
}

// The lines that say who takes part.
fn first_lines(alloc: Global) -> Result<Vec<Line>, NoMemory>
    ensures { IfOk result (λ lines. lines.items ≡ first_lines) }
{
    let chain = Line::Chain {
        tag: 1,
        operator: 9,
        most: 3000,
    };
    Ok(vec![in alloc;
        chain,
        wallet_line(alloc, b"a", 11, 1)?,
        wallet_line(alloc, b"b", 12, 2)?,
        wallet_line(alloc, b"c", 13, 3)?,
        watcher_line(alloc, b"g", 14)?,
        fund_line(11),
        fund_line(12),
        fund_line(13),
        fund_line(14),
    ]?)
}
