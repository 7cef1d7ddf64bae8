ghost use Rattle.std.specs.Prelude.{◌≡◌, true, Some, None, Err, IfOk, IfErr};
ghost use Rattle.line_forms.specs.Forms.{takes, begins_as, value_in};
ghost use Rattle.line_forms.specs.Words.{words_of};
ghost use Rattle.log_runs.specs.Grammar.{ask_form, asks, ask_has_bytes, archive_begins_with_bytes, archive_line_in};
ghost use Rattle.log_runs.specs.Kept.{SpellsNone};

use super::reading::read_call;
use line_forms::{LineRefusal, Words, named};
use plasma_base::Bytes;
use plasma_tx::RootCall;
use std::alloc::Global;
use streamed_lines::{Halt, Stop};

/// A line of an archive's run behind the log.
#[derive(Drop)]
pub enum ArchiveLine {
    /// `event ` and a line of a log: the call joins the log.
    Event { call: RootCall },
    /// The archive is asked.
    Ask { ask: ArchiveAsk },
}

/// What an archive is asked.
#[derive(Drop)]
pub enum ArchiveAsk {
    /// `put <coin> <block> <hex>`: to keep the block's opening at the coin.
    Put {
        coin: u64,
        block: u64,
        opening: Bytes,
    },
    /// `tip <coin>`: the coin's greatest tip.
    Tip {
        coin: u64,
    },
    /// `broken <coin>`: the coin's broken block, or that it is whole.
    Broken {
        coin: u64,
    },
    /// `bundle <coin> <tip>`: the coin's history up to this tip.
    Bundle {
        coin: u64,
        tip: u64,
    },
}

/// The first word of what an archive is asked.
#[derive(Clone, Copy)]
pub enum ArchiveAskName {
    Put,
    Tip,
    Broken,
    Bundle,
}

/// The first words of what an archive is asked.
pub const ARCHIVE_ASK_NAMES: [(&[u8], ArchiveAskName); 4] = [
    (b"put", ArchiveAskName::Put),
    (b"tip", ArchiveAskName::Tip),
    (b"broken", ArchiveAskName::Broken),
    (b"bundle", ArchiveAskName::Bundle),
];

/// What stands before a call of the log.
const EVENT: &[u8] = b"event ";

// What is asked with this first word.
fn ask_of(
    alloc: Global,
    name: ArchiveAskName,
    words: &mut Words<'_>,
) -> Result<ArchiveAsk, LineRefusal>
    ensures found { IfOk result (λ ask. takes (ask_form name) words.old ≡ Some (ask, words.new)) }
    ensures bad { result ≡ Err LineRefusal.BadLine → takes (ask_form name) words.old ≡ None }
    ensures memory { result ≡ Err LineRefusal.NoMemory → ask_has_bytes name ≡ true }
{
    match name {
        ArchiveAskName::Put => Ok(ArchiveAsk::Put {
            coin: words.number()?,
            block: words.number()?,
            opening: words.hex(alloc)?,
        }),
        ArchiveAskName::Tip => Ok(ArchiveAsk::Tip {
            coin: words.number()?,
        }),
        ArchiveAskName::Broken => Ok(ArchiveAsk::Broken {
            coin: words.number()?,
        }),
        ArchiveAskName::Bundle => Ok(ArchiveAsk::Bundle {
            coin: words.number()?,
            tip: words.number()?,
        }),
    }
}

// What a line asks.
#[tactic(auto, unfolding(line_forms::specs::Forms::value_in))]
fn read_ask(alloc: Global, line: &[u8]) -> Result<ArchiveAsk, LineRefusal>
    ensures found { IfOk result (λ ask. value_in asks line.now ≡ Some ask) }
    ensures bad { result ≡ Err LineRefusal.BadLine → value_in asks line.now ≡ None }
    ensures memory { result ≡ Err LineRefusal.NoMemory → begins_as asks ask_has_bytes (words_of line.now) ≡ true }
{
    let mut words = Words::of(line);
    let word = words.next().ok_or(LineRefusal::BadLine)?;
    let name = named(&ARCHIVE_ASK_NAMES, word).ok_or(LineRefusal::BadLine)?;
    let ask = ask_of(alloc, name, &mut words)?;
    words.end()?;
    Ok(ask)
}

/// The line of an archive's run that bytes spell, without a line feed.
#[tactic(auto, unfolding(crate::specs::Grammar::archive_line_in))]
pub fn read_archive_line(alloc: Global, line: &[u8]) -> Result<ArchiveLine, Halt<Bytes>>
    ensures found { IfOk result (λ it. archive_line_in line.now ≡ Some it) }
    ensures bad { IfErr result (SpellsNone (archive_line_in line.now)) }
    ensures memory { result ≡ Err Halt.NoMemory → archive_begins_with_bytes line.now ≡ true }
{
    if line.starts_with(EVENT) {
        let call = read_call(alloc, &line[6..])?;
        return Ok(ArchiveLine::Event { call });
    }
    match read_ask(alloc, line) {
        Ok(ask) => Ok(ArchiveLine::Ask { ask }),
        Err(LineRefusal::BadLine) => Err(Halt::Stops {
            stop: Stop::BadLine,
        }),
        Err(LineRefusal::NoMemory) => Err(Halt::NoMemory),
    }
}
