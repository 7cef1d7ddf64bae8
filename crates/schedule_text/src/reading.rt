ghost use Rattle.std.specs.Prelude.{◌≡◌, true, Some, None, Err, IfOk};
ghost use Rattle.std.specs.Map.{lookup};
ghost use Rattle.std.specs.Str.{bytes_eq};
ghost use Rattle.line_forms.specs.Forms.{takes};
ghost use Rattle.schedule_text.specs.Grammar.{types, optional_types, declaration_form, deed_form, line_form, has_bytes, line_names};

use super::call_reading::call;
use super::command_reading::{command, command_name, command_of};
use super::line::{LAST_LEAF, Line, MOST_BLOCKS};
use super::names::{DeclarationName, DeedName, LINE_NAMES, LineName};
use line_forms::{LineRefusal, Words, named};
use lms_sign::LmsTypes;
use std::alloc::Global;

// `<lms> <ots>`: the types of a key.
fn types(words: &mut Words<'_>) -> Result<LmsTypes, LineRefusal>
    ensures found { IfOk result (λ value. types.take words.old ≡ Some (value, words.new)) }
    ensures bad { result ≡ Err LineRefusal.BadLine → types.take words.old ≡ None }
{
    Ok(LmsTypes {
        lms: words.number_within(5, 6)? as u32,
        ots: words.number_within(3, 4)? as u32,
    })
}

// `[<lms> <ots>]`: the types of a key, or no word where the line ends.
fn optional_types(words: &mut Words<'_>) -> Result<Option<LmsTypes>, LineRefusal>
    ensures found { IfOk result (λ value. optional_types.take words.old ≡ Some (value, words.new)) }
    ensures bad { result ≡ Err LineRefusal.BadLine → optional_types.take words.old ≡ None }
{
    if words.is_empty() {
        return Ok(None);
    }
    Ok(Some(types(words)?))
}

// The line with this first word that declares a name.
fn declaration_of(
    alloc: Global,
    name: DeclarationName,
    words: &mut Words<'_>,
) -> Result<Line, LineRefusal>
    ensures found { IfOk result (λ line. takes (declaration_form name) words.old ≡ Some (line, words.new)) }
    ensures bad { result ≡ Err LineRefusal.BadLine → takes (declaration_form name) words.old ≡ None }
{
    match name {
        DeclarationName::Wallet => Ok(Line::Wallet {
            name: words.declared_name(alloc)?,
            account: words.number()?,
            seed: words.number()?,
            types: optional_types(words)?,
        }),
        DeclarationName::Watcher => Ok(Line::Watcher {
            name: words.declared_name(alloc)?,
            account: words.number()?,
        }),
        DeclarationName::Rogue => Ok(Line::Rogue {
            name: words.declared_name(alloc)?,
            account: words.number()?,
            seed: words.number()?,
            types: optional_types(words)?,
        }),
    }
}

// The line with this first word of what is done with a declared name.
fn deed_of(alloc: Global, name: DeedName, words: &mut Words<'_>) -> Result<Line, LineRefusal>
    ensures found { IfOk result (λ line. takes (deed_form name) words.old ≡ Some (line, words.new)) }
    ensures bad { result ≡ Err LineRefusal.BadLine → takes (deed_form name) words.old ≡ None }
{
    match name {
        DeedName::Deposit => Ok(Line::Deposit {
            wallet: words.name(alloc)?,
            amount: words.number()?,
        }),
        DeedName::Enter => Ok(Line::Enter {
            node: words.name(alloc)?,
            number: words.number()?,
        }),
        DeedName::Sign => Ok(Line::Sign {
            rogue: words.name(alloc)?,
            leaf: words.number_within(0, LAST_LEAF)?,
            coin: words.number()?,
            parent: words.number()?,
            to: words.to(alloc)?,
            last: words.optional_number()?,
        }),
        DeedName::Crash => Ok(Line::Crash {
            node: words.name(alloc)?,
            outcome: words.outcome(alloc)?,
        }),
        DeedName::Cut => Ok(Line::Cut {
            node: words.name(alloc)?,
            calls: words.number()?,
            outcome: words.outcome(alloc)?,
            command: command(alloc, words)?,
        }),
    }
}

/// The line with this first word.
pub fn line_of(alloc: Global, name: LineName, words: &mut Words<'_>) -> Result<Line, LineRefusal>
    ensures found { IfOk result (λ line. takes (line_form name) words.old ≡ Some (line, words.new)) }
    ensures bad { result ≡ Err LineRefusal.BadLine → takes (line_form name) words.old ≡ None }
    ensures memory { result ≡ Err LineRefusal.NoMemory → has_bytes name ≡ true }
{
    match name {
        LineName::Chain => Ok(Line::Chain {
            tag: words.number()?,
            operator: words.number()?,
            most: words.number_within(1, MOST_BLOCKS)?,
        }),
        LineName::Fund => Ok(Line::Fund {
            account: words.number()?,
            amount: words.number()?,
        }),
        LineName::Tick => Ok(Line::Tick {
            time: words.number()?,
        }),
        LineName::Money => Ok(Line::Money {
            account: words.number()?,
        }),
        LineName::Call => Ok(Line::Call {
            account: words.number()?,
            form: call(alloc, words)?,
        }),
        LineName::Declaration(name) => declaration_of(alloc, name, words),
        LineName::Deed(name) => deed_of(alloc, name, words),
        LineName::Command(name) => Ok(Line::Command {
            command: command_of(alloc, name, words)?,
        }),
    }
}

/// What line the word begins: one of the line's own first words, or one of a command's.
pub fn line_name(word: &[u8]) -> Option<LineName>
    ensures { result ≡ lookup (bytes_eq word.now) line_names }
{
    match named(&LINE_NAMES, word) {
        Some(name) => Some(name),
        None => Some(LineName::Command(command_name(word)?)),
    }
}
