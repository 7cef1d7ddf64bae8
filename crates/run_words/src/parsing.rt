ghost use Rattle.std.specs.Prelude.{◌≡◌, true, false, is_some, map, string_bytes, IfOk, IfErr};
ghost use Rattle.clap.specs.Words.{app_of, shape_of, kind_of, subcommand_rows_of};
ghost use Rattle.clap.specs.declared.builder.command.Command.TheViews.{out-Command as fields_of};
ghost use Rattle.run_words.specs.Forms.{form_of};
ghost use Rattle.run_words.specs.Parsing.{subcommand_shape, run_command, matched_words};

use clap::error::ErrorKind;
use clap::{Arg, ArgMatches, Command, Error};
use std::alloc::{AllocError, Global};

// The names that forms begin with.
const NAMES: [&str; 11] = [
    "replay", "brief", "wallet", "operator", "watcher", "init", "make", "verify", "hss", "audit",
    "archive",
];

// The subcommand of a name, whose one positional takes the words that remain.
fn subcommand<'a>(alloc: Global, name: &'a str) -> Result<Command<'a>, AllocError>
    ensures shape { IfOk result (λ command. shape_of command ≡ subcommand_shape name.entry.now) }
    ensures local { IfOk result (λ command. (fields_of command).has_globals ≡ false) }
{
    let rest = Arg::new(alloc, "rest").num_args(0..).trailing_var_arg(true);
    Command::new(alloc, name).arg(rest)
}

// The command of a run: a subcommand for each name. No word of a form asks for help, so that it has none.
fn command<'a>(alloc: Global) -> Result<Command<'a>, AllocError>
    ensures { IfOk result (λ command. app_of command ≡ run_command) }
{
    let mut command = Command::new(alloc, "plasma")
        .no_binary_name(true)
        .disable_help_flag(true)
        .disable_help_subcommand(true);
    for name in NAMES {
        command = command.subcommand(subcommand(alloc, name)?)?;
    }
    Ok(command)
}

/// The matches of words that are a form. Where it fails, memory ran out.
pub fn parse<'a>(alloc: Global, words: &'a [String]) -> Result<ArgMatches<'a>, Error>
    ensures matches { is_some (form_of (map string_bytes words.entry.now)) ≡ true
        → IfOk result (λ found. matched_words (subcommand_rows_of found) ≡ map string_bytes words.entry.now) }
    ensures fails { is_some (form_of (map string_bytes words.entry.now)) ≡ true
        → IfErr result (λ error. kind_of error ≡ ErrorKind.OutOfMemory) }
{
    command(alloc)?.try_get_matches_from(words)
}
