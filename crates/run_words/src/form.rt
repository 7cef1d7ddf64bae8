ghost use Rattle.std.specs.Prelude.{◌≡◌, IfOk, map, string_bytes};
ghost use Rattle.clap.specs.Words.{subcommand_rows_of};
ghost use Rattle.run_words.specs.Forms.{form_of, IsSound};
ghost use Rattle.run_words.specs.Parsing.{matched_words};

use super::naming::form_named;
use super::parsing::parse;
use super::spelling::is_form;
use clap::ArgMatches;
use lms_sign::LmsTypes;
use plasma_base::{Bytes, NoMemory};
use std::alloc::Global;

/// What the words of a run ask for.
#[derive(Drop)]
pub enum Form {
    /// `replay`: a schedule is read, and its trace is written.
    Replay,
    /// `brief`: a schedule is read, and the counts of its trace are written.
    Brief,
    /// `wallet`: commands are read, and the wallet that the files keep answers them.
    Wallet,
    /// `operator`: commands are read, and the operator that the files keep answers them.
    Operator,
    /// `watcher`: commands are read, and the watcher that the files keep answers them.
    Watcher,
    /// `init wallet <tag> <account> <seed>`, and then `<lms> <ots>` or nothing: a wallet's files are
    /// made. Without these two the types are 5 and 4.
    InitWallet {
        tag: [u8; 32],
        account: u64,
        seed: [u8; 32],
        types: LmsTypes,
    },
    /// `init operator <tag> <account>`, and then `<seed>` or nothing: an operator's files are made. With the
    /// seed it has a key, whose leaves sign receipts.
    InitOperator {
        tag: [u8; 32],
        account: u64,
        key_seed: Option<[u8; 32]>,
    },
    /// `init watcher <tag> <account>`: a watcher's files are made.
    InitWatcher {
        tag: [u8; 32],
        account: u64,
    },
    /// `make <seed> <count>`: a schedule of so many rounds is written.
    Make {
        seed: u64,
        count: u64,
    },
    /// `verify <key> <message> <signature>`, each a `0x` text.
    Verify {
        key: Bytes,
        message: Bytes,
        signature: Bytes,
    },
    /// `hss init <seed>`: the files of a two-level signer are made.
    HssInit {
        seed: [u8; 32],
    },
    /// `hss sign <message>`, a `0x` text: the signer that the files keep signs it.
    HssSign {
        message: Bytes,
    },
    /// `hss verify <key> <message> <signature>`, each a `0x` text, under a key of two levels.
    HssVerify {
        key: Bytes,
        message: Bytes,
        signature: Bytes,
    },
    /// `audit <key> <receipt>`, each a `0x` text, the key of 56 bytes: a log and a bundle are read, and judged by the
    /// receipt.
    Audit {
        key: [u8; 56],
        receipt: Bytes,
    },
    /// `archive`: a log and commands are read, and an archive answers them.
    Archive,
}

// The form that the matches of words hold.
#[tactic(auto, unfolding(crate::specs::Forms::form_of))]
fn matched_form(alloc: Global, found: &ArgMatches<'_>) -> Result<Option<Form>, NoMemory>
    ensures { IfOk result (λ form. form ≡ form_of (matched_words (subcommand_rows_of found.now))) }
{
    let Some((name, inner)) = found.subcommand() else {
        return Ok(None);
    };
    let rest = inner.get_strs("rest").unwrap_or(&[]);
    form_named(alloc, name, rest)
}

/// The form that the words are; `None` where they are none.
pub fn form_of(alloc: Global, words: &[String]) -> Result<Option<Form>, NoMemory>
    ensures form { IfOk result (λ form. form ≡ form_of (map string_bytes words.now)) }
    ensures sound { IfOk result IsSound }
{
    if !is_form(words) {
        return Ok(None);
    }
    match parse(alloc, words) {
        Ok(found) => matched_form(alloc, &found),
        Err(_) => Err(NoMemory),
    }
}
