//! Tells whether a signature of a file is valid: `verify_example KEY FILE SIGNATURE`. The words name files of bytes: a
//! public key, what was signed, and the signature, as RFC 8554 lays them out. It writes a word, and its status is that
//! of the verdict: 0 valid, 1 invalid, 2 no key. Where a file can't be read it is 3.
#![tactic(auto)]

ghost use Rattle.verify_example.specs.Verdicts.{Says};

use anyhow::{Context, Result, bail};
use lms_sign::{PublicKey, verify};
use std::process::ExitCode;
use std::{env, fs};

/// What is said of a key, a message and a signature; its number is the program's status.
#[derive(Clone, Copy)]
enum Verdict {
    Valid = 0,
    Invalid = 1,
    NoKey = 2,
}

/// The status where the words are others, or a file can't be read.
const UNREAD: u8 = 3;

impl Verdict {
    /// The verdict as a word.
    fn word(self) -> &'static str {
        match self {
            Verdict::Valid => "valid",
            Verdict::Invalid => "invalid",
            Verdict::NoKey => "no key",
        }
    }
}

/// The verdict on any bytes. What is decided is decided here, over values, so that a contract can say it: `Says` has
/// what each verdict means, by the definitions of `lms_sign`. The prover knows the clauses of what is called, here of
/// `read` and `verify`, so no proof is written.
fn judge(key: &[u8], message: &[u8], signature: &[u8]) -> Verdict
    ensures { Says result key.now message.now signature.now }
{
    let Ok(key) = <&[u8; 56]>::try_from(key) else {
        return Verdict::NoKey;
    };
    let Ok(key) = PublicKey::read(key) else {
        return Verdict::NoKey;
    };
    if verify(&key, message, signature) {
        Verdict::Valid
    } else {
        Verdict::Invalid
    }
}

/// The bytes of a file.
fn read(rt: &HostRuntime, path: &str) -> Result<Vec<u8>> {
    fs::read(rt, path).context(format_args!("reading {path}"))
}

/// The verdict on the files that the words name. No clause can say what a file has: here files are read, and no more.
fn judge_files(rt: &HostRuntime) -> Result<Verdict> {
    let words: Vec<String> = env::args(rt)?.skip(1).collect(rt.alloc())?;
    let [key, message, signature] = words.as_slice() else {
        bail!("usage: verify_example KEY FILE SIGNATURE");
    };
    let key = read(rt, key.as_str())?;
    let message = read(rt, message.as_str())?;
    let signature = read(rt, signature.as_str())?;
    let verdict = judge(&key, &message, &signature);
    println!(rt; "{}", verdict.word())?;
    Ok(verdict)
}

fn main(rt: HostRuntime) -> ExitCode {
    match judge_files(&rt) {
        Ok(verdict) => ExitCode::from(verdict as u8),
        Err(error) => {
            let _ = eprintln!(rt; "{error:#}");
            ExitCode::from(UNREAD)
        }
    }
}
