use super::ask::{Ask, status_of};
use super::digest::CaseDigest;
use super::disks::{Disks, cut_disk, disk_of};
use super::names::Names;
use super::numbers::{number, numbers};
use super::report::report;
use super::running::{Found, Runs, play, play_over_files, remove_files};
use anyhow::{Result, bail};
use std::alloc::Global;
use std::fs::{File, Files};

/// Where the runs of a case take place: the disks, which one run hands to the next, what the last one wrote,
/// and the run that is being gathered.
#[derive(Drop)]
pub struct Stage {
    alloc: Global,
    pub names: Names,
    digest: CaseDigest,
    disks: Disks,
    is_folder: bool,
    output: Vec<u8>,
    ask: Option<Ask>,
    pub runs: u64,
}

impl Stage {
    /// Empty disks in memory, SHA-256, and no name.
    pub fn new(alloc: Global) -> Stage {
        Stage {
            alloc,
            names: Names::new(alloc),
            digest: CaseDigest::named(false),
            disks: Disks::empty(alloc),
            is_folder: false,
            output: Vec::new(alloc),
            ask: None,
            runs: 0,
        }
    }

    /// Takes a line of the case. Where that ends a run which wasn't as expected, how it differs.
    pub fn take<R: Files<File = File> + AllocGlobal, P: Runs>(
        &mut self,
        rt: &R,
        runs: &P,
        line: &str,
    ) -> Result<Option<String>> {
        if let Some((asked, answer)) = line.split_once(" => ") {
            self.ask_line(asked.trim_end(), 1)?;
            self.expect_answer(answer)?;
            return Ok(None);
        }
        let (first, rest) = line.split_once(' ').unwrap_or((line, ""));
        if let Some(times) = first.strip_prefix('<') {
            let times = if times.is_empty() { 1 } else { number(times)? };
            self.ask_line(rest, times)?;
            return Ok(None);
        }
        match first {
            ">" => {
                let text = String::from_str(self.alloc, rest)?;
                self.ask()?.want.lines.push(text)?;
                Ok(None)
            }
            "run" | "let" | "notes" | "leaves" | "cut" | "digest" | "folder" => {
                let told = self.close(rt, runs)?;
                self.change(rt, first, rest)?;
                Ok(told)
            }
            _ => {
                self.note(first, rest)?;
                Ok(None)
            }
        }
    }

    // The run that is being gathered.
    fn ask(&mut self) -> Result<&mut Ask> {
        match &mut self.ask {
            Some(ask) => Ok(ask),
            None => bail!("no run stands in front of this line"),
        }
    }

    // A line of the input, so many times.
    fn ask_line(&mut self, text: &str, times: u64) -> Result<()> {
        let text = self.names.expand(text)?;
        let ask = self.ask()?;
        for _ in 0..times {
            ask.input.extend_from_slice(text.as_bytes())?;
            ask.input.extend_from_slice(b"\n")?;
        }
        if let Some(lines) = ask.lines {
            ask.lines = Some(lines.saturating_add(times));
        }
        Ok(())
    }

    // The answer to the last line of the input. A bad line ends a replay.
    fn expect_answer(&mut self, answer: &str) -> Result<()> {
        let alloc = self.alloc;
        let ask = self.ask()?;
        let text = match ask.lines {
            Some(number) if answer == "bad line" => {
                ask.want.status = 3;
                format!(in alloc; "bad line {number}")?
            }
            Some(number) => format!(in alloc; "{number} {answer}")?,
            None => String::from_str(alloc, answer)?,
        };
        ask.want.lines.push(text)?;
        Ok(())
    }

    // What stands between two runs.
    fn change<R: Files>(&mut self, rt: &R, first: &str, rest: &str) -> Result<()> {
        let text = self.names.expand(rest)?;
        let text = text.as_str();
        match (first, text.split_once(' ')) {
            ("run", _) => self.ask = Some(self.begun(text)?),
            ("let", _) => {
                let Some((name, value)) = text.split_once(" = ") else {
                    bail!("let without =");
                };
                self.names.bind(name, value)?;
            }
            ("digest", _) => match text {
                "sha" => self.digest = CaseDigest::named(false),
                "toy" => self.digest = CaseDigest::named(true),
                _ => bail!("no digest {text}"),
            },
            ("folder", _) => {
                remove_files(rt)?;
                self.is_folder = true;
            }
            ("notes", _) => self.disks.notes = disk_of(self.alloc, text)?,
            ("leaves", _) => self.disks.leaves = disk_of(self.alloc, text)?,
            (_, Some(("notes", count))) => {
                self.disks.notes = cut_disk(self.alloc, &self.disks.notes, number(count)?)?;
            }
            (_, Some(("leaves", count))) => {
                self.disks.leaves = cut_disk(self.alloc, &self.disks.leaves, number(count)?)?;
            }
            _ => bail!("what is cut?"),
        }
        Ok(())
    }

    // A run of these words.
    fn begun(&self, text: &str) -> Result<Ask> {
        let mut words = Vec::new(self.alloc);
        for word in text.split(' ') {
            if !word.is_empty() {
                words.push(String::from_str(self.alloc, word)?)?;
            }
        }
        let lines = if text == "replay" { Some(0) } else { None };
        Ok(Ask::new(self.alloc, words, lines))
    }

    // What else is said of the run. The images of `has` keep their holes.
    fn note(&mut self, first: &str, rest: &str) -> Result<()> {
        let alloc = self.alloc;
        if let ("has", Some((device, pattern))) = (first, rest.split_once(' ')) {
            let pattern = String::from_str(alloc, pattern)?;
            let want = &mut self.ask()?.want;
            match device {
                "notes" => want.notes = Some(pattern),
                _ => want.leaves = Some(pattern),
            }
            return Ok(());
        }
        let text = self.names.expand(rest)?;
        let text = text.as_str();
        match first {
            "fail" | "fuse" => self.note_faults(first, text),
            "output" => {
                let input = self.output.as_slice().to_vec(alloc)?;
                self.ask()?.input = input;
                Ok(())
            }
            _ => note_rest(alloc, self.ask()?, first, text),
        }
    }

    // Which calls fail.
    fn note_faults(&mut self, first: &str, text: &str) -> Result<()> {
        let alloc = self.alloc;
        let Some((device, list)) = text.split_once(' ') else {
            bail!("{first} of what?");
        };
        let ask = self.ask()?;
        match (first, device) {
            ("fail", "source") => ask.source_fails = numbers(alloc, list)?,
            ("fail", "sink") => ask.sink_fails = numbers(alloc, list)?,
            ("fail", "notes") => ask.notes.fails = numbers(alloc, list)?,
            ("fail", "leaves") => ask.leaves.fails = numbers(alloc, list)?,
            ("fuse", "notes") => ask.notes.fuse = Some(number(list)?),
            ("fuse", "leaves") => ask.leaves.fuse = Some(number(list)?),
            _ => bail!("no such device: {device}"),
        }
        Ok(())
    }

    /// Removes the files of a case with `folder`.
    pub fn leave<R: Files>(&self, rt: &R) -> Result<()> {
        if self.is_folder {
            remove_files(rt)?;
        }
        Ok(())
    }

    /// Makes the run that was gathered. How it differs from what is expected, where it does.
    pub fn close<R: Files<File = File> + AllocGlobal, P: Runs>(
        &mut self,
        rt: &R,
        runs: &P,
    ) -> Result<Option<String>> {
        let Some(ask) = self.ask.take() else {
            return Ok(None);
        };
        self.runs = self.runs.saturating_add(1);
        self.digest.calls.set(0);
        let found = if self.is_folder {
            play_over_files(rt, runs, &self.digest, &ask)?
        } else {
            play(self.alloc, runs, &self.digest, &ask, &mut self.disks)?
        };
        let digests = self.digest.calls.get();
        let told = report(self.alloc, &mut self.names, &ask.want, &found, digests)?;
        let Found { output, .. } = found;
        self.output = output;
        Ok(told)
    }
}

// What is said of the run in one word or more.
fn note_rest(alloc: Global, ask: &mut Ask, first: &str, text: &str) -> Result<()> {
    match first {
        "pieces" => ask.pieces = numbers(alloc, text)?,
        "unended" => {
            let _ = ask.input.pop();
        }
        "crash" => ask.crash = Some(String::from_str(alloc, text)?),
        "left" => ask.want.left = Some(number(text)?),
        "digests" => ask.want.digests = Some(number(text)?),
        "text" => ask.want.text = Some(String::from_str(alloc, text)?),
        "ends" => match status_of(text) {
            Some(code) => ask.want.status = code,
            None => bail!("no status {text}"),
        },
        _ => bail!("no such line: {first} {text}"),
    }
    Ok(())
}
