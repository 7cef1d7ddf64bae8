use super::case_file::CaseFile;
use super::running::Runs;
use super::stage::Stage;
use super::table::Case;
use anyhow::Result;
use std::fs::{File, Files};

/// How many cases there were, each combination of a table's rows counted, how many runs they made, and how many
/// weren't as expected.
#[derive(Clone, Copy)]
pub struct Tally {
    pub cases: u64,
    pub runs: u64,
    pub wrong: u64,
}

// How a combination of a case's rows isn't as expected, where it isn't, and how many runs it made.
fn play_rows<R: Files<File = File> + AllocGlobal, P: Runs>(
    rt: &R,
    runs: &P,
    head: &[&str],
    case: &Case<'_>,
    rows: u64,
    told: &mut String,
) -> Result<(Option<String>, u64)> {
    let mut stage = Stage::new(rt.alloc());
    for line in head {
        let _ = stage.take(rt, runs, line)?;
    }
    *told = case.bind(rt.alloc(), rows, &mut stage.names)?;
    let difference = play_body(rt, runs, &mut stage, case.body.as_slice())?;
    stage.leave(rt)?;
    Ok((difference, stage.runs))
}

// How the first run that isn't as expected differs.
fn play_body<R: Files<File = File> + AllocGlobal, P: Runs>(
    rt: &R,
    runs: &P,
    stage: &mut Stage,
    body: &[&str],
) -> Result<Option<String>> {
    for line in body {
        if let Some(difference) = stage.take(rt, runs, line)? {
            return Ok(Some(difference));
        }
    }
    stage.close(rt, runs)
}

fn play_case<R: Files<File = File> + Print + AllocGlobal, P: Runs>(
    rt: &R,
    runs: &P,
    file: &str,
    head: &[&str],
    case: &Case<'_>,
    tally: &mut Tally,
) -> Result<()> {
    let alloc = rt.alloc();
    let title = case.title;
    for rows in 0..case.count() {
        tally.cases = tally.cases.saturating_add(1);
        let mut told = String::new(alloc);
        let difference = match play_rows(rt, runs, head, case, rows, &mut told) {
            Ok((difference, runs)) => {
                tally.runs = tally.runs.saturating_add(runs);
                difference
            }
            Err(error) => Some(format!(in alloc; "{error}")?),
        };
        if let Some(difference) = difference {
            tally.wrong = tally.wrong.saturating_add(1);
            println!(rt; "{file}: {title}{told}: {difference}")?;
        }
    }
    Ok(())
}

/// Plays the cases of a file, whose text and whose shared names are given, by what makes their runs. Prints a line for each that isn't as
/// expected. An `Err` says why the file can't be played, or that memory or the output failed.
pub fn play_file<R: Files<File = File> + Print + AllocGlobal, P: Runs>(
    rt: &R,
    runs: &P,
    file: &str,
    names: &str,
    text: &str,
) -> Result<Tally> {
    let alloc = rt.alloc();
    let cases = CaseFile::read(alloc, names, text)?;
    let mut tally = Tally {
        cases: 0,
        runs: 0,
        wrong: 0,
    };
    for lines in cases.cases.iter() {
        let case = Case::read(alloc, lines.as_slice())?;
        play_case(rt, runs, file, cases.head.as_slice(), &case, &mut tally)?;
    }
    Ok(tally)
}
