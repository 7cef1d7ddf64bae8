//! Plays the cases of the files that the words name, and prints how each of them isn't as expected, and a line
//! for each file that says how many cases it has. Where all are as expected the status is 0. `docs/CASES.md`
//! has the form of the files.
#![tactic(auto)]

use anyhow::{Result, bail};
use case_runs::{Tally, play_file};
use plasma_runs::PlasmaRuns;
use std::{env, fs};

/// What stands in this file is read in front of the cases of each other.
const NAMES: &str = "names";

fn main(rt: HostRuntime) -> Result<()> {
    let alloc = rt.alloc();
    let files: Vec<String> = env::args(&rt)?.skip(1).collect(alloc)?;
    let names = fs::read_to_string(&rt, NAMES)?;
    let mut wrong = 0u64;
    for file in files.iter() {
        let text = fs::read_to_string(&rt, file.as_str())?;
        let tally = play_file(
            &rt,
            &PlasmaRuns,
            file.as_str(),
            names.as_str(),
            text.as_str(),
        )?;
        let Tally {
            cases,
            runs,
            wrong: here,
        } = tally;
        wrong = wrong.saturating_add(here);
        println!(rt; "{file}: {cases} cases, {runs} runs, {here} not as expected")?;
    }
    if wrong > 0 {
        bail!("{wrong} cases are not as expected");
    }
    Ok(())
}
