//! Runs scripts of cases through the program's top call, over files in memory, and prints each difference.
//!
//! Standard input names the scripts, a line each. README.md has their format, and `case_script` reads them.
#![tactic(auto)]

mod due;
mod leaving;
mod left;
mod playing;
mod stage;
mod stopping;
mod tally;
mod telling;

use crate::playing::play;
use crate::tally::Tally;
use anyhow::{Context, Result, bail};
use case_script::read_script;
use std::process::ExitCode;

fn main(rt: HostRuntime) -> ExitCode {
    match run_listed(&rt) {
        Ok(tally) if tally.failed == 0 && tally.passed > 0 => ExitCode::SUCCESS,
        Ok(_) => ExitCode::FAILURE,
        Err(error) => {
            let _ = eprintln!(rt; "{error:#}");
            ExitCode::from(2)
        }
    }
}

// Runs the scripts that standard input names, and prints how many cases passed.
fn run_listed(rt: &HostRuntime) -> Result<Tally> {
    let mut tally = Tally::default();
    for line in rt.lines(rt.alloc()) {
        let path = line?;
        run_script(rt, path.as_str(), &mut tally).context(format_args!("{path}"))?;
    }
    println!(rt; "{tally}")?;
    Ok(tally)
}

fn run_script(rt: &HostRuntime, path: &str, tally: &mut Tally) -> Result<()> {
    match read_script(rt, path) {
        Ok(runs) => play(rt, path, &runs, tally),
        Err(fault) => bail!("{fault}"),
    }
}
