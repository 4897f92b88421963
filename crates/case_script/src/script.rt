//! A script, read whole.
use crate::keys::Keys;
use crate::run::Run;
use crate::value_kind::ValueKind;
use anyhow::{Context, Error, Result};
use std::alloc::Global;
use std::{fmt, fs};
use toml::Table;

const KEYS: [(&str, ValueKind); 7] = [
    ("words", ValueKind::List),
    ("schema", ValueKind::Contents),
    ("table", ValueKind::Contents),
    ("journal", ValueKind::Contents),
    ("spare", ValueKind::Contents),
    ("stays", ValueKind::Flag),
    ("run", ValueKind::List),
];

/// Why a script isn't read.
#[derive(Drop)]
pub enum ScriptFault {
    /// The script, or a file that it names, says nothing that can be run: what is wrong, and where.
    Unreadable(String),
    OutOfMemory,
}

impl ScriptFault {
    fn of(alloc: Global, error: Error) -> ScriptFault {
        match format!(in alloc; "{error:#}") {
            Ok(text) => ScriptFault::Unreadable(text),
            Err(_) => ScriptFault::OutOfMemory,
        }
    }
}

impl fmt::Display for ScriptFault {
    fn fmt<W: fmt::Write>(&self, f: &mut fmt::Formatter<W>) -> fmt::Result {
        match self {
            ScriptFault::Unreadable(text) => f.write_str(text.as_str()),
            ScriptFault::OutOfMemory => f.write_str("out of memory"),
        }
    }
}

/// Reads the script at a path, and the files of `sources/` that it names. Each of its runs is a case.
pub fn read_script(rt: &HostRuntime, path: &str) -> Result<Vec<Run>, ScriptFault> {
    let mut runs = Vec::new(rt.alloc());
    match add_script(rt, path, &mut runs) {
        Ok(()) => Ok(runs),
        Err(error) => Err(ScriptFault::of(rt.alloc(), error)),
    }
}

fn add_script(rt: &HostRuntime, path: &str, runs: &mut Vec<Run>) -> Result<()> {
    let table = read_table(rt, path)?;
    add_runs(rt, Keys::of(&table, &KEYS)?, runs)
}

fn read_table(rt: &HostRuntime, path: &str) -> Result<Table> {
    let text = fs::read_to_string(rt, path)?;
    toml::table_from_str(rt.alloc(), text.as_str()).map_err(Error::from)
}

// Adds the runs, in order. The number of a run counts from 1.
fn add_runs(rt: &HostRuntime, common: Keys, runs: &mut Vec<Run>) -> Result<()> {
    for value in common.list("run").context("no run")? {
        let number = runs.len().saturating_add(1);
        let run = Run::of(rt, common, value).context(format_args!("run {number}"))?;
        runs.push(run)?;
    }
    Ok(())
}
