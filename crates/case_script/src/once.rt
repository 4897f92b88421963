//! What is due of a run that is made once.
use crate::contents::bytes_of;
use crate::exchange::Exchange;
use crate::failures::Failures;
use crate::keys::Keys;
use crate::over::Over;
use crate::value_kind::{ValueKind, byte_of};
use anyhow::{Context, Result};
use std::alloc::Global;
use toml::Value;

const CRASH_KEYS: [(&str, ValueKind); 2] = [
    ("synced", ValueKind::Contents),
    ("torn", ValueKind::Contents),
];

/// The bytes of a file that are due, as it reads or after a crash.
#[derive(Drop)]
pub struct Left {
    pub over: Over,
    pub file: Vec<u8>,
}

/// What is typed, which calls fail, and what is due.
#[derive(Drop)]
pub struct Once {
    pub exchange: Exchange,
    pub failures: Failures,
    /// The exit status.
    pub status: u8,
    /// The text of the status.
    pub text: String,
    /// The journal's files that are looked at.
    pub left: Vec<Left>,
    /// Whether the journal's file is to be as it was at the start.
    pub leaves_start: bool,
    /// The spare's files that are looked at.
    pub spare_left: Vec<Left>,
    /// Whether the spare's file is to be as it was at the start.
    pub leaves_spare: bool,
    /// How many calls of the bench are made.
    pub calls: Option<u64>,
    /// How many calls of the spare are made.
    pub spare_calls: Option<u64>,
}

impl Once {
    fn new(alloc: Global) -> Once {
        Once {
            exchange: Exchange::new(alloc),
            failures: Failures::default(),
            status: 0,
            text: String::new(alloc),
            left: Vec::new(alloc),
            leaves_start: false,
            spare_left: Vec::new(alloc),
            leaves_spare: false,
            calls: None,
            spare_calls: None,
        }
    }

    pub(crate) fn of(rt: &HostRuntime, common: Keys, run: Keys) -> Result<Once> {
        let mut once = Once::new(rt.alloc());
        once.read(rt, common, run).and(Ok(once))
    }

    fn read(&mut self, rt: &HostRuntime, common: Keys, run: Keys) -> Result<()> {
        if let Some(fails) = run.table("fails", &Failures::KEYS)? {
            self.failures = Failures::of(fails);
        }
        self.calls = run.count("calls");
        self.spare_calls = run.count("spare_calls");
        self.exchange.read(rt, run)?;
        self.read_end(run)?;
        self.read_files(rt, run)?;
        self.leaves_start |= run.flag_or(common, "stays");
        self.read_spare(rt, run)
    }

    // Reads the exit status and its text.
    fn read_end(&mut self, run: Keys) -> Result<()> {
        if let Some(values) = run.list("ends") {
            let (status, text) = status_and_text(values).context("ends is a status and a text")?;
            self.status = status;
            self.text.push_str(text)?;
        }
        Ok(())
    }

    fn read_files(&mut self, rt: &HostRuntime, run: Keys) -> Result<()> {
        match run.value("file") {
            Some(contents) => add_left(rt, &mut self.left, Over::Left, contents)?,
            None => self.leaves_start = ends_before_lines(self.status),
        }
        match run.table("crash", &CRASH_KEYS)? {
            Some(crash) => add_crash(rt, &mut self.left, crash),
            None => Ok(()),
        }
    }

    fn read_spare(&mut self, rt: &HostRuntime, run: Keys) -> Result<()> {
        match run.value("spare_file") {
            Some(contents) => add_left(rt, &mut self.spare_left, Over::Left, contents)?,
            None => self.leaves_spare = true,
        }
        match run.table("spare_crash", &CRASH_KEYS)? {
            Some(crash) => add_crash(rt, &mut self.spare_left, crash),
            None => Ok(()),
        }
    }
}

// Adds the two files that a crash leaves.
fn add_crash(rt: &HostRuntime, left: &mut Vec<Left>, crash: Keys) -> Result<()> {
    let (synced, torn) = crash
        .value("synced")
        .zip(crash.value("torn"))
        .context("a crash leaves a synced file and a torn one")?;
    add_left(rt, left, Over::Synced, synced)?;
    add_left(rt, left, Over::Torn, torn)
}

fn add_left(rt: &HostRuntime, left: &mut Vec<Left>, over: Over, contents: &Value) -> Result<()> {
    let file = bytes_of(rt, Some(contents))?;
    left.push(Left { over, file })?;
    Ok(())
}

// The statuses that come before the first line; the journal's file is then as it was.
fn ends_before_lines(status: u8) -> bool {
    matches!(status, 2..=4 | 7..=12 | 20..=22)
}

fn status_and_text(values: &[Value]) -> Option<(u8, &str)> {
    match values {
        [status, text] => byte_of(status).zip(text.as_str()),
        _ => None,
    }
}
