//! How a difference is reported.
use anyhow::{Error, Result, anyhow};
use audit_types::NoMemory;
use case_script::Run;
use std::{fmt, io};

/// That memory ran out, as the program reports it.
pub fn no_memory(_: NoMemory) -> Error {
    anyhow!("out of memory")
}

/// A case, by its script and its run.
#[derive(Clone, Copy)]
pub struct Case<'a> {
    pub script: &'a str,
    pub run: &'a Run,
}

impl Case<'_> {
    /// Prints what is wrong.
    pub fn tell<W: fmt::Display + Drop>(self, rt: &HostRuntime, what: W) -> io::Result<()> {
        let Case { script, run } = self;
        println!(rt; "{script}: {}\n  {what}", run.shows)
    }

    /// Whether what came is what was due; a difference is printed.
    pub fn agrees<T: PartialEq + fmt::Display>(
        self,
        rt: &HostRuntime,
        what: &str,
        due: &T,
        came: &T,
    ) -> Result<bool> {
        if due == came {
            return Ok(true);
        }
        self.tell(rt, Difference { what, due, came })?;
        Ok(false)
    }
}

// What was due, and what came in its place.
#[derive(Drop)]
struct Difference<'a, T> {
    what: &'a str,
    due: &'a T,
    came: &'a T,
}

impl<T: fmt::Display> fmt::Display for Difference<'_, T> {
    fn fmt<W: fmt::Write>(&self, f: &mut fmt::Formatter<W>) -> fmt::Result {
        let Difference { what, due, came } = self;
        write!(f, "{what} due:  {due}\n  {what} came: {came}")
    }
}

/// Bytes that are shown as text, if they are text without a byte 0, and else in hex.
#[derive(Clone, Copy, PartialEq, Eq)]
pub struct Bytes<'a>(pub &'a [u8]);

impl fmt::Display for Bytes<'_> {
    fn fmt<W: fmt::Write>(&self, f: &mut fmt::Formatter<W>) -> fmt::Result {
        match str::from_utf8(self.0) {
            Ok(text) if !self.0.contains(&0) => write!(f, "{text:?}"),
            _ => write_hex(f, self.0),
        }
    }
}

fn write_hex<W: fmt::Write>(f: &mut fmt::Formatter<W>, bytes: &[u8]) -> fmt::Result {
    for byte in bytes {
        write!(f, "{byte:02x}")?;
    }
    Ok(())
}
