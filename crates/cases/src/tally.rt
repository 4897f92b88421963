//! How cases are counted.
use std::fmt;

/// How many cases passed, how many differ that are there to differ, and how many failed.
#[derive(Clone, Copy, Default)]
pub struct Tally {
    pub passed: u32,
    pub differing: u32,
    pub failed: u32,
}

impl Tally {
    /// Counts a case by whether all that was due of it came, and whether it is there to differ.
    pub fn count(&mut self, met: bool, differs: bool) {
        let count = match (met, differs) {
            (true, false) => &mut self.passed,
            (false, true) => &mut self.differing,
            (true, true) | (false, false) => &mut self.failed,
        };
        *count = count.saturating_add(1);
    }
}

impl fmt::Display for Tally {
    fn fmt<W: fmt::Write>(&self, f: &mut fmt::Formatter<W>) -> fmt::Result {
        write!(
            f,
            "{} cases passed, {} differ as due, {} failed",
            self.passed, self.differing, self.failed
        )
    }
}
