//! Whether a run leaves the files that are due.
use crate::left::{Files, left_by};
use crate::stage::Benches;
use crate::telling::{Bytes, Case};
use anyhow::Result;
use bench_core::MemoryBench;
use case_script::{Left, Once, Over};

/// Whether both files are as due of a run over these, as they read and after a crash; a difference is printed.
pub fn leaves_files(
    rt: &HostRuntime,
    name: Case,
    start: &Files,
    once: &Once,
    benches: &Benches,
) -> Result<bool> {
    let journal = Leaving {
        name,
        what: "",
        bench: &benches.journal,
    };
    let spare = Leaving {
        name,
        what: "spare's ",
        bench: &benches.spare,
    };
    let mut met = true;
    if once.leaves_start {
        met &= journal.is_left(rt, Over::Left, &start.journal)?;
    }
    if once.leaves_spare {
        met &= spare.is_left(rt, Over::Left, &start.spare)?;
    }
    met &= journal.are_left(rt, &once.left)?;
    met &= spare.are_left(rt, &once.spare_left)?;
    Ok(met)
}

// A bench of a case, and what comes before the name of its file.
#[derive(Clone, Copy)]
struct Leaving<'a> {
    name: Case<'a>,
    what: &'a str,
    bench: &'a MemoryBench,
}

impl Leaving<'_> {
    // Whether the bench leaves each of these files.
    fn are_left(self, rt: &HostRuntime, due: &[Left]) -> Result<bool> {
        let mut met = true;
        for left in due {
            met &= self.is_left(rt, left.over, &left.file)?;
        }
        Ok(met)
    }

    // Whether the bench leaves the file with these bytes.
    fn is_left(self, rt: &HostRuntime, over: Over, due: &[u8]) -> Result<bool> {
        let left = left_by(rt.alloc(), over, self.bench)?;
        let what = format!(in rt.alloc(); "{}{}", self.what, over.name())?;
        self.name
            .agrees(rt, what.as_str(), &Bytes(due), &Bytes(&left))
    }
}
