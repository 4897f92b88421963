//! The files as a run left them, and at the start of the next.
use crate::stage::Benches;
use crate::telling::no_memory;
use anyhow::{Error, Result, bail};
use bench_core::MemoryBench;
use case_script::{Over, Run, Start};
use std::alloc::Global;

/// The journal's file and the spare's.
#[derive(Drop)]
pub struct Files {
    pub journal: Vec<u8>,
    pub spare: Vec<u8>,
}

// The number that a bench in memory has for a file that it leaves.
fn pick(over: Over) -> u8 {
    match over {
        Over::Left => 0,
        Over::Synced => 1,
        Over::Torn => 2,
    }
}

/// A file that a bench leaves.
pub fn left_by(alloc: Global, over: Over, bench: &MemoryBench) -> Result<Vec<u8>> {
    let left = bench.crashed(pick(over)).map_err(no_memory)?;
    left.file().to_vec(alloc).map_err(Error::from)
}

/// Both files that a run leaves.
pub fn files_left(alloc: Global, over: Over, benches: &Benches) -> Result<Files> {
    images_left(alloc, over, over, benches)
}

/// Both files that a run leaves, each as it says.
pub fn images_left(alloc: Global, journal: Over, spare: Over, benches: &Benches) -> Result<Files> {
    Ok(Files {
        journal: left_by(alloc, journal, &benches.journal)?,
        spare: left_by(alloc, spare, &benches.spare)?,
    })
}

/// The files at the start of a run, if a run before left these benches.
pub fn start_of(alloc: Global, run: &Run, before: &Option<Benches>) -> Result<Files> {
    let mut files = match (&run.start, before) {
        (Start::Journal(file), _) => made_of(alloc, file.to_vec(alloc)?),
        (Start::After(over), Some(benches)) => files_left(alloc, *over, benches)?,
        (Start::Spare, Some(benches)) => {
            made_of(alloc, left_by(alloc, Over::Left, &benches.spare)?)
        }
        (Start::After(_) | Start::Spare, None) => bail!("no run before {:?}", run.shows),
    };
    if let Some(file) = &run.spare {
        files.spare = file.to_vec(alloc)?;
    }
    Ok(files)
}

// This journal, and no spare.
fn made_of(alloc: Global, journal: Vec<u8>) -> Files {
    Files {
        journal,
        spare: Vec::new(alloc),
    }
}
