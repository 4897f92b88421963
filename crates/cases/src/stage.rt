//! What a run of the program is over, in memory, and how it ends.
use crate::left::Files;
use crate::telling::no_memory;
use anyhow::Result;
use auditor_top::{Status, run};
use bench_core::{MemoryBench, Room};
use case_script::{Exchange, Failures, Pieces, Run};
use std::alloc::Global;

/// How many bytes a run may write, and at how many calls of a run a fault is tried.
pub const ROOM: u64 = 65_536;

/// How many bytes a run may send, and how many calls it may make. A bench takes memory for all of them.
#[derive(Clone, Copy)]
pub struct Most {
    sent: u64,
    calls: u64,
}

/// Those of a run that is made once: a verdict for each answer of a full history, and more.
pub const ONCE: Most = Most {
    sent: 4_194_304,
    calls: 131_072,
};

/// Those of a run that is made with a fault at each call: there are many of them, and they are short.
pub const EACH: Most = Most {
    sent: 65_536,
    calls: 8_192,
};

/// A run, the files at its start, and what it may do.
#[derive(Clone, Copy)]
pub struct Stage<'a> {
    pub run: &'a Run,
    pub start: &'a Files,
    pub most: Most,
}

/// The bench of the journal and of what is sent, and that of the spare.
#[derive(Drop)]
pub struct Benches {
    pub journal: MemoryBench,
    pub spare: MemoryBench,
}

/// How a run ended, and the benches that it leaves.
#[derive(Drop)]
pub struct End {
    pub status: Status,
    pub benches: Benches,
}

impl Stage<'_> {
    /// Runs the program over these files, with what is typed and the calls that fail.
    pub fn run(
        self,
        alloc: Global,
        files: &Files,
        exchange: &Exchange,
        failures: Failures,
    ) -> Result<End> {
        let (fails, stop) = (failures.bench, failures.stop);
        let mut bench = bench_over(alloc, &files.journal, self.most, fails, stop)?;
        // Nothing is sent on it.
        let most = Most {
            sent: 0,
            ..self.most
        };
        let (fails, stop) = (failures.spare, failures.spare_stop);
        let mut spare = bench_over(alloc, &files.spare, most, fails, stop)?;
        let status = run_over(alloc, self.run, exchange, failures, &mut bench, &mut spare);
        let benches = Benches {
            journal: bench,
            spare,
        };
        Ok(End { status, benches })
    }
}

fn run_over(
    alloc: Global,
    case: &Run,
    exchange: &Exchange,
    failures: Failures,
    bench: &mut MemoryBench,
    spare: &mut MemoryBench,
) -> Status {
    let mut schema = Pieces::new(&case.schema, case.most, failures.schema);
    let mut table = Pieces::new(&case.table, case.most, failures.table);
    let mut input = Pieces::new(&exchange.typed, case.most, failures.input);
    run(
        alloc,
        &case.words,
        &mut schema,
        &mut table,
        &mut input,
        bench,
        spare,
    )
}

// A bench with this file, of which one call fails, or all from one on.
fn bench_over(
    alloc: Global,
    start: &[u8],
    most: Most,
    fails: Option<u64>,
    stop: Option<u64>,
) -> Result<MemoryBench> {
    let room = Room {
        file: (start.len() as u64).saturating_add(ROOM),
        sent: most.sent,
        calls: most.calls,
        written: ROOM,
    };
    let mut failing = Vec::new(alloc);
    if let Some(call) = fails {
        failing.push(call)?;
    }
    MemoryBench::new(alloc, start, room, failing, stop).map_err(no_memory)
}
