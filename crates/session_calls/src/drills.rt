//! A drill taken by hand through the calls that make a journal, start a store and serve its lines, in groups of 64. What became of the
//! lines is counted here, and was worked out by demo/drill.py.
ghost use Rattle.std.specs.Prelude.{◌≡◌, [], true, OnOk};
ghost use Rattle.audit_types.specs.Shapes.{IsShape};
ghost use Rattle.set_index.specs.Indexed.{public_shape};
ghost use Rattle.bench_core.specs.BenchContents.{file_of};
ghost use Rattle.journal_form.specs.Journal.{StandsFor};
ghost use Rattle.audit_store.specs.Stores.{IsAsLeft};

use answer_journal::Journal;
use audit_session::serve;
use audit_store::{Guarded, Store};
use audit_types::{NoMemory, Shape};
use bench_core::{MemoryBench, Room, SteadySource};
use drill_case::{drill_lines, drill_schema, drill_table};
use set_index::Index;
use std::alloc::Global;
use table_load::{Secret, Table};

const ROOM: Room = Room {
    file: 1 << 20,
    sent: 1 << 20,
    calls: 1 << 14,
    written: 1 << 20,
};

// Makes the journal of a table over an empty file.
fn make(bench: &mut MemoryBench, shape: &Shape) -> Result<(), NoMemory>
    requires shape { IsShape shape.now }
    requires empty { file_of bench.old ≡ [] }
    ensures made { OnOk result (StandsFor (file_of bench.new) shape.now []) }
{
    Journal::make(bench, shape).map_err(|_| NoMemory)
}

// Serves the lines over a store.
fn serve_lines(
    alloc: Global,
    index: &Index,
    store: &mut Store,
    lines: Vec<u8>,
    bench: &mut MemoryBench,
) -> Result<(), NoMemory>
    requires usable { store.old.usable ≡ true }
    requires shape { store.old.secret.shape ≡ public_shape index.now }
    requires stands { IsAsLeft (file_of bench.old) store.old }
{
    let mut source = SteadySource::new(lines);
    serve(alloc, index, store, &mut source, bench, 64).map_err(|_| NoMemory)
}

// Starts the store of a table over its new journal, and serves the lines of a drill.
fn start(
    alloc: Global,
    number: u32,
    index: &Index,
    secret: Secret,
    bench: &mut MemoryBench,
) -> Result<(), NoMemory>
    requires shape { secret.shape ≡ public_shape index.now }
    requires empty { file_of bench.old ≡ [] }
{
    make(bench, &secret.shape())?;
    let lines = drill_lines(alloc, number)?;
    let protected = index.protected().copy(alloc)?;
    match Store::start(alloc, Guarded::new(secret, protected), bench) {
        Ok(mut store) => serve_lines(alloc, index, &mut store, lines, bench),
        Err(_) => Err(NoMemory),
    }
}

fn play(alloc: Global, number: u32, bench: &mut MemoryBench) -> Result<(), NoMemory>
    requires { file_of bench.old ≡ [] }
{
    let schema = drill_schema(alloc)?;
    let Table { public, secret } = drill_table(alloc, number)?;
    let Ok(index) = Index::new(alloc, schema, public) else {
        return Err(NoMemory);
    };
    start(alloc, number, &index, secret, bench)
}

// How many replies a drill gets, how many of them are answers, and how many are denials of unsafe questions.
fn counts(alloc: Global, number: u32) -> Result<(usize, usize, usize), NoMemory> {
    let mut bench = MemoryBench::new(alloc, b"", ROOM, Vec::new(alloc), None)?;
    play(alloc, number, &mut bench)?;
    let lines = || bench
        .sent()
        .split(|byte| *byte == b'\n')
        .filter(|line| !line.is_empty());
    let is_answer = |line: &&[u8]| {
        [b"{\"sum\"", b"{\"num\"", b"{\"max\""]
            .iter()
            .any(|front| line.starts_with(*front))
    };
    let answers = lines().filter(is_answer).count();
    let denials = lines()
        .filter(|line| *line == b"{\"denied\":\"unsafe\"}".as_slice())
        .count();
    Ok((lines().count(), answers, denials))
}

#[test]
fn drill_by_hand(rt: HostRuntime) {
    assert!(rt; counts(rt.alloc(), 0) == Ok((600, 493, 107)));
    assert!(rt; counts(rt.alloc(), 1) == Ok((600, 509, 91)));
}
