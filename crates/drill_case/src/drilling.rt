//! The step of the command: a drill's lines are answered over its table, in memory, and their summary is sent.
ghost use Rattle.std.specs.Prelude.{◌≡◌, ◌≤◌, ◌+◌, [], List, true, length, take, IfErr, IfOk, IsErrOf, OnOk};
ghost use Rattle.audit_types.specs.Shapes.{IsShape};
ghost use Rattle.audit_types.specs.declared.records.Answered.{Answered};
ghost use Rattle.schema_json.specs.Columns.{no_guards};
ghost use Rattle.table_load.specs.Cells.{FitsSchema};
ghost use Rattle.table_load.specs.Database.{base_of};
ghost use Rattle.bench_core.specs.BenchContents.{file_of, sent_of};
ghost use Rattle.bench_core.specs.Calls.{IsQuiet, TellsFault};
ghost use Rattle.bench_core.specs.Stops.{IsOfBench};
ghost use Rattle.journal_form.specs.Journal.{StandsFor};
ghost use Rattle.audit_store.specs.Stores.{IsAsLeft};
ghost use Rattle.line_wire.specs.Lines.{counted_lines};
ghost use Rattle.set_index.specs.Indexed.{public_shape};
ghost use Rattle.audit_session.specs.Ends.{Serves, base_over};
ghost use Rattle.drill_case.specs.Tables.{drill_columns, drill_public, drill_rows, drill_secret};
ghost use Rattle.drill_case.specs.Lines.{drill_text};
ghost use Rattle.drill_case.specs.Drills.{drill_protection, AnswersDrill, IsSummary, SendsSummary, SendsSummaryFront};

use crate::counting::tally;
use crate::laws::lines_of_replies;
use crate::lines::drill_lines;
use crate::summaries::summary;
use crate::tables::{drill_schema, drill_table};
use answer_journal::{AlreadyThere, Journal};
use audit_store::{Guarded, Store};
use audit_types::{NoMemory, Shape};
use bench_core::{Bench, End, MemoryBench, Room, SteadySource, Stop};
use schema_json::Schema;
use set_index::{Index, IndexFault};
use std::alloc::Global;
use table_load::{Secret, Table};

// The journal and the replies of a drill stay in the program's own memory.
const ROOM: Room = Room {
    file: 1_048_576,
    sent: 1_048_576,
    calls: 16_384,
    written: 1_048_576,
};

// Makes the journal of a table over an empty file.
fn make(bench: &mut MemoryBench, shape: &Shape) -> Result<(), NoMemory>
    requires shape { IsShape shape.now }
    requires empty { file_of bench.old ≡ [] }
    ensures made { OnOk result (StandsFor (file_of bench.new) shape.now []) }
    ensures sent { sent_of bench.new ≡ sent_of bench.old }
{
    match Journal::make(bench, shape) {
        Ok(()) => Ok(()),
        Err(End::Stopped(_)) => Err(NoMemory),
        Err(End::Refused(AlreadyThere)) => unreachable!(),
    }
}

// Answers the lines over a store, each by itself.
fn answer_over(
    alloc: Global,
    index: &Index,
    store: &mut Store,
    lines: Vec<u8>,
    bench: &mut MemoryBench,
) -> Result<(), NoMemory>
    requires usable { store.old.usable ≡ true }
    requires shape { store.old.secret.shape ≡ public_shape index.now }
    requires stands { IsAsLeft (file_of bench.old) store.old }
    requires short { length lines.items ≤ 60000 }
    ensures { OnOk result (Serves (base_over index.now store.old) store.old.history (counted_lines lines.items) store.new.history (sent_of bench.old) (sent_of bench.new)) }
{
    let mut source = SteadySource::new(lines);
    match audit_session::serve(alloc, index, store, &mut source, bench, 1) {
        Ok(()) => Ok(()),
        Err(stop) => match stop {
            Stop::Bench | Stop::NoMemory => Err(NoMemory),
            Stop::Input | Stop::Limit | Stop::Spare => unreachable!(),
        },
    }
}

// Starts the store of a table over its new journal, and answers the lines.
fn answer(
    alloc: Global,
    index: &Index,
    secret: Secret,
    lines: Vec<u8>,
    bench: &mut MemoryBench,
) -> Result<(), NoMemory>
    requires none { index.now.protected ≡ drill_protection }
    requires shape { secret.shape ≡ public_shape index.now }
    requires stands { StandsFor (file_of bench.old) secret.shape [] }
    requires short { length lines.items ≤ 60000 }
    ensures { OnOk result ((last : List Answered) × Serves (base_of index.now.columns index.now.public index.now.protected secret) [] (counted_lines lines.items) last (sent_of bench.old) (sent_of bench.new)) }
{
    journal_form::laws::one_reading();
    let protected = index.protected().copy(alloc)?;
    match Store::start(alloc, Guarded::new(secret, protected), bench) {
        Ok(mut store) => answer_over(alloc, index, &mut store, lines, bench),
        Err(End::Stopped(_)) => Err(NoMemory),
        Err(End::Refused(_)) => unreachable!(),
    }
}

// Answers the lines of a drill over its table, from a new journal on.
fn answer_lines(
    alloc: Global,
    number: u32,
    index: &Index,
    secret: Secret,
    bench: &mut MemoryBench,
) -> Result<(), NoMemory>
    requires columns { index.now.columns ≡ drill_columns }
    requires public { index.now.public ≡ drill_public number }
    requires none { index.now.protected ≡ drill_protection }
    requires secret { secret ≡ drill_secret number }
    requires empty { file_of bench.old ≡ [] }
    requires unsent { sent_of bench.old ≡ [] }
    ensures replies { OnOk result (AnswersDrill number (sent_of bench.new)) }
    ensures short { OnOk result (length (drill_text number) ≤ 60000) }
{
    make(bench, &secret.shape())?;
    let lines = drill_lines(alloc, number)?;
    answer(alloc, index, secret, lines, bench)
}

// Answers the lines of a drill over this table, and says how many rows that has.
fn answer_table(
    alloc: Global,
    number: u32,
    schema: Schema,
    table: Table,
    bench: &mut MemoryBench,
) -> Result<u16, NoMemory>
    requires columns { schema.columns ≡ drill_columns }
    requires guards { schema.guards ≡ no_guards }
    requires public { table.public ≡ drill_public number }
    requires secret { table.secret ≡ drill_secret number }
    requires fits { FitsSchema schema.columns table.public }
    requires empty { file_of bench.old ≡ [] }
    requires unsent { sent_of bench.old ≡ [] }
    ensures rows { IfOk result (λ rows. rows ≡ drill_rows) }
    ensures replies { OnOk result (AnswersDrill number (sent_of bench.new)) }
    ensures short { OnOk result (length (drill_text number) ≤ 60000) }
{
    let Table { public, secret } = table;
    let rows = public.rows();
    let index = match Index::new(alloc, schema, public) {
        Ok(index) => index,
        Err(fault) => match fault {
            IndexFault::NoMemory => return Err(NoMemory),
            IndexFault::Bad { .. } => unreachable!(),
        },
    };
    answer_lines(alloc, number, &index, secret, bench)?;
    Ok(rows)
}

// Answers the lines of a drill over its table, and says how many rows that has.
fn answer_drill(alloc: Global, number: u32, bench: &mut MemoryBench) -> Result<u16, NoMemory>
    requires empty { file_of bench.old ≡ [] }
    requires unsent { sent_of bench.old ≡ [] }
    ensures rows { IfOk result (λ rows. rows ≡ drill_rows) }
    ensures replies { OnOk result (AnswersDrill number (sent_of bench.new)) }
    ensures short { OnOk result (length (drill_text number) ≤ 60000) }
{
    let schema = drill_schema(alloc)?;
    let table = drill_table(alloc, number)?;
    answer_table(alloc, number, schema, table, bench)
}

// Writes the summary of a drill into the front of `out`, and says how many bytes it has.
fn write_summary(alloc: Global, number: u32, out: &mut [u8; 160]) -> Result<usize, NoMemory>
    ensures count { IfOk result (λ count. count ≤ 160) }
    ensures summary { IfOk result (λ count. IsSummary number (take count out.new)) }
{
    lines_of_replies();
    let mut bench = MemoryBench::new(alloc, b"", ROOM, Vec::new(alloc), None)?;
    let rows = answer_drill(alloc, number, &mut bench)?;
    Ok(summary(rows, &tally(bench.sent()), out))
}

/// Takes the table and the questions of a drill through the program, in memory, and sends the summary of it.
pub fn drill<B: Bench>(alloc: Global, number: u32, bench: &mut B) -> Result<(), Stop>
    ensures done { B.told → OnOk result (SendsSummary number (B.sent bench.old) (B.sent bench.new)) }
    ensures part { B.told → IsErrOf result Stop.Bench → SendsSummaryFront number (B.sent bench.old) (B.sent bench.new) }
    ensures no_memory { IsErrOf result Stop.NoMemory → bench.new ≡ bench.old }
    ensures ends { IfErr result IsOfBench }

    // One send of the bench, at most one call if it failed. One that failed is reported.
    ensures ticks { B.told → OnOk result (B.moment bench.new ≡ B.moment bench.old + 1) }
    ensures one_tick { B.moment bench.new ≤ B.moment bench.old + 1 }
    ensures file { B.file bench.new ≡ B.file bench.old }
    ensures quiet { IsQuiet B.Bench bench.old → IsQuiet B.Bench bench.new }
    ensures fault { TellsFault B.Bench bench.old bench.new (IsErrOf result Stop.Bench) }
{
    let mut out = [0u8; 160];
    let count = write_summary(alloc, number, &mut out)?;
    bench.send(&out[..count])?;
    Ok(())
}
