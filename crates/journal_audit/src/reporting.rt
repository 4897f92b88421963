//! Sending a report, a line a send.
ghost use Rattle.std.specs.Prelude.{◌≡◌, ◌<◌, ◌≤◌, [], ◌∷◌, ◌++◌, List, ℕ, true, Some, IfErr, OnOk, OnErr, Err};
ghost use Rattle.audit_types.specs.Shapes.{columns, kind_at};
ghost use Rattle.audit_types.specs.declared.shapes.Kind.TheVariants as kind;
ghost use Rattle.schema_json.specs.Columns.{secret_place};
ghost use Rattle.schema_json.specs.SecretShape.{shape_of};
ghost use Rattle.bench_core.specs.Causes.{Rose};
ghost use Rattle.bench_core.specs.Calls.{IsQuiet, LeavesOnly};
ghost use Rattle.bench_core.specs.Stops.{IsOfBench};
ghost use Rattle.audit_core.specs.Columns.{HasItsPart};
ghost use Rattle.audit_store.specs.Stores.{IsStore};
ghost use Rattle.journal_audit.specs.Reports.{audit_of, contents_of, subjects_before, subjects_of, column_of, totals, Reports, ReportsFront, SendsMeanwhile, SendsLine, SendsLinesOn, TakesOneEach, subjects};

use crate::checking::{column_sets, has_line, write_column, write_row};
use crate::texts::write_totals;
use audit_core::ColumnRef;
use audit_core::laws::free_numbers;
use audit_store::Store;
use bench_core::{Bench, Stop};
use max_audit::MaxColumn;
use schema_json::Schema;
use std::alloc::Global;
use sum_audit::SumColumn;
use table_load::lists_of_secrets;

// Sends a line.
fn send_line<B: Bench>(bench: &mut B, line: &[u8]) -> Result<(), Stop>
    ensures { SendsLine B.Bench line.now bench.old bench.new result }
{
    bench.send(line)?;
    Ok(())
}

// Sends the lines on the rows of a column of sums that have one.
fn send_rows<B: Bench>(
    alloc: Global,
    schema: &Schema,
    store: &Store,
    place: u8,
    column: u8,
    sums: &SumColumn,
    line: &mut Vec<u8>,
    bench: &mut B,
) -> Result<(), Stop>
    requires named { secret_place schema.now.columns place ≡ Some column }
    requires is { IsStore store.now }
    requires below { column < columns store.now.secret.shape }
    requires part { HasItsPart (contents_of store.now) column kind.Sum sums.now }
    ensures { SendsLinesOn B.Bench (audit_of schema.now.columns store.now) (subjects_of store.now.secret.shape column kind.Sum) bench.old bench.new result }
{
    lists_of_secrets();
    free_numbers();
    let name = schema.name(place);
    let sets = column_sets(alloc, column, store.history())?;
    let people = store.protected().rows().over(alloc, sums.n())?;
    for row in 0..sums.n() {
        if has_line(&people, sums, row) {
            write_row(alloc, line, name, sums, &sets, row)?;
            send_line(bench, line)?;
        }
    }
    Ok(())
}

// Sends the line on a column of maxima, or on one of minima.
fn send_highest<B: Bench>(
    alloc: Global,
    schema: &Schema,
    store: &Store,
    place: u8,
    column: u8,
    maxima: &MaxColumn,
    line: &mut Vec<u8>,
    bench: &mut B,
) -> Result<(), Stop>
    requires named { secret_place schema.now.columns place ≡ Some column }
    requires is { IsStore store.now }
    requires below { column < columns store.now.secret.shape }
    requires part { HasItsPart (contents_of store.now) column kind.Max maxima.now }
    ensures { SendsLinesOn B.Bench (audit_of schema.now.columns store.now) (column_of column ∷ []) bench.old bench.new result }
{
    lists_of_secrets();
    free_numbers();
    let name = schema.name(place);
    let least = store.shape().is_least(column);
    let people = store.protected().rows().over(alloc, maxima.bounds().n())?;
    let history = store.history();
    write_column(alloc, line, name, least, column, history, maxima, &people)?;
    send_line(bench, line)
}

// Sends the lines on a secret column.
fn send_column<B: Bench>(
    alloc: Global,
    schema: &Schema,
    store: &Store,
    place: u8,
    column: u8,
    line: &mut Vec<u8>,
    bench: &mut B,
) -> Result<(), Stop>
    requires named { secret_place schema.now.columns place ≡ Some column }
    requires usable { store.now.usable ≡ true }
    requires is { IsStore store.now }
    requires below { column < columns store.now.secret.shape }
    ensures { SendsLinesOn B.Bench (audit_of schema.now.columns store.now) (subjects_of store.now.secret.shape column (kind_at store.now.secret.shape column)) bench.old bench.new result }
{
    match store.core().column(column) {
        ColumnRef::Sum(sums) => send_rows(alloc, schema, store, place, column, sums, line, bench),
        ColumnRef::Max(maxima) => send_highest(
            alloc, schema, store, place, column, maxima, line, bench,
        ),
    }
}

// Sends the lines on all secret columns.
fn send_columns<B: Bench>(
    alloc: Global,
    schema: &Schema,
    store: &Store,
    line: &mut Vec<u8>,
    bench: &mut B,
) -> Result<(), Stop>
    requires usable { store.now.usable ≡ true }
    requires is { IsStore store.now }
    requires shape { store.now.secret.shape ≡ shape_of schema.now.columns store.now.secret.shape.rows }
    ensures { SendsLinesOn B.Bench (audit_of schema.now.columns store.now) (subjects_before store.now.secret.shape (columns store.now.secret.shape)) bench.old bench.new result }
{
    schema_json::laws::shape_of_a_table();
    for place in 0..schema.count() {
        if let Some(column) = schema.secret(place) {
            send_column(alloc, schema, store, place, column, line, bench)?;
        }
    }
    Ok(())
}

// Sends the line of totals.
fn send_totals<B: Bench>(
    store: &Store,
    schema: &Schema,
    people: Option<u64>,
    line: &mut Vec<u8>,
    bench: &mut B,
) -> Result<(), Stop>
    ensures { SendsLinesOn B.Bench (audit_of schema.now.columns store.now) (totals people ∷ []) bench.old bench.new result }
{
    let shape = store.shape();
    let records = store.history().len();
    write_totals(line, records, shape.columns(), shape.rows, people)?;
    send_line(bench, line)
}

/// Sends the report of a store's history over the secret columns of a schema, with how many people the rows stand for if they are
/// counted: a line a send. Each list is checked before its line leaves; its clauses say that it would pass. Nothing is written.
pub fn audit<B: Bench>(
    alloc: Global,
    schema: &Schema,
    store: &Store,
    people: Option<u64>,
    bench: &mut B,
) -> Result<(), Stop>
    requires usable { store.now.usable ≡ true }
    requires shape { store.now.secret.shape ≡ shape_of schema.now.columns store.now.secret.shape.rows }

    // The report was sent, or a front of it: at the end, and at every moment.
    ensures report { B.told → OnOk result (Reports (audit_of schema.now.columns store.now) people (B.sent bench.old) (B.sent bench.new)) }
    ensures part { B.told → OnErr result (ReportsFront (audit_of schema.now.columns store.now) people (B.sent bench.old) (B.sent bench.new)) }
    ensures any_moment { B.told → IsQuiet B.Bench bench.old
        → LeavesOnly B.Bench bench.old bench.new (SendsMeanwhile (audit_of schema.now.columns store.now) (subjects store.now.secret.shape people) (B.file bench.old) (B.sent bench.old)) }

    // One send for each line, and no other call.
    ensures ticks { B.told → OnOk result (TakesOneEach (audit_of schema.now.columns store.now) (subjects store.now.secret.shape people) (B.moment bench.old) (B.moment bench.new)) }

    // The file isn't touched.
    ensures file { B.file bench.new ≡ B.file bench.old }
    ensures crash { (image : List ℕ) → B.leaves bench.new image → B.leaves bench.old image }
    ensures failed { result ≡ Err Stop.Bench → Rose (B.faults bench.old) (B.faults bench.new) }
    ensures last_call { result ≡ Err Stop.Bench → B.last_failed bench.new ≡ true }
    ensures later { B.faults bench.old ≤ B.faults bench.new }
    ensures steady { ¬ (result ≡ Err Stop.Bench) → B.faults bench.new ≡ B.faults bench.old }
    ensures ends { IfErr result IsOfBench }
{
    // A store says of itself that its history is legal.
    let _history = store.history();
    let mut line = Vec::new(alloc);
    send_columns(alloc, schema, store, &mut line, bench)?;
    send_totals(store, schema, people, &mut line, bench)
}
