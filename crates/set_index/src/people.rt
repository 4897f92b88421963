//! How many people stand behind rows.
ghost use Rattle.std.specs.Prelude.{◌≡◌, ◌<◌, ◌≤◌, ◌<ℤ◌, length, map, pos, unsigned_abs, IfOk};
ghost use Rattle.std.specs.List.{AllByRecursion};
ghost use Rattle.audit_types.specs.Limits.{most_answer};
ghost use Rattle.audit_types.specs.Headcount.{headcount, people_behind};
ghost use Rattle.table_load.specs.Cells.{AreNumbers, FitsSchema, counts_of};

use audit_types::{CountedRows, NoMemory, RowSet};
use schema_json::Schema;
use std::alloc::Global;
use table_load::Public;

/// How many people stand behind rows, by how many each row stands for.
pub(crate) fn people_by(counts: &[i64], rows: &RowSet) -> u64
    requires numbers { AreNumbers rows.now.n counts.now }
    requires above { AllByRecursion (λ z. pos 0 <ℤ z) counts.now }
    ensures exact { result ≡ people_behind (map unsigned_abs counts.now) rows.now.list }
    ensures at_least { length rows.now.list ≤ result }
    ensures at_most { result ≤ most_answer }
{
    // A set says of its n that each of its rows has a count.
    let _n = rows.n();
    let mut people = 0u64;
    for row in rows.iter() {
        people += counts[row as usize] as u64;
    }
    people
}

// How many people each row stands for.
fn sizes(alloc: Global, counts: &[i64]) -> Result<Vec<u64>, NoMemory>
    ensures { IfOk result (λ sizes. sizes.items ≡ map unsigned_abs counts.now) }
{
    let mut sizes = Vec::new(alloc);
    for count in counts {
        sizes.push(count.unsigned_abs())?;
    }
    Ok(sizes)
}

// The counts of a table, none if no column says so.
fn counts_in(alloc: Global, schema: &Schema, public: &Public) -> Result<Vec<u64>, NoMemory>
    requires { FitsSchema schema.now.columns public.now }
    ensures { IfOk result (λ counts. counts.items ≡ counts_of schema.now.columns public.now) }
{
    match public.counts(schema) {
        Some(counts) => sizes(alloc, counts),
        None => Ok(Vec::new(alloc)),
    }
}

/// The rows of a table, with the people that stand behind them, and of how few of these what they have is guarded against whom.
pub(crate) fn counted_rows(
    alloc: Global,
    schema: &Schema,
    public: &Public,
) -> Result<CountedRows, NoMemory>
    requires { FitsSchema schema.now.columns public.now }
    ensures n { IfOk result (λ rows. rows.n ≡ public.now.rows) }
    ensures people { IfOk result (λ rows. rows.people ≡ headcount (counts_of schema.now.columns public.now) schema.now.guards.fewest schema.now.guards.own) }
{
    let rows = public.rows();
    let counts = counts_in(alloc, schema, public)?;
    Ok(CountedRows::new(rows, counts, schema.fewest(), schema.askers()))
}
