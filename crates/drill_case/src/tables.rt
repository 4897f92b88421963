//! The table of a drill.
ghost use Rattle.std.specs.Prelude.{◌≡◌, ◌<◌, ◌≤◌, [], ◌∷◌, map, IfOk};
ghost use Rattle.audit_types.specs.Limits.{most_rows};
ghost use Rattle.schema_json.specs.Columns.{no_guards};
ghost use Rattle.table_load.specs.Cells.{FitsSchema};
ghost use Rattle.drill_case.specs.Drawings.{IsDrawing, numbers_of};
ghost use Rattle.drill_case.specs.Tables.{drill_rows, drill_columns, drill_public, drill_secret};

use crate::draws::Draws;
use audit_types::NoMemory;
use schema_json::{Schema, SchemaFault, read_schema};
use std::alloc::{AllocError, Global};
use table_load::{Public, Secret, Table};

const SCHEMA: &[u8] =
    br#"{"columns":[{"name":"band","is":"number"},{"name":"age","is":"number"},{"name":"pay","is":"sum"},{"name":"best","is":"max"}]}"#;

/// How many rows the table has. It is a function so that proofs don't list them.
#[tactic(auto, unfolding(crate::specs::Tables::drill_rows))]
pub(crate) fn row_count() -> u16
    ensures rows { result ≡ drill_rows }
    ensures some { 0 < result }
    ensures at_most { result ≤ most_rows }
{
    200
}

/// The schema of every drill. It says nothing of what is guarded.
pub fn drill_schema(alloc: Global) -> Result<Schema, NoMemory>
    ensures { IfOk result (λ schema. (schema.columns ≡ drill_columns) × (schema.guards ≡ no_guards)) }
{
    match read_schema(alloc, SCHEMA) {
        Ok(schema) => Ok(schema),
        Err(fault) => match fault {
            SchemaFault::NoMemory => Err(NoMemory),
            _ => unreachable!(),
        },
    }
}

// How a column is drawn: of each row's four draws the one at `place` counts, its remainder by `span`, from `least` on.
#[derive(Clone, Copy)]
struct Drawing {
    place: usize,
    least: u32,
    span: u32,
}

const BAND: Drawing = Drawing {
    place: 0,
    least: 0,
    span: 8,
};

const AGE: Drawing = Drawing {
    place: 1,
    least: 20,
    span: 50,
};

const PAY: Drawing = Drawing {
    place: 2,
    least: 0,
    span: 100_000,
};

const BEST: Drawing = Drawing {
    place: 3,
    least: 0,
    span: 1000,
};

// The numbers of a column.
fn draw_column(alloc: Global, number: u32, drawing: Drawing) -> Result<Vec<i64>, AllocError>
    requires { IsDrawing drawing }
    ensures { IfOk result (λ list. list.items ≡ numbers_of number drawing) }
{
    let mut draws = Draws::new(number);
    let mut list = Vec::new(alloc);
    for _row in 0..row_count() {
        let four = draws.four();
        list.push(i64::from(drawing.least + four[drawing.place] % drawing.span))?;
    }
    Ok(list)
}

// The numbers of two columns.
fn draw_columns(
    alloc: Global,
    number: u32,
    first: Drawing,
    second: Drawing,
) -> Result<Vec<Vec<i64>>, AllocError>
    requires first { IsDrawing first }
    requires second { IsDrawing second }
    ensures { IfOk result (λ lists. map (λ v. v.items) lists.items ≡ numbers_of number first ∷ numbers_of number second ∷ []) }
{
    let one = draw_column(alloc, number, first)?;
    let other = draw_column(alloc, number, second)?;
    Ok(vec![in alloc; one, other]?)
}

fn draw_public(alloc: Global, schema: &Schema, number: u32) -> Result<Public, NoMemory>
    requires { schema.now.columns ≡ drill_columns }
    ensures { IfOk result (λ public. (public ≡ drill_public number) × FitsSchema drill_columns public) }
{
    Public::of_numbers(alloc, schema, draw_columns(alloc, number, BAND, AGE)?)
}

fn draw_secret(alloc: Global, schema: &Schema, number: u32) -> Result<Secret, AllocError>
    requires { schema.now.columns ≡ drill_columns }
    ensures { IfOk result (λ secret. secret ≡ drill_secret number) }
{
    let lists = draw_columns(alloc, number, PAY, BEST)?;
    Ok(Secret::new(schema.shape(row_count()), lists))
}

fn draw_table(alloc: Global, schema: &Schema, number: u32) -> Result<Table, NoMemory>
    requires { schema.now.columns ≡ drill_columns }
    ensures public { IfOk result (λ table. table.public ≡ drill_public number) }
    ensures secret { IfOk result (λ table. table.secret ≡ drill_secret number) }
    ensures fits { IfOk result (λ table. FitsSchema drill_columns table.public) }
{
    let public = draw_public(alloc, schema, number)?;
    let secret = draw_secret(alloc, schema, number)?;
    Ok(Table { public, secret })
}

/// The table of a drill.
pub fn drill_table(alloc: Global, number: u32) -> Result<Table, NoMemory>
    ensures public { IfOk result (λ table. table.public ≡ drill_public number) }
    ensures secret { IfOk result (λ table. table.secret ≡ drill_secret number) }
    ensures fits { IfOk result (λ table. FitsSchema drill_columns table.public) }
{
    let schema = drill_schema(alloc)?;
    draw_table(alloc, &schema, number)
}
