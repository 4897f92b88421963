//! The files that every command over a table stands on: the schema, and the table over it.
ghost use Rattle.std.specs.Prelude.{◌≡◌, ◌≤◌, IfOk, IfErr, OnOk, Ok};
ghost use Rattle.schema_json.specs.Reading.{schema_of};
ghost use Rattle.schema_json.specs.SecretShape.{shape_of};
ghost use Rattle.table_load.specs.Cells.{FitsSchema};
ghost use Rattle.table_load.specs.Loaded.{table_view};
ghost use Rattle.table_load.specs.Tables.{table_of, public_of};
ghost use Rattle.auditor_top.specs.Openings.{LeavesUnopened};

use crate::files::{FileFault, public_from, schema_from, table_from};
use bench_core::Source;
use schema_json::{Schema, SchemaFault};
use std::alloc::Global;
use table_load::{Public, Table, TableFault};

/// A table, and the schema that it was read by.
#[derive(Drop)]
pub struct Opened {
    pub schema: Schema,
    pub table: Table,
}

/// The public part of a table, and the schema that it was read by.
#[derive(Drop)]
pub struct OpenedPublic {
    pub schema: Schema,
    pub public: Public,
}

/// Why the files of a table weren't opened: the first of them that gives nothing, with what is wrong with it.
#[derive(Drop)]
pub enum OpenFault {
    Schema(FileFault<SchemaFault>),
    Table(FileFault<TableFault>),
}

/// Reads the schema, and then the table over it.
pub fn open_table<P: Source>(
    alloc: Global,
    schema: &mut P,
    table: &mut P,
) -> Result<Opened, OpenFault>
    ensures schema_is { P.told → IfOk result (λ opened. schema_of (P.left schema.old) ≡ Ok opened.schema) }
    ensures table_is { P.told → IfOk result (λ opened. table_of opened.schema.columns (P.left table.old) ≡ Ok (table_view opened.table)) }
    ensures fits { IfOk result (λ opened. FitsSchema opened.schema.columns opened.table.public) }
    ensures shape { IfOk result (λ opened. opened.table.secret.shape ≡ shape_of opened.schema.columns opened.table.public.rows) }

    // A fault is the first that there is. The table is read only over a schema without fault.
    ensures refused { IfErr result (λ fault. LeavesUnopened P.Source table_of fault schema.old schema.new table.old table.new) }
    ensures steady { OnOk result ((P.faults schema.new ≡ P.faults schema.old) × (P.faults table.new ≡ P.faults table.old)) }
{
    let schema = match schema_from(alloc, schema) {
        Ok(schema) => schema,
        Err(fault) => return Err(OpenFault::Schema(fault)),
    };
    match table_from(alloc, &schema, table) {
        Ok(table) => Ok(Opened { schema, table }),
        Err(fault) => Err(OpenFault::Table(fault)),
    }
}

/// Reads the schema, and then the public part of a table over it, whose file has the public columns alone.
pub fn open_public<P: Source>(
    alloc: Global,
    schema: &mut P,
    table: &mut P,
) -> Result<OpenedPublic, OpenFault>
    ensures schema_is { P.told → IfOk result (λ opened. schema_of (P.left schema.old) ≡ Ok opened.schema) }
    ensures public_is { P.told → IfOk result (λ opened. public_of opened.schema.columns (P.left table.old) ≡ Ok opened.public) }
    ensures fits { IfOk result (λ opened. FitsSchema opened.schema.columns opened.public) }

    // A fault is the first that there is. The table is read only over a schema without fault.
    ensures refused { IfErr result (λ fault. LeavesUnopened P.Source public_of fault schema.old schema.new table.old table.new) }
    ensures steady { OnOk result ((P.faults schema.new ≡ P.faults schema.old) × (P.faults table.new ≡ P.faults table.old)) }
{
    let schema = match schema_from(alloc, schema) {
        Ok(schema) => schema,
        Err(fault) => return Err(OpenFault::Schema(fault)),
    };
    match public_from(alloc, &schema, table) {
        Ok(public) => Ok(OpenedPublic { schema, public }),
        Err(fault) => Err(OpenFault::Table(fault)),
    }
}
