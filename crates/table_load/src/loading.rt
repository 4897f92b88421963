//! From bytes to a table: first the records are read and tested, then each column is built.
ghost use Rattle.std.specs.Prelude.{◌≡◌, ◌<◌, ◌≤◌, IfOk, None, length, map};
ghost use Rattle.audit_types.specs.Limits.{most_rows};
ghost use Rattle.csv.specs.Records.{fields_of};
ghost use Rattle.schema_json.specs.SecretShape.{shape_of};
ghost use Rattle.table_load.specs.Cells.{FitsSchema};
ghost use Rattle.table_load.specs.Faults.{Loads};
ghost use Rattle.table_load.specs.Loaded.{seen_table};
ghost use Rattle.table_load.specs.Reading.{file_columns, records_fault, roles_of};
ghost use Rattle.table_load.specs.Steps.{ReadsData};
ghost use Rattle.table_load.specs.Tables.{table_of, public_of, public_in, secret_in};

use crate::columns::{public_columns, secret_lists};
use crate::faults::TableFault;
use crate::layout::FileColumns;
use crate::publics::Public;
use crate::reading::read_rows;
use crate::secrets::Secret;
use audit_types::NoMemory;
use csv::ByteRecord;
use schema_json::Schema;
use std::alloc::Global;

/// A table: what everybody may see of it, and what the auditor guards.
#[derive(Drop)]
pub struct Table {
    pub public: Public,
    pub secret: Secret,
}

// The data records of a file, or its first fault.
fn data_rows(
    alloc: Global,
    schema: &Schema,
    which: FileColumns,
    bytes: &[u8],
) -> Result<Vec<ByteRecord>, TableFault>
    ensures { ReadsData result (file_columns which schema.now.columns) bytes.now }
{
    match which.roles(alloc, schema) {
        Ok(roles) => read_rows(alloc, schema, which, roles.as_slice(), bytes),
        Err(NoMemory) => Err(TableFault::NoMemory),
    }
}

// The public part of a table with these records, none of which has a fault.
fn public_part(
    alloc: Global,
    schema: &Schema,
    which: FileColumns,
    rows: &[ByteRecord],
) -> Result<Public, NoMemory>
    requires good { records_fault (roles_of (file_columns which schema.now.columns)) 2 (map fields_of rows.now) ≡ None }
    requires some { 0 < length rows.now }
    requires at_most { length rows.now ≤ most_rows }
    ensures public { IfOk result (λ p. p ≡ public_in which schema.now.columns (map fields_of rows.now)) }
    ensures fits { IfOk result (λ p. FitsSchema schema.now.columns p) }
{
    match public_columns(alloc, schema, which, rows) {
        Ok(columns) => Ok(Public::of(rows.len() as u16, columns)),
        Err(NoMemory) => Err(NoMemory),
    }
}

// The secret part of a table with these records, none of which has a fault.
fn secret_part(alloc: Global, schema: &Schema, rows: &[ByteRecord]) -> Result<Secret, NoMemory>
    requires good { records_fault (roles_of (file_columns FileColumns.All schema.now.columns)) 2 (map fields_of rows.now) ≡ None }
    requires some { 0 < length rows.now }
    requires at_most { length rows.now ≤ most_rows }
    ensures { IfOk result (λ s. s ≡ secret_in schema.now.columns (map fields_of rows.now)) }
{
    match secret_lists(alloc, schema, rows) {
        Ok(lists) => Ok(Secret::new(schema.shape(rows.len() as u16), lists)),
        Err(NoMemory) => Err(NoMemory),
    }
}

// The table with these records, none of which has a fault.
fn whole_table(alloc: Global, schema: &Schema, rows: &[ByteRecord]) -> Result<Table, NoMemory>
    requires good { records_fault (roles_of (file_columns FileColumns.All schema.now.columns)) 2 (map fields_of rows.now) ≡ None }
    requires some { 0 < length rows.now }
    requires at_most { length rows.now ≤ most_rows }
    ensures public { IfOk result (λ t. t.public ≡ public_in FileColumns.All schema.now.columns (map fields_of rows.now)) }
    ensures secret { IfOk result (λ t. t.secret ≡ secret_in schema.now.columns (map fields_of rows.now)) }
    ensures fits { IfOk result (λ t. FitsSchema schema.now.columns t.public) }
{
    let Ok(public) = public_part(alloc, schema, FileColumns::All, rows) else {
        return Err(NoMemory);
    };
    match secret_part(alloc, schema, rows) {
        Ok(secret) => Ok(Table { public, secret }),
        Err(NoMemory) => Err(NoMemory),
    }
}

/// The table that bytes mean, or their first fault. It costs one pass over the bytes and one over the fields of each
/// column, and memory of the order of the table.
pub fn load(alloc: Global, schema: &Schema, bytes: &[u8]) -> Result<Table, TableFault>
    ensures table { Loads (seen_table result) (table_of schema.now.columns bytes.now) }

    // What follows for a table that was loaded: its columns are those of the schema.
    ensures fits { IfOk result (λ t. FitsSchema schema.now.columns t.public) }
    ensures shape { IfOk result (λ t. t.secret.shape ≡ shape_of schema.now.columns t.public.rows) }
{
    let rows = match data_rows(alloc, schema, FileColumns::All, bytes) {
        Ok(rows) => rows,
        Err(fault) => return Err(fault),
    };
    match whole_table(alloc, schema, rows.as_slice()) {
        Ok(table) => Ok(table),
        Err(NoMemory) => Err(TableFault::NoMemory),
    }
}

/// The public part that bytes mean, or their first fault, if header and records hold the public columns alone. The
/// places of the columns are those of the whole schema.
pub fn load_public(alloc: Global, schema: &Schema, bytes: &[u8]) -> Result<Public, TableFault>
    ensures public { Loads result (public_of schema.now.columns bytes.now) }
    ensures fits { IfOk result (λ p. FitsSchema schema.now.columns p) }
{
    let rows = match data_rows(alloc, schema, FileColumns::Public, bytes) {
        Ok(rows) => rows,
        Err(fault) => return Err(fault),
    };
    match public_part(alloc, schema, FileColumns::Public, rows.as_slice()) {
        Ok(public) => Ok(public),
        Err(NoMemory) => Err(TableFault::NoMemory),
    }
}
