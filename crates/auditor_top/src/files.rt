//! The two files that a run stands on, each read whole, and what its bytes mean.
ghost use Rattle.std.specs.Prelude.{◌≡◌, ◌≢◌, IfOk, Err};
ghost use Rattle.schema_json.specs.Reading.{schema_of, most_schema};
ghost use Rattle.table_load.specs.Reading.{most_table};
ghost use Rattle.schema_json.specs.SecretShape.{shape_of};
ghost use Rattle.table_load.specs.Cells.{FitsSchema};
ghost use Rattle.table_load.specs.Tables.{table_of, public_of};
ghost use Rattle.auditor_top.specs.Files.{GivesSchema, GivesTable, GivesPublic};
ghost use Rattle.auditor_top.specs.Reading.{TellsRead};

use crate::reading::{ReadFault, read_all};
use bench_core::Source;
use schema_json::{MOST_SCHEMA, Schema, SchemaFault, read_schema};
use std::alloc::Global;
use table_load::{MOST_TABLE, Public, Table, TableFault, load, load_public};

/// Why a file gives nothing.
#[derive(Drop)]
pub enum FileFault<F: Drop> {
    /// A read failed.
    Failed,
    /// Memory ran out.
    NoMemory,
    /// The bytes have this fault. It is never that memory ran out.
    Bad(F),
}

// The schema that bytes mean.
fn schema_in(alloc: Global, bytes: &[u8]) -> Result<Schema, FileFault<SchemaFault>>
    ensures means { GivesSchema result (schema_of bytes.now) }
    ensures own { result ≢ Err (FileFault.Bad SchemaFault.NoMemory) }
    ensures all_read { result ≢ Err FileFault.Failed }
{
    match read_schema(alloc, bytes) {
        Ok(schema) => Ok(schema),
        Err(SchemaFault::NoMemory) => Err(FileFault::NoMemory),
        Err(fault) => Err(FileFault::Bad(fault)),
    }
}

/// The schema that a source's bytes mean. It reads until the bytes are more than a schema may have.
pub fn schema_from<P: Source>(
    alloc: Global,
    source: &mut P,
) -> Result<Schema, FileFault<SchemaFault>>
    ensures means { P.told → GivesSchema result (schema_of (P.left source.old)) }
    ensures own { result ≢ Err (FileFault.Bad SchemaFault.NoMemory) }
    ensures fault { TellsRead P.Source most_schema source.old source.new (result ≡ Err FileFault.Failed) }
{
    match read_all(alloc, source, MOST_SCHEMA) {
        Ok(bytes) => schema_in(alloc, &bytes),
        Err(ReadFault::Failed) => Err(FileFault::Failed),
        Err(ReadFault::NoMemory) => Err(FileFault::NoMemory),
    }
}

// The table that bytes mean over the columns of a schema.
fn table_in(alloc: Global, schema: &Schema, bytes: &[u8]) -> Result<Table, FileFault<TableFault>>
    ensures means { GivesTable result (table_of schema.now.columns bytes.now) }
    ensures fits { IfOk result (λ table. FitsSchema schema.now.columns table.public) }
    ensures shape { IfOk result (λ table. table.secret.shape ≡ shape_of schema.now.columns table.public.rows) }
    ensures own { result ≢ Err (FileFault.Bad TableFault.NoMemory) }
    ensures all_read { result ≢ Err FileFault.Failed }
{
    match load(alloc, schema, bytes) {
        Ok(table) => Ok(table),
        Err(TableFault::NoMemory) => Err(FileFault::NoMemory),
        Err(fault) => Err(FileFault::Bad(fault)),
    }
}

/// The table that a source's bytes mean over the columns of a schema. It reads until the bytes are more than a table may have.
pub fn table_from<P: Source>(
    alloc: Global,
    schema: &Schema,
    source: &mut P,
) -> Result<Table, FileFault<TableFault>>
    ensures means { P.told → GivesTable result (table_of schema.now.columns (P.left source.old)) }
    ensures fits { IfOk result (λ table. FitsSchema schema.now.columns table.public) }
    ensures shape { IfOk result (λ table. table.secret.shape ≡ shape_of schema.now.columns table.public.rows) }
    ensures own { result ≢ Err (FileFault.Bad TableFault.NoMemory) }
    ensures fault { TellsRead P.Source most_table source.old source.new (result ≡ Err FileFault.Failed) }
{
    match read_all(alloc, source, MOST_TABLE) {
        Ok(bytes) => table_in(alloc, schema, &bytes),
        Err(ReadFault::Failed) => Err(FileFault::Failed),
        Err(ReadFault::NoMemory) => Err(FileFault::NoMemory),
    }
}

// The public part that bytes mean over the columns of a schema.
fn public_in(alloc: Global, schema: &Schema, bytes: &[u8]) -> Result<Public, FileFault<TableFault>>
    ensures means { GivesPublic result (public_of schema.now.columns bytes.now) }
    ensures fits { IfOk result (λ public. FitsSchema schema.now.columns public) }
    ensures own { result ≢ Err (FileFault.Bad TableFault.NoMemory) }
    ensures all_read { result ≢ Err FileFault.Failed }
{
    match load_public(alloc, schema, bytes) {
        Ok(public) => Ok(public),
        Err(TableFault::NoMemory) => Err(FileFault::NoMemory),
        Err(fault) => Err(FileFault::Bad(fault)),
    }
}

/// The public part that a source's bytes mean over the columns of a schema, if the file has the public columns alone. It reads until
/// the bytes are more than a table may have.
pub fn public_from<P: Source>(
    alloc: Global,
    schema: &Schema,
    source: &mut P,
) -> Result<Public, FileFault<TableFault>>
    ensures means { P.told → GivesPublic result (public_of schema.now.columns (P.left source.old)) }
    ensures fits { IfOk result (λ public. FitsSchema schema.now.columns public) }
    ensures own { result ≢ Err (FileFault.Bad TableFault.NoMemory) }
    ensures fault { TellsRead P.Source most_table source.old source.new (result ≡ Err FileFault.Failed) }
{
    match read_all(alloc, source, MOST_TABLE) {
        Ok(bytes) => public_in(alloc, schema, &bytes),
        Err(ReadFault::Failed) => Err(FileFault::Failed),
        Err(ReadFault::NoMemory) => Err(FileFault::NoMemory),
    }
}
