//! The data records of a file, read until one has a fault.
ghost use Rattle.std.specs.Prelude.{◌≡◌, ◌++◌, ◌∷◌, [], length, ◌≤◌, IfErr, IfSome, OnOk};
ghost use Rattle.audit_types.specs.Limits.{most_rows};
ghost use Rattle.table_load.specs.Reading.{file_columns, roles_of};
ghost use Rattle.csv.specs.Reading.{error_kind};
ghost use Rattle.csv.specs.Records.{fields_of};
ghost use Rattle.table_load.specs.Steps.{AddsRow, ChecksHeader, HasRead, IsOfMemory, Opens, ReadsData, SomeRows, next_fault};
ghost use Rattle.table_load.specs.declared.faults.TableFault.TheVariants.{NoMemory};

use crate::faults::TableFault;
use crate::layout::FileColumns;
use crate::records::{is_header, record_fault};
use audit_types::MOST_ROWS;
use csv::{ByteRecord, ByteRecordsIntoIter, Error, ErrorKind, ReaderBuilder};
use schema_json::{Role, Schema};
use std::alloc::Global;

/// The most bytes of a table.
pub const MOST_TABLE: usize = 16_777_216;

// A reader at the front of a file.
fn records_of(alloc: Global, bytes: &[u8]) -> ByteRecordsIntoIter<&[u8]>
    ensures { HasRead bytes.now [] result }
{
    ReaderBuilder::new()
        .has_headers(false)
        .flexible(true)
        .from_reader(alloc, bytes)
        .into_byte_records()
}

// The fault of a read that failed.
fn read_fault(error: &Error) -> TableFault
    requires { IsOfMemory (error_kind error.now) }
    ensures { result ≡ NoMemory }
{
    match error.kind() {
        ErrorKind::Io(_) | ErrorKind::OutOfMemory => TableFault::NoMemory,
        ErrorKind::Utf8 { .. }
        | ErrorKind::UnequalLengths { .. }
        | ErrorKind::Serialize(_)
        | ErrorKind::Deserialize { .. } => unreachable!(),
    }
}

// Tells whether a first record is the header of a file.
fn check_header(
    schema: &Schema,
    which: FileColumns,
    first: Option<Result<ByteRecord, Error>>,
) -> Result<(), TableFault>
    requires { IfSome first (λ read. IfErr read (λ error. IsOfMemory (error_kind error))) }
    ensures { ChecksHeader result (file_columns which schema.now.columns) first }
{
    match first {
        None => Err(TableFault::Header),
        Some(Err(error)) => Err(read_fault(&error)),
        Some(Ok(header)) => {
            if is_header(schema, which, &header) {
                Ok(())
            } else {
                Err(TableFault::Header)
            }
        }
    }
}

// Reads the header of a file, at whose front the reader stands.
fn read_header(
    schema: &Schema,
    which: FileColumns,
    bytes: &[u8],
    records: &mut ByteRecordsIntoIter<&[u8]>,
) -> Result<(), TableFault>
    requires { HasRead bytes.now [] records.old }
    ensures { Opens result (file_columns which schema.now.columns) bytes.now records.new }
{
    if bytes.len() > MOST_TABLE {
        return Err(TableFault::TooLong);
    }
    check_header(schema, which, records.next())
}

// The fault of a record after so many.
fn next_fault(roles: &[Role], count: usize, row: &ByteRecord) -> Option<TableFault>
    requires few { length roles.now ≤ 32 }
    requires at_most { count ≤ most_rows }
    ensures { result ≡ next_fault roles.now count (fields_of row.now) }
{
    if count == MOST_ROWS as usize {
        return Some(TableFault::TooManyRows);
    }
    record_fault(roles, count as u32 + 2, row)
}

fn push_row(rows: &mut Vec<ByteRecord>, row: ByteRecord) -> Result<(), TableFault>
    ensures ok { OnOk result (rows.new.items ≡ rows.old.items ++ row ∷ []) }
    ensures err { IfErr result (λ fault. fault ≡ NoMemory) }
{
    match rows.push(row) {
        Ok(()) => Ok(()),
        Err(_) => Err(TableFault::NoMemory),
    }
}

// Adds a record to those before it, unless it has a fault.
fn add_row(
    roles: &[Role],
    rows: &mut Vec<ByteRecord>,
    read: Result<ByteRecord, Error>,
) -> Result<(), TableFault>
    requires few { length roles.now ≤ 32 }
    requires at_most { length rows.old.items ≤ most_rows }
    requires of_memory { IfErr read (λ error. IsOfMemory (error_kind error)) }
    ensures { AddsRow result roles.now rows.old.items read rows.new.items }
{
    match read {
        Ok(row) => match next_fault(roles, rows.len(), &row) {
            None => push_row(rows, row),
            Some(fault) => Err(fault),
        },
        Err(error) => Err(read_fault(&error)),
    }
}

// The rows, unless there are none.
fn some_rows(rows: Vec<ByteRecord>) -> Result<Vec<ByteRecord>, TableFault>
    ensures { SomeRows result rows }
{
    if rows.is_empty() {
        return Err(TableFault::NoRows);
    }
    Ok(rows)
}

// The data records of a file, at whose front the reader stands.
fn data_records(
    alloc: Global,
    schema: &Schema,
    which: FileColumns,
    roles: &[Role],
    bytes: &[u8],
    records: &mut ByteRecordsIntoIter<&[u8]>,
) -> Result<Vec<ByteRecord>, TableFault>
    requires roles { roles.now ≡ roles_of (file_columns which schema.now.columns) }
    requires few { length roles.now ≤ 32 }
    requires front { HasRead bytes.now [] records.old }
    ensures { ReadsData result (file_columns which schema.now.columns) bytes.now }
{
    if let Err(fault) = read_header(schema, which, bytes, records) {
        return Err(fault);
    }
    let mut rows = Vec::new(alloc);
    'records: while let Some(row) = records.next() {
        if let Err(fault) = add_row(roles, &mut rows, row) {
            return Err(fault);
        }
    }
    some_rows(rows)
}

/// The data records of a file, if none of them has a fault. Records of another length are read too, and only running out of
/// memory is left as an error of a read.
pub(crate) fn read_rows(
    alloc: Global,
    schema: &Schema,
    which: FileColumns,
    roles: &[Role],
    bytes: &[u8],
) -> Result<Vec<ByteRecord>, TableFault>
    requires roles { roles.now ≡ roles_of (file_columns which schema.now.columns) }
    requires few { length roles.now ≤ 32 }
    ensures { ReadsData result (file_columns which schema.now.columns) bytes.now }
{
    let mut records = records_of(alloc, bytes);
    data_records(alloc, schema, which, roles, bytes, &mut records)
}
