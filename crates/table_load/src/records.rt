//! The records of a file, read and tested one by one.
ghost use Rattle.std.specs.Prelude.{◌≡◌, ◌<◌, ◌≤◌, ℤ, Option, true, length};
ghost use Rattle.std.specs.List.{list_all};
ghost use Rattle.std.specs.Str.{is_utf8};
ghost use Rattle.csv.specs.Records.{fields_of};
ghost use Rattle.table_load.specs.Numerals.{in_range, number_in};
ghost use Rattle.table_load.specs.Numbers.{IsNumeralOf};
ghost use Rattle.table_load.specs.Reading.{cell_fault, cells_fault, record_fault, names_are, file_columns, fits_role, number_fault};
ghost use Rattle.table_load.specs.Tables.{field_of};

use crate::faults::TableFault;
use crate::layout::{FileColumns, has_numbers};
use crate::numerals::{Numeral, numeral_in};
use csv::ByteRecord;
use schema_json::{Role, Schema};

/// The field of a record at a place.
#[tactic(auto, using(crate::proofs::FieldPlaces::field_at_within))]
pub(crate) fn field(row: &ByteRecord, k: usize) -> &[u8]
    requires { k < length (fields_of row.now) }
    ensures { result.now ≡ field_of k (fields_of row.now) }
{
    match row.get(k) {
        Some(field) => field,
        None => unreachable!(),
    }
}

#[tactic(auto, using(crate::proofs::FieldPlaces::text_is, crate::proofs::FieldPlaces::text_is_not))]
fn is_text(field: &[u8]) -> bool
    ensures { result ≡ is_utf8 field.now }
{
    match str::from_utf8(field) {
        Ok(_) => true,
        Err(_) => false,
    }
}

#[tactic(auto, using(crate::proofs::FieldPlaces::texts_from))]
fn are_texts(row: &ByteRecord) -> bool
    ensures { result ≡ list_all is_utf8 (fields_of row.now) }
{
    for k in 0..row.len() {
        if !is_text(field(row, k)) {
            return false;
        }
    }
    true
}

// Whether a number in range is one that a column of this role may have.
fn fits(role: Role, number: i64) -> bool
    ensures { in_range number ≡ true → result ≡ fits_role role number }
{
    match role {
        Role::Count => number > 0,
        Role::Text | Role::Number | Role::Sum | Role::Max | Role::Min => true,
    }
}

#[tactic(auto, using(crate::proofs::GoodCells::large_fits_not))]
fn number_fault(role: Role, line: u32, column: u8, numeral: Numeral) -> Option<TableFault>
    ensures { (meant : Option ℤ) → IsNumeralOf numeral meant → result ≡ number_fault role line column meant }
{
    match numeral {
        Numeral::Number(number) if fits(role, number) => None,
        Numeral::Number(_) => Some(TableFault::OutOfRange { line, column }),
        Numeral::TooLarge => Some(TableFault::OutOfRange { line, column }),
        Numeral::NoNumber => Some(TableFault::NotNumber { line, column }),
    }
}

fn cell_fault(role: Role, line: u32, column: u8, field: &[u8]) -> Option<TableFault>
    ensures { result ≡ cell_fault role line column field.now }
{
    if has_numbers(role) {
        number_fault(role, line, column, numeral_in(field))
    } else {
        None
    }
}

fn cells_fault(roles: &[Role], line: u32, row: &ByteRecord) -> Option<TableFault>
    requires one_each { length (fields_of row.now) ≡ length roles.now }
    requires few { length roles.now ≤ 32 }
    ensures { result ≡ cells_fault line 0 roles.now (fields_of row.now) }
{
    for (column, role) in roles.iter().enumerate() {
        let fault = cell_fault(*role, line, column as u8, field(row, column));
        if fault.is_some() {
            return fault;
        }
    }
    None
}

/// The first fault of a row.
pub(crate) fn record_fault(roles: &[Role], line: u32, row: &ByteRecord) -> Option<TableFault>
    requires few { length roles.now ≤ 32 }
    ensures { result ≡ record_fault roles.now line (fields_of row.now) }
{
    if row.len() != roles.len() {
        return Some(TableFault::Length { line });
    }
    if !are_texts(row) {
        return Some(TableFault::NotText { line });
    }
    cells_fault(roles, line, row)
}

/// Whether a record is the header of a file with these columns of the schema.
pub(crate) fn is_header(schema: &Schema, which: FileColumns, row: &ByteRecord) -> bool
    ensures { result ≡ names_are (fields_of row.now) (file_columns which schema.now.columns) }
{
    let mut k = 0usize;
    for place in 0..schema.count() {
        if which.has(schema.role(place)) {
            if k >= row.len() || field(row, k) != schema.name(place).as_bytes() {
                return false;
            }
            k += 1;
        }
    }
    k == row.len()
}
