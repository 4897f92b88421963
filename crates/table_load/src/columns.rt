//! The columns of a table, built from records without a fault.
ghost use Rattle.std.specs.Prelude.{◌≡◌, ◌≤◌, true, map, IfOk, None, Some};
ghost use Rattle.std.specs.List.{AllByRecursion};
ghost use Rattle.csv.specs.Records.{fields_of};
ghost use Rattle.schema_json.specs.Columns.{is_public};
ghost use Rattle.table_load.specs.Kept.{cells_kept};
ghost use Rattle.table_load.specs.Numerals.{number_in, in_range};
ghost use Rattle.table_load.specs.Reading.{file_columns, records_fault, roles_of, has_numbers};
ghost use Rattle.table_load.specs.Tables.{HasCell, is_number, kept_as, kept_number, number_column, text_column, cells_of, cells_from, secrets_from};

use crate::layout::FileColumns;
use crate::numerals::{Numeral, numeral_in};
use crate::publics::Column;
use crate::records::field;
use audit_types::NoMemory;
use csv::ByteRecord;
use schema_json::{Role, Schema};
use std::alloc::Global;

// The number of a field that is known to spell one in range.
#[tactic(auto, using(crate::proofs::GoodCells::not_too_large, crate::proofs::GoodCells::not_none))]
fn number_of(field: &[u8]) -> i64
    requires { is_number (number_in field.now) ≡ true }
    ensures { number_in field.now ≡ Some result }
{
    match numeral_in(field) {
        Numeral::Number(number) => number,
        Numeral::TooLarge => unreachable!(),
        Numeral::NoNumber => unreachable!(),
    }
}

// A number in range as it is kept in a column of this role: negated in one of minima.
fn kept(role: Role, number: i64) -> i64
    requires { in_range number ≡ true }
    ensures { result ≡ kept_number role number }
{
    match role {
        Role::Min => -number,
        _ => number,
    }
}

// The numbers of a column as they are kept.
fn number_column(
    alloc: Global,
    role: Role,
    k: usize,
    rows: &[ByteRecord],
) -> Result<Vec<i64>, NoMemory>
    requires numeric { has_numbers role ≡ true }
    requires cells { AllByRecursion (HasCell role k) (map fields_of rows.now) }
    ensures { IfOk result (λ v. v.items ≡ kept_as role (number_column k (map fields_of rows.now))) }
{
    let mut numbers = Vec::new(alloc);
    for row in rows {
        numbers.push(kept(role, number_of(field(row, k))))?;
    }
    Ok(numbers)
}

fn text_column(
    alloc: Global,
    role: Role,
    k: usize,
    rows: &[ByteRecord],
) -> Result<Vec<Vec<u8>>, NoMemory>
    requires { AllByRecursion (HasCell role k) (map fields_of rows.now) }
    ensures { IfOk result (λ v. map (λ t. t.items) v.items ≡ text_column k (map fields_of rows.now)) }
{
    let mut texts = Vec::new(alloc);
    for row in rows {
        texts.push(field(row, k).to_vec(alloc)?)?;
    }
    Ok(texts)
}

// What everybody may see of a column that stands at place k of the file, if it is public.
fn cells(alloc: Global, role: Role, k: usize, rows: &[ByteRecord]) -> Result<Column, NoMemory>
    requires { is_public role ≡ true → AllByRecursion (HasCell role k) (map fields_of rows.now) }
    ensures { IfOk result (λ v. cells_kept v ≡ cells_of role k (map fields_of rows.now)) }
{
    match role {
        Role::Text => match text_column(alloc, role, k, rows) {
            Ok(texts) => Ok(Column::Texts(texts)),
            Err(NoMemory) => Err(NoMemory),
        },
        Role::Number => match number_column(alloc, role, k, rows) {
            Ok(numbers) => Ok(Column::Numbers(numbers)),
            Err(NoMemory) => Err(NoMemory),
        },
        Role::Count => match number_column(alloc, role, k, rows) {
            Ok(numbers) => Ok(Column::Numbers(numbers)),
            Err(NoMemory) => Err(NoMemory),
        },
        Role::Sum => Ok(Column::Hidden),
        Role::Max => Ok(Column::Hidden),
        Role::Min => Ok(Column::Hidden),
    }
}

/// What everybody may see of the schema's columns.
pub(crate) fn public_columns(
    alloc: Global,
    schema: &Schema,
    which: FileColumns,
    rows: &[ByteRecord],
) -> Result<Vec<Column>, NoMemory>
    requires { records_fault (roles_of (file_columns which schema.now.columns)) 2 (map fields_of rows.now) ≡ None }
    ensures { IfOk result (λ v. map cells_kept v.items ≡ cells_from which 0 schema.now.columns (map fields_of rows.now)) }
{
    let mut columns = Vec::new(alloc);
    let mut k = 0usize;
    for place in 0..schema.count() {
        let role = schema.role(place);
        columns.push(cells(alloc, role, k, rows)?)?;
        if which.has(role) {
            k += 1;
        }
    }
    Ok(columns)
}

/// The numbers of the secret columns as they are kept, in order, of a file with all columns.
pub(crate) fn secret_lists(
    alloc: Global,
    schema: &Schema,
    rows: &[ByteRecord],
) -> Result<Vec<Vec<i64>>, NoMemory>
    requires { records_fault (roles_of (file_columns FileColumns.All schema.now.columns)) 2 (map fields_of rows.now) ≡ None }
    ensures { IfOk result (λ v. map (λ w. w.items) v.items ≡ secrets_from 0 schema.now.columns (map fields_of rows.now)) }
{
    let mut lists = Vec::new(alloc);
    for place in 0..schema.count() {
        let role = schema.role(place);
        if role.is_secret() {
            lists.push(number_column(alloc, role, place as usize, rows)?)?;
        }
    }
    Ok(lists)
}
