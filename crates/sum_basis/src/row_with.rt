//! One row of a form with a new row, made beside the form, which stays as it is.
ghost use Rattle.std.specs.Prelude.{◌≡◌, ◌<◌, ◌≤◌, ℕ, pos, [], ◌∷◌, length, IfOk, IfSome, slice_index_or};
ghost use Rattle.std.specs.List.{AllByRecursion};
ghost use Rattle.sum_basis.specs.Limits.{most_columns};
ghost use Rattle.audit_types.specs.Truth.{number_at};
ghost use Rattle.audit_types.specs.Form.{IsPrimitive};
ghost use Rattle.sum_basis.specs.Elimination.{IsSmall, IsSmallForm, IsZeroAtPivots, StaysSmall, IsCleared};
ghost use Rattle.sum_basis.specs.Sparse.{entry_at, row_of, rows_of, entries_of, IsListed, IsKept, IsNew};
ghost use Rattle.sum_basis.specs.RowsWith.{IsRowGrown};
ghost use Rattle.sum_basis.specs.declared.sparse.SparseRow.{SparseRow};

use crate::cleared_list::value_at;
use crate::growth::clear;
use crate::sparse::{FreeEntry, SparseRow};
use audit_types::NoMemory;
use std::alloc::Global;
use std::marker::Model;

/// A row that stands by itself.
#[derive(Drop)]
pub struct WholeRow {
    columns: u16,
    // The entries that are not 0, in ascending places.
    entries: Vec<FreeEntry>,
}

impl Model for WholeRow {
    ghost use Rattle.std.specs.Prelude.{ℤ, List, ◌≤◌};
    ghost use Rattle.sum_basis.specs.Limits.{most_columns};
    ghost use Rattle.sum_basis.specs.Sparse.{row_of, IsListed};

    ghost Value = { List ℤ };

    ghost view = { λ r. row_of r.columns r.entries.items };

    ghost invariant = { λ r. (r.columns ≤ most_columns) × IsListed 0 r.columns r.entries.items };
}

impl WholeRow {
    /// What the row has at a column.
    pub fn entry(&self, column: u16) -> i128
        ensures { result ≡ number_at self.now column }
    {
        value_at(&self.entries, column)
    }
}

/// The row of a form with one more row that has its pivot at some column.
#[derive(Drop)]
pub enum RowWith {
    /// With the row the form would not be narrow.
    Wide,
    /// The form is as it is with the row, or has no row with this pivot then.
    Nothing,
    /// That row.
    Row(WholeRow),
}

// The entries of a row, cleared at the new row's pivot, that are not 0.
fn cleared_entries(
    alloc: Global,
    columns: u16,
    row: &SparseRow,
    new: &[FreeEntry],
) -> Result<Vec<FreeEntry>, NoMemory>
    requires kept { IsKept columns row.now }
    requires primitive { IsPrimitive columns (row_of columns (entries_of row.now)) }
    requires small { IsSmall (row_of columns (entries_of row.now)) }
    requires new { IsNew columns new.now }
    requires zero { entry_at new.now row.now.pivot ≡ pos 0 }
    requires narrow { StaysSmall columns (row_of columns new.now) (row_of columns (entries_of row.now)) }
    ensures listed { IfOk result (λ list. IsListed 0 columns list.items) }
    ensures cleared { IfOk result (λ list. IsCleared columns (row_of columns new.now) (row_of columns (entries_of row.now)) (row_of columns list.items)) }
{
    let mut made = row.copy(alloc, columns)?;
    let mut room = Vec::with_capacity(alloc, columns as usize)?;
    let mut combined = Vec::with_capacity(alloc, columns as usize)?;
    clear(&mut made, columns, new, 0, &mut room, &mut combined);
    let SparseRow {
        pivot,
        head,
        free,
        ..
    } = made;
    let mut entries = free;
    entries.insert(0, FreeEntry::new(pivot, head))?;
    Ok(entries)
}

// The row with these entries.
fn whole_row(columns: u16, entries: Vec<FreeEntry>) -> WholeRow
    requires few { columns ≤ most_columns }
    requires listed { IsListed 0 columns entries.items }
    ensures { result ≡ row_of columns entries.items }
{
    WholeRow { columns, entries }
}

// The place of the row with this pivot, if there is one.
fn place_at(rows: &[SparseRow], pivot: u16) -> Option<usize>
    ensures { IfSome result (λ k. (k < length rows.now) × ((d : SparseRow) → (slice_index_or rows.now k d).pivot ≡ pivot)) }
{
    for (k, row) in rows.iter().enumerate() {
        if row.pivot == pivot {
            return Some(k);
        }
    }
    None
}

/// The row with this pivot of the form with the row of a new list.
pub(crate) fn row_with_list(
    alloc: Global,
    columns: u16,
    rows: &[SparseRow],
    new: Vec<FreeEntry>,
    pivot: u16,
) -> Result<RowWith, NoMemory>
    requires few { columns ≤ most_columns }
    requires kept { AllByRecursion (IsKept columns) rows.now }
    requires form { IsSmallForm columns (rows_of columns rows.now) }
    requires new { IsNew columns new.items }
    requires zero { IsZeroAtPivots (rows_of columns rows.now) (row_of columns new.items) }
    requires narrow { AllByRecursion (StaysSmall columns (row_of columns new.items)) (rows_of columns rows.now) }
    ensures { IfOk result (IsRowGrown columns (rows_of columns rows.now) (row_of columns new.items) pivot) }
{
    if new[0].place == pivot {
        return Ok(RowWith::Row(whole_row(columns, new)));
    }
    let Some(k) = place_at(rows, pivot) else {
        return Ok(RowWith::Nothing);
    };
    let entries = cleared_entries(alloc, columns, &rows[k], &new)?;
    Ok(RowWith::Row(whole_row(columns, entries)))
}
