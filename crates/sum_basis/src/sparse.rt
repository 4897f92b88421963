//! Reduced rows as lists of the entries that are not 0.
ghost use Rattle.std.specs.Prelude.{◌≡◌, ◌≢◌, ◌↔◌, ℕ, ◌<◌, ◌≤◌, ◌+◌, ◌^◌, ℤ, pos, ◌-ℤ◌, ◌*ℤ◌, length, unsigned_abs, IsTrue, IfOk};
ghost use Rattle.std.specs.Vec.{vec_capacity};
ghost use Rattle.std.specs.Int.{◌∣◌};
ghost use Rattle.std.specs.List.{AllByRecursion};
ghost use Rattle.sum_basis.specs.Limits.{most_columns, most_remainder};
ghost use Rattle.audit_types.specs.Truth.{number_at};
ghost use Rattle.sum_basis.specs.Combination.{combine};
ghost use Rattle.sum_basis.specs.Elimination.{IsSmall, IsSmallForm, IsLessMultiple, IsRemainder};
ghost use Rattle.audit_types.specs.Form.{pivot, pivot_entry};
ghost use Rattle.sum_basis.specs.Sparse.{entry_at, row_of, IsListed, entries_of, rows_of, IsKept};

use crate::cleared_list::product;
use crate::merging::put;
use crate::wide_entry::WideEntry;
use audit_types::NoMemory;
use int_rows::quotient;
use std::alloc::Global;

/// An entry of a reduced row that is not 0.
#[derive(Clone, Copy)]
pub struct FreeEntry {
    pub place: u16,
    pub value: i64,
}

impl FreeEntry {
    /// An entry with a small value.
    pub fn new(place: u16, value: i128) -> FreeEntry
        requires { unsigned_abs value ≤ 2 ^ 56 }
        ensures { result ≡ record { place = place; value = value } }
    {
        FreeEntry {
            place,
            value: value as i64,
        }
    }

    /// The value, as a number that products are formed of.
    pub fn number(self) -> i128
        ensures { result ≡ self.value }
    {
        self.value as i128
    }
}

/// A row by its pivot, its entry there, and the entries after it. No size of its entries is above `most`.
#[derive(Drop)]
pub struct SparseRow {
    pub pivot: u16,
    pub head: i128,
    pub most: u128,
    pub free: Vec<FreeEntry>,
}

impl SparseRow {
    /// An equal row, with room for one entry a column.
    pub fn copy(&self, alloc: Global, columns: u16) -> Result<SparseRow, NoMemory>
        requires { IsKept columns self.now }
        ensures same { IfOk result (λ row. entries_of row ≡ entries_of self.now) }
        ensures kept { IfOk result (λ row. IsKept columns row) }
    {
        Ok(SparseRow {
            pivot: self.pivot,
            head: self.head,
            most: self.most,
            free: copy_list(alloc, &self.free, columns)?,
        })
    }
}

/// An equal list, with room for one entry a column.
pub fn copy_list(
    alloc: Global,
    entries: &[FreeEntry],
    columns: u16,
) -> Result<Vec<FreeEntry>, NoMemory>
    ensures same { IfOk result (λ list. list.items ≡ entries.now) }
    ensures room { IfOk result (λ list. columns ≤ vec_capacity list) }
{
    let mut list = Vec::with_capacity(alloc, columns as usize)?;
    list.extend_from_slice(entries)?;
    Ok(list)
}

// x less y as often as `times` says.
fn less(x: i128, times: i128, y: i128) -> i128
    requires x { unsigned_abs x + 2 ^ 112 < 2 ^ 127 }
    requires times { unsigned_abs times ≤ 2 ^ 56 }
    requires y { unsigned_abs y ≤ 2 ^ 56 }
    ensures { result ≡ x -ℤ times *ℤ y }
{
    if times == 1 {
        return x - y;
    }
    x - product(times, y)
}

/// Takes a multiple of the listed entries from the row.
pub fn subtract(row: &mut [i128], entries: &[FreeEntry], times: i128)
    requires listed { IsListed 0 (length row.old) entries.now }
    requires small { AllByRecursion (λ e. unsigned_abs e.value ≤ 2 ^ 56) entries.now }
    requires row { (j : ℕ) → unsigned_abs (number_at row.old j) + 2 ^ 112 < 2 ^ 127 }
    requires times { unsigned_abs times ≤ 2 ^ 56 }
    ensures { row.new ≡ combine (pos 1) row.old times (row_of (length row.old) entries.now) }
{
    for e in entries {
        let place = e.place as usize;
        let before = row[place];
        row[place] = less(before, times, e.number());
    }
}

/// Takes the multiple of the other row that makes the row 0 at its pivot.
pub fn take_multiple(row: &mut [i128], other: &SparseRow)
    requires other { IsKept (length row.old) other.now }
    requires other_small { IsSmall (row_of (length row.old) (entries_of other.now)) }
    requires row { (j : ℕ) → unsigned_abs (number_at row.old j) + 2 ^ 112 < 2 ^ 127 }
    requires at_pivot { unsigned_abs (number_at row.old other.now.pivot) ≤ 2 ^ 56 }
    requires divides { unsigned_abs other.now.head ∣ unsigned_abs (number_at row.old other.now.pivot) }
    ensures { IsLessMultiple (row_of (length row.old) (entries_of other.now)) row.old row.new }
{
    let pivot = other.pivot as usize;
    let multiple = row[pivot];
    if multiple != 0 {
        let times = quotient(multiple, other.head);
        row[pivot] = 0;
        subtract(row, &other.free, times);
    }
}

/// Takes multiples of the form's rows from the row, so that it is 0 at their pivots.
pub fn reduce(row: &mut [i128], form: &[SparseRow])
    requires kept { AllByRecursion (IsKept (length row.old)) form.now }
    requires form { IsSmallForm (length row.old) (rows_of (length row.old) form.now) }
    requires few { length form.now ≤ most_columns }
    requires small { IsSmall row.old }
    requires divides { AllByRecursion (λ r. unsigned_abs (pivot_entry r) ∣ unsigned_abs (number_at row.old (pivot r))) (rows_of (length row.old) form.now) }
    ensures remainder { IsRemainder (rows_of (length row.old) form.now) row.old row.new }
    ensures small { (j : ℕ) → unsigned_abs (number_at row.new j) < most_remainder }
{
    for other in form {
        take_multiple(row, other);
    }
}

/// The entries of a row that are not 0, with room for one a column.
pub fn list_of(alloc: Global, row: &[i128]) -> Result<Vec<WideEntry>, NoMemory>
    requires { length row.now ≤ most_columns }
    ensures listed { IfOk result (λ list. IsListed 0 (length row.now) list.items) }
    ensures is { IfOk result (λ list. (j : ℕ) → entry_at list.items j ≡ number_at row.now j) }
    ensures room { IfOk result (λ list. length row.now ≤ vec_capacity list) }
{
    let mut list = Vec::with_capacity(alloc, row.len())?;
    for (place, value) in row.iter().enumerate() {
        put(&mut list, place as u16, *value);
    }
    Ok(list)
}

/// An equal list of small entries as one that is kept, with room for one entry a column.
pub fn short_list(
    alloc: Global,
    entries: &[WideEntry],
    columns: u16,
) -> Result<Vec<FreeEntry>, NoMemory>
    requires length { length entries.now ≤ columns }
    requires small { AllByRecursion (λ e. unsigned_abs e.value ≤ 2 ^ 56) entries.now }
    ensures same { IfOk result (λ list. list.items ≡ entries.now) }
    ensures room { IfOk result (λ list. columns ≤ vec_capacity list) }
{
    let mut list = Vec::with_capacity(alloc, columns as usize)?;
    for entry in entries {
        list.push_reserved(entry.short());
    }
    Ok(list)
}

/// Equal rows, each with room for one entry a column.
pub fn copy_rows(
    alloc: Global,
    rows: &[SparseRow],
    columns: u16,
) -> Result<Vec<SparseRow>, NoMemory>
    requires { AllByRecursion (IsKept columns) rows.now }
    ensures same { IfOk result (λ copies. rows_of columns copies.items ≡ rows_of columns rows.now) }
    ensures kept { IfOk result (λ copies. AllByRecursion (IsKept columns) copies.items) }
{
    let mut copies = Vec::with_capacity(alloc, rows.len())?;
    for row in rows {
        let copy = row.copy(alloc, columns)?;
        copies.push_reserved(copy);
    }
    Ok(copies)
}
