//! Whole rows in numbers of 64 bits: a form whose pivot entries are 1, and whose other entries are not too large, needs no wider ones for what it
//! leaves of a set.
ghost use Rattle.std.specs.Prelude.{◌≡◌, ◌⊎◌, ℕ, ◌<◌, ◌≤◌, ◌+◌, ◌^◌, pos, ◌-ℤ◌, length, unsigned_abs, IfOk};
ghost use Rattle.std.specs.List.{AllByRecursion};
ghost use Rattle.sum_basis.specs.Limits.{most_columns, most_short};
ghost use Rattle.audit_types.specs.Truth.{number_at};
ghost use Rattle.audit_types.specs.Form.{set_row};
ghost use Rattle.sum_basis.specs.Combination.{combine};
ghost use Rattle.sum_basis.specs.Elimination.{IsSmallForm, IsLessMultiple, IsRemainder};
ghost use Rattle.sum_basis.specs.Sparse.{entry_at, row_of, rows_of, entries_of, IsKept, IsListed, IsShortRow};

use crate::merging::put;
use crate::sparse::{FreeEntry, SparseRow};
use crate::wide_entry::WideEntry;
use audit_types::{NoMemory, RowSet};
use std::alloc::Global;

/// The greatest entry of a form that leaves numbers of 64 bits: it may be taken as often as a form has rows.
pub const MOST_SHORT: u128 = 1 << 48;

/// Writes 1 at each row of the set into a row of zeros.
pub fn write_ones(row: &mut [i64], set: &RowSet)
    requires length { length row.old ≡ set.now.n }
    requires zeros { (j : ℕ) → number_at row.old j ≡ pos 0 }
    ensures { row.new ≡ set_row set.now.n set.now.list }
{
    // A set says of itself that its rows are rows of the table.
    let _ = set.n();
    for j in set.iter() {
        row[j as usize] = 1;
    }
}

// x less y.
fn less_once(x: i64, y: i64) -> i64
    requires x { unsigned_abs x + most_short < 2 ^ 63 }
    requires y { unsigned_abs y ≤ most_short }
    ensures { result ≡ x -ℤ y }
{
    x - y
}

// Takes the listed entries from the row.
fn subtract_once(row: &mut [i64], entries: &[FreeEntry])
    requires listed { IsListed 0 (length row.old) entries.now }
    requires small { AllByRecursion (λ e. unsigned_abs e.value ≤ most_short) entries.now }
    requires row { (j : ℕ) → unsigned_abs (number_at row.old j) + most_short < 2 ^ 63 }
    ensures { row.new ≡ combine (pos 1) row.old (pos 1) (row_of (length row.old) entries.now) }
{
    for e in entries {
        let place = e.place as usize;
        let before = row[place];
        row[place] = less_once(before, e.value);
    }
}

// Takes the other row, if the row has 1 at its pivot: then it has 0 there.
fn take_once(row: &mut [i64], other: &SparseRow)
    requires other { IsKept (length row.old) other.now }
    requires short { IsShortRow other.now }
    requires row { (j : ℕ) → unsigned_abs (number_at row.old j) + most_short < 2 ^ 63 }
    requires bit { (number_at row.old other.now.pivot ≡ pos 0) ⊎ (number_at row.old other.now.pivot ≡ pos 1) }
    ensures less { IsLessMultiple (row_of (length row.old) (entries_of other.now)) row.old row.new }
    ensures near { (j : ℕ) → unsigned_abs (number_at row.new j) ≤ unsigned_abs (number_at row.old j) + most_short }
{
    let pivot = other.pivot as usize;
    let there = row[pivot];
    if there == 1 {
        row[pivot] = 0;
        subtract_once(row, &other.free);
    }
}

/// Takes rows of the form from a row of zeros and ones, so that it is 0 at their pivots.
pub fn reduce_short(row: &mut [i64], form: &[SparseRow])
    requires kept { AllByRecursion (IsKept (length row.old)) form.now }
    requires form { IsSmallForm (length row.old) (rows_of (length row.old) form.now) }
    requires short { AllByRecursion IsShortRow form.now }
    requires few { length form.now ≤ most_columns }
    requires bits { (j : ℕ) → (number_at row.old j ≡ pos 0) ⊎ (number_at row.old j ≡ pos 1) }
    ensures remainder { IsRemainder (rows_of (length row.old) form.now) row.old row.new }
    ensures small { (j : ℕ) → unsigned_abs (number_at row.new j) < 2 ^ 63 }
{
    for other in form {
        take_once(row, other);
    }
}

fn widened(x: i64) -> i128
    ensures { result ≡ x }
{
    x as i128
}

/// The entries of a row that are not 0, with room for one a column.
pub fn list_of_short(alloc: Global, row: &[i64]) -> Result<Vec<WideEntry>, NoMemory>
    requires { length row.now ≤ most_columns }
    ensures listed { IfOk result (λ list. IsListed 0 (length row.now) list.items) }
    ensures is { IfOk result (λ list. (j : ℕ) → entry_at list.items j ≡ number_at row.now j) }
{
    let mut list = Vec::with_capacity(alloc, row.len())?;
    for (place, value) in row.iter().enumerate() {
        put(&mut list, place as u16, widened(*value));
    }
    Ok(list)
}
