//! Whole rows: the row of a set, its pivot and its size.
ghost use Rattle.std.specs.Prelude.{◌≡◌, ◌↔◌, ℕ, ◌≤◌, ◌^◌, pos, map, length, unsigned_abs, IsTrue};
ghost use Rattle.std.specs.List.{AllByRecursion};
ghost use Rattle.audit_types.specs.Truth.{number_at};
ghost use Rattle.audit_types.specs.Form.{set_row, pivot};
ghost use Rattle.audit_types.specs.PrimitiveLines.{times};
ghost use Rattle.sum_basis.specs.Elimination.{IsSmall};

use crate::cleared_list::product;
use audit_types::RowSet;

/// The place of the first entry that isn't 0, and the length if all are 0.
pub fn pivot_of(row: &[i128]) -> usize
    ensures { result ≡ pivot row.now }
{
    for (place, x) in row.iter().enumerate() {
        if *x != 0 {
            return place;
        }
    }
    row.len()
}

/// Whether each entry is 0.
pub fn has_no_pivot(row: &[i128]) -> bool
    ensures { IsTrue result ↔ (pivot row.now ≡ length row.now) }
{
    pivot_of(row) == row.len()
}

/// Writes 1 at each row of the set, and 0 at every other one.
pub fn write_set(row: &mut [i128], set: &RowSet)
    requires { length row.old ≡ set.now.n }
    ensures { row.new ≡ set_row set.now.n set.now.list }
{
    for j in 0..set.n() {
        row[j as usize] = if set.has(j) { 1 } else { 0 };
    }
}

/// Writes a row of zeros and ones.
pub fn write_bits(row: &mut [i128], bits: &[u8])
    requires { length row.old ≡ length bits.now }
    ensures { row.new ≡ map pos bits.now }
{
    for j in 0..row.len() {
        row[j] = bits[j] as i128;
    }
}

fn multiply(row: &mut [i128], multiple: i128)
    requires bits { (j : ℕ) → unsigned_abs (number_at row.old j) ≤ 1 }
    requires multiple { unsigned_abs multiple ≤ 2 ^ 56 }
    ensures { row.new ≡ times multiple row.old }
{
    for j in 0..row.len() {
        let x = row[j];
        row[j] = product(multiple, x);
    }
}

/// Takes the multiple of a row of zeros and ones.
pub fn scale(row: &mut [i128], multiple: i128)
    requires bits { (j : ℕ) → unsigned_abs (number_at row.old j) ≤ 1 }
    requires multiple { unsigned_abs multiple ≤ 2 ^ 56 }
    ensures { row.new ≡ times multiple row.old }
{
    if multiple != 1 {
        multiply(row, multiple);
    }
}
