//! The canonical direction of a row of a column of sums.
ghost use Rattle.std.specs.Prelude.{◌≡◌, ◌≢◌, ℕ, ℤ, pos, neg_ℤ, ◌<◌, ◌≤◌, ◌^◌, ◌<ℤ◌, ◌*ℤ◌, List, [], false, IfOk, length, map, slice_index_or, unsigned_abs};
ghost use Rattle.std.specs.Int.{◌∣◌};
ghost use Rattle.std.specs.List.{AllByRecursion};
ghost use Rattle.audit_types.specs.Truth.{number_at};
ghost use Rattle.audit_types.specs.Form.{Reduced};
ghost use Rattle.audit_types.specs.Direction.{IsPinned, IsCanonicalDirection, is_pivot, first_free, free_column_of, IsSmall};
ghost use Rattle.sum_audit.specs.Sets.{sets_of};
ghost use Rattle.witness_build.specs.Directions.{IsForm, IsSolved, IsDivided};

use audit_types::NoMemory;
use int_rows::make_primitive;
use std::alloc::Global;
use sum_audit::{SumColumn, laws};
use sum_basis::Basis;

// The first column at which row k of the form isn't 0, but for its pivot.
fn first_free(basis: &Basis, n: u16, k: u16) -> u16
    requires n { n ≡ basis.now.n }
    requires form { IsForm n basis.now.rows }
    requires k { k < length basis.now.rows }
    ensures { result ≡ first_free basis.now.rows (slice_index_or basis.now.rows k []) 0 }
{
    match basis.form().free(k).first() {
        Some(entry) => entry.place,
        None => n,
    }
}

// The free column whose direction belongs to the row.
fn free_column(basis: &Basis, n: u16, row: u16) -> u16
    requires n { n ≡ basis.now.n }
    requires form { IsForm n basis.now.rows }
    ensures { result ≡ free_column_of basis.now.rows basis.now.rows row }
{
    for k in 0..basis.rank() {
        if basis.pivot(k) == row {
            return first_free(basis, n, k);
        }
    }
    row
}

// What stands at a row's pivot, if `common` stands at the free column and the row's entry there is `entry`.
fn solution(entry: i128, pivot_entry: i128, common: i128) -> i128
    requires entry { unsigned_abs entry ≤ 2 ^ 56 }
    requires positive { pos 0 <ℤ pivot_entry }
    requires divides { unsigned_abs pivot_entry ∣ unsigned_abs common }
    requires common { (pos 0 <ℤ common) × (unsigned_abs common ≤ 2 ^ 56) }
    ensures exact { result *ℤ pivot_entry ≡ neg_ℤ (entry *ℤ common) }
    ensures small { unsigned_abs result ≤ 2 ^ 112 }
{
    if entry == 0 {
        return 0;
    }
    let times = (common.unsigned_abs() / pivot_entry.unsigned_abs()) as i128;
    -(entry * times)
}

// Writes the direction that has the common multiple at the free column, and 0 at the other free ones.
fn solve(direction: &mut [i128], basis: &Basis, free: u16)
    requires n { length direction.old ≡ basis.now.n }
    requires zeros { (j : ℕ) → number_at direction.old j ≡ pos 0 }
    requires form { IsForm basis.now.n basis.now.rows }
    requires below { free < basis.now.n }
    requires free { is_pivot basis.now.rows free ≡ false }
    ensures { IsSolved basis.now.n basis.now.rows free direction.new }
{
    let common = basis.common();
    direction[free as usize] = common;
    for k in 0..basis.rank() {
        let pivot = basis.pivot(k);
        direction[pivot as usize] = solution(basis.entry(k, free), basis.entry(k, pivot), common);
    }
}

// Turns the sign of each number.
fn turn(numbers: &mut [i128])
    requires { AllByRecursion (λ x. unsigned_abs x ≤ 2 ^ 126) numbers.old }
    ensures { numbers.new ≡ map neg_ℤ numbers.old }
{
    for x in numbers.iter_mut() {
        *x = -*x;
    }
}

// Divides the numbers by their greatest common divisor, so that the row's is positive.
fn divide(numbers: &mut [i128], row: u16)
    requires small { IsSmall numbers.old }
    requires moves { number_at numbers.old row ≢ pos 0 }
    ensures { IsDivided numbers.old row numbers.new }
{
    make_primitive(numbers);
    if numbers[row as usize] < 0 {
        turn(numbers);
    }
}

// Writes the canonical direction of a row over zeros.
fn write_direction(direction: &mut [i128], column: &SumColumn, row: u16)
    requires n { length direction.old ≡ column.now.n }
    requires zeros { (j : ℕ) → number_at direction.old j ≡ pos 0 }
    requires row { row < column.now.n }
    requires free { ¬ (IsPinned column.now.n (sets_of column.now.answers) row) }
    ensures canonical { (form : List (List ℤ)) → Reduced column.now.n (sets_of column.now.answers) form → IsCanonicalDirection column.now.n (sets_of column.now.answers) form row direction.new }
    ensures small { IsSmall direction.new }
    ensures n { length direction.new ≡ column.now.n }
{
    laws::directions_of_a_form();
    sum_basis::laws::forms_are_unique();
    let basis = column.basis();
    let free = free_column(basis, column.n(), row);
    solve(direction, basis, free);
    divide(direction, row);
}

/// The canonical direction of a row: the one that is 0 at each free column of the reduced form but that of the row,
/// divided by the greatest common divisor of its numbers, and positive at the row. Added to the numbers of the column it
/// changes no answered sum.
pub fn sum_witness(alloc: Global, column: &SumColumn, row: u16) -> Result<Vec<i128>, NoMemory>
    requires row { row < column.now.n }
    requires free { ¬ (IsPinned column.now.n (sets_of column.now.answers) row) }
    ensures canonical { IfOk result (λ d. (form : List (List ℤ)) → Reduced column.now.n (sets_of column.now.answers) form → IsCanonicalDirection column.now.n (sets_of column.now.answers) form row d.items) }
    ensures small { IfOk result (λ d. IsSmall d.items) }
{
    let mut direction = vec![in alloc; 0; column.n() as usize]?;
    write_direction(&mut direction, column, row);
    Ok(direction)
}
