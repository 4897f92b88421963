//! The numbers that a marked form gives for a target.
ghost use Rattle.std.specs.Prelude.{◌≡◌, ◌≢◌, ℕ, ◌+◌, ◌*◌, ◌≤◌, ◌<◌, ◌^◌, ℤ, pos, ◌*ℤ◌, ◌<ℤ◌, List, [], ◌∷◌, IsTrue, IfOk, length, slice_index_or, take, unsigned_abs};
ghost use Rattle.std.specs.Int.{◌∣◌};
ghost use Rattle.std.specs.List.{AllByRecursion};
ghost use Rattle.sum_basis.specs.Limits.{most_columns};
ghost use Rattle.audit_types.specs.Truth.{number_at};
ghost use Rattle.audit_types.specs.Form.{set_row, combined, pivot, pivot_entry, pivot_entries, IsEchelon, IsLeastCommonMultiple};
ghost use Rattle.sum_basis.specs.RowsWith.{IsRowAt};
ghost use Rattle.denial_proof.specs.Numbers.{AreReadSoFar, AreTaken, IsTakenSmall, IsDivided, AreMultipliers};

use audit_types::{NoMemory, RowSet};
use int_rows::{make_primitive, quotient};
use std::alloc::Global;
use sum_basis::{Form, WholeRow};

// How often a row of the form is taken: as often as makes its pivot entry the common multiple, if the target holds its pivot.
fn take_row(form: &Form, common: i128, target: &RowSet, k: u16) -> i128
    requires k { k < length form.now.rows }
    requires positive { pos 0 <ℤ pivot_entry (slice_index_or form.now.rows k []) }
    requires divides { unsigned_abs (pivot_entry (slice_index_or form.now.rows k [])) ∣ unsigned_abs common }
    requires common { unsigned_abs common ≤ 2 ^ 56 }
    requires below { pivot (slice_index_or form.now.rows k []) < target.now.n }
    ensures exact { result *ℤ pivot_entry (slice_index_or form.now.rows k []) ≡ common *ℤ number_at (set_row target.now.n target.now.list) (pivot (slice_index_or form.now.rows k [])) }
    ensures small { unsigned_abs result ≤ 2 ^ 56 }
{
    let pivot = form.pivot(k);
    if !target.has(pivot) {
        return 0;
    }
    quotient(common, form.entry(k, pivot))
}

// What row k of the form has at a column, as often as it is taken. Most rows aren't, if the target is one row.
fn taken_at(form: &Form, times: i128, k: u16, column: u16) -> i128
    requires k { k < length form.now.rows }
    requires column { column < form.now.n }
    requires small { IsTakenSmall times }
    ensures exact { result ≡ times *ℤ number_at (slice_index_or form.now.rows k []) column }
    ensures small { unsigned_abs result ≤ 2 ^ 112 }
{
    if times == 0 {
        return 0;
    }
    // A form says of itself how large its entries are.
    let _ = form.columns();
    times * form.entry(k, column)
}

// What the rows of the form, each as often as it is taken, have at a column.
fn number_at(form: &Form, taken: &[i128], column: u16) -> i128
    requires column { column < form.now.n }
    requires one_each { length taken.now ≡ length form.now.rows }
    requires small { AllByRecursion IsTakenSmall taken.now }
    ensures exact { result ≡ combined taken.now form.now.rows column }
    ensures small { unsigned_abs result ≤ 2 ^ 112 * most_columns }
{
    // A form says of itself how large its entries are, and how many columns it has.
    let _ = form.columns();
    let mut sum = 0;
    for k in 0..form.rank() {
        sum += taken_at(form, taken[k as usize], k, column);
    }
    sum
}

// How often each row of a form is taken for a target.
fn take_rows(
    alloc: Global,
    form: &Form,
    common: i128,
    target: &RowSet,
) -> Result<Vec<i128>, NoMemory>
    requires positive { AllByRecursion (λ row. pos 0 <ℤ pivot_entry row) form.now.rows }
    requires divides { AllByRecursion (λ row. unsigned_abs (pivot_entry row) ∣ unsigned_abs common) form.now.rows }
    requires common { unsigned_abs common ≤ 2 ^ 56 }
    requires below { AllByRecursion (λ row. pivot row < target.now.n) form.now.rows }
    ensures taken { IfOk result (λ taken. AreTaken common (number_at (set_row target.now.n target.now.list)) form.now.rows taken.items) }
    ensures small { IfOk result (λ taken. AllByRecursion IsTakenSmall taken.items) }
{
    let mut taken = Vec::new(alloc);
    for k in 0..form.rank() {
        taken.push(take_row(form, common, target, k))?;
    }
    Ok(taken)
}

// The common multiple, and after it what the rows of a form, each as often as it is taken, have at the m marks after n columns.
fn read_marks(
    alloc: Global,
    form: &Form,
    common: i128,
    taken: &[i128],
    n: u16,
    m: u16,
) -> Result<Vec<i128>, NoMemory>
    requires columns { n + m ≤ form.now.n }
    requires common { unsigned_abs common ≤ 2 ^ 56 }
    requires one_each { length taken.now ≡ length form.now.rows }
    requires small { AllByRecursion IsTakenSmall taken.now }
    ensures one_each { IfOk result (λ numbers. length numbers.items ≡ m + 1) }
    ensures first { IfOk result (λ numbers. number_at numbers.items 0 ≡ common) }
    ensures exact { IfOk result (λ numbers. (k : ℕ) → k < m → number_at numbers.items (k + 1) ≡ combined taken.now form.now.rows (n + k)) }
    ensures small { IfOk result (λ numbers. AllByRecursion (λ x. unsigned_abs x ≤ 2 ^ 112 * most_columns) numbers.items) }
{
    // A form says of itself how many columns it has at most.
    let _ = form.columns();
    let mut numbers = Vec::new(alloc);
    numbers.push(common)?;
    for mark in 0..m {
        numbers.push(number_at(form, taken, n + mark))?;
    }
    Ok(numbers)
}

// What a row has at a column, and after it what it has at the m marks after n columns.
fn read_row(
    alloc: Global,
    row: &WholeRow,
    pivot: u16,
    n: u16,
    m: u16,
) -> Result<Vec<i128>, NoMemory>
    requires columns { n + m ≤ most_columns }
    requires small { (j : ℕ) → unsigned_abs (number_at row.now j) ≤ 2 ^ 56 }
    ensures { IfOk result (λ numbers. AreReadSoFar (number_at row.now pivot) (λ k. number_at row.now (n + k)) m numbers.items) }
{
    let mut numbers = Vec::new(alloc);
    numbers.push(row.entry(pivot))?;
    for mark in 0..m {
        numbers.push(row.entry(n + mark))?;
    }
    Ok(numbers)
}

// Divides numbers, of which the first is positive, by their greatest common divisor.
fn divide(numbers: &mut [i128])
    requires first { pos 0 <ℤ number_at numbers.old 0 }
    requires small { AllByRecursion (λ x. unsigned_abs x ≤ 2 ^ 126) numbers.old }
    ensures { IsDivided numbers.old numbers.new }
{
    make_primitive(numbers);
}

/// How often the target is come to, and after it how often the set of each mark is counted.
pub(crate) fn multipliers(
    alloc: Global,
    form: &Form,
    target: &RowSet,
    m: u16,
) -> Result<Vec<i128>, NoMemory>
    requires columns { target.now.n + m ≤ form.now.n }
    requires below { AllByRecursion (λ row. pivot row < target.now.n) form.now.rows }
    ensures are { IfOk result (λ list. AreMultipliers form.now.rows (set_row target.now.n target.now.list) target.now.n m list.items) }
    ensures one_each { IfOk result (λ list. length list.items ≡ m + 1) }
{
    // A form says of itself that its pivot entries are positive.
    let _ = form.columns();
    let common = form.common();
    let taken = take_rows(alloc, form, common, target)?;
    let mut numbers = read_marks(alloc, form, common, &taken, target.n(), m)?;
    divide(&mut numbers);
    Ok(numbers)
}

/// The same for a row of the table, from the row of the form that has its pivot there.
pub(crate) fn multipliers_of_row(
    alloc: Global,
    row: &WholeRow,
    pivot: u16,
    n: u16,
    m: u16,
) -> Result<Vec<i128>, NoMemory>
    requires columns { n + m ≤ most_columns }
    requires pivot { pivot < n }
    requires small { (j : ℕ) → unsigned_abs (number_at row.now j) ≤ 2 ^ 56 }
    requires positive { pos 0 <ℤ number_at row.now pivot }
    ensures { IfOk result (λ list. (form : List (List ℤ)) → IsEchelon form → IsRowAt form pivot row.now → AreMultipliers form (set_row n (pivot ∷ [])) n m list.items) }
{
    let mut list = read_row(alloc, row, pivot, n, m)?;
    divide(&mut list);
    Ok(list)
}
