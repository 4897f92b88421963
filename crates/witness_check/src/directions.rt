//! The check of a direction for a column of sums.
ghost use Rattle.std.specs.Prelude.{◌≡◌, ◌≢◌, ◌↔◌, ℕ, ◌<◌, ◌≤◌, ◌^◌, true, pos, map, IsTrue, length, unsigned_abs};
ghost use Rattle.std.specs.List.{AllByRecursion};
ghost use Rattle.audit_types.specs.Limits.{most_rows};
ghost use Rattle.audit_types.specs.Rows.{has_row};
ghost use Rattle.audit_types.specs.Truth.{number_at, sum_over};
ghost use Rattle.audit_types.specs.Direction.{IsSmall};
ghost use Rattle.witness_check.specs.Directions.{HasZeroSums, MovesRow, lists_of};

use audit_types::RowSet;

// The greatest size of an entry of a direction.
const LIMIT: u128 = 1 << 112;

fn is_small(numbers: &[i128]) -> bool
    ensures { IsTrue result ↔ IsSmall numbers.now }
{
    numbers.iter().all(|x| x.unsigned_abs() <= LIMIT)
}

// The first n rows at which the numbers aren't 0.
fn moved_rows(n: u16, numbers: &[i128]) -> RowSet
    requires some { 0 < n }
    requires at_most { n ≤ most_rows }
    requires within { n ≤ length numbers.now }
    ensures n { result.n ≡ n }
    ensures moved { (r : ℕ) → r < n → number_at numbers.now r ≢ pos 0 → has_row result.list r ≡ true }
{
    let mut moved = RowSet::new(n);
    for row in 0..n {
        if numbers[row as usize] != 0 {
            moved.add(row);
        }
    }
    moved
}

fn sum_over(numbers: &[i128], rows: &RowSet) -> i128
    requires within { rows.now.n ≤ length numbers.now }
    requires small { IsSmall numbers.now }
    ensures { result ≡ sum_over numbers.now rows.now.list }
{
    let _ = rows.n();
    let mut sum = 0;
    for row in rows.iter() {
        sum += numbers[row as usize];
    }
    sum
}

// The sum over a set, of which only the moved rows are looked at.
fn sum_of_moved(numbers: &[i128], moved: &RowSet, rows: &RowSet) -> i128
    requires within { rows.now.n ≤ length numbers.now }
    requires same_n { moved.now.n ≡ rows.now.n }
    requires small { IsSmall numbers.now }
    requires moved { (r : ℕ) → r < rows.now.n → number_at numbers.now r ≢ pos 0 → has_row moved.now.list r ≡ true }
    ensures { result ≡ sum_over numbers.now rows.now.list }
{
    let _ = rows.n();
    let mut both = *rows;
    both.and_with(moved);
    sum_over(numbers, &both)
}

fn has_zero_sums(numbers: &[i128], sets: &[RowSet]) -> bool
    requires same_n { AllByRecursion (λ s. s.n ≡ length numbers.now) sets.now }
    requires small { IsSmall numbers.now }
    ensures { IsTrue result ↔ HasZeroSums numbers.now (lists_of sets.now) }
{
    let Some(first) = sets.first() else {
        return true;
    };
    let moved = moved_rows(first.n(), numbers);
    for set in sets {
        if sum_of_moved(numbers, &moved, set) != 0 {
            return false;
        }
    }
    true
}

/// Whether `v` has a number for each of the n rows, of a size of at most `2^112`, sums to 0 over each set, and isn't 0 at
/// the row: added to the numbers of the column it changes no sum, and does change the row's number. It takes no memory.
pub fn check_direction(n: u16, sets: &[RowSet], v: &[i128], row: u16) -> bool
    requires same_n { AllByRecursion (λ s. s.n ≡ n) sets.now }
    requires row { row < n }
    ensures exact { IsTrue result ↔ MovesRow n (lists_of sets.now) row v.now }
{
    v.len() == n as usize && is_small(v) && v[row as usize] != 0 && has_zero_sums(v, sets)
}
