//! The true answer to a question over a set of rows.
ghost use Rattle.std.specs.Prelude.{◌≡◌, length};
ghost use Rattle.audit_types.specs.Truth.{sum_over, greatest_over, truth};
ghost use Rattle.oracles.specs.Ranges.{AreInRange};

use audit_types::{Kind, RowSet};

fn sum_over(numbers: &[i64], rows: &RowSet) -> i64
    requires one_each { length numbers.now ≡ rows.now.n }
    requires in_range { AreInRange numbers.now }
    ensures { result ≡ sum_over numbers.now rows.now.list }
{
    // A set says of its n that each of its rows has a number.
    let _ = rows.n();
    let mut sum = 0;
    for row in rows.iter() {
        sum += numbers[row as usize];
    }
    sum
}

fn greatest_over(numbers: &[i64], rows: &RowSet) -> i64
    requires one_each { length numbers.now ≡ rows.now.n }
    requires in_range { AreInRange numbers.now }
    ensures { result ≡ greatest_over numbers.now rows.now.list }
{
    if rows.is_empty() {
        return 0;
    }
    let _ = rows.n();
    let mut greatest = i64::MIN;
    for row in rows.iter() {
        greatest = greatest.max(numbers[row as usize]);
    }
    greatest
}

/// The sum of the numbers over the rows, or the greatest of them; 0 over no row.
pub fn truth(kind: Kind, numbers: &[i64], rows: &RowSet) -> i64
    requires one_each { length numbers.now ≡ rows.now.n }
    requires in_range { AreInRange numbers.now }
    ensures { result ≡ truth kind numbers.now rows.now.list }
{
    match kind {
        Kind::Sum => sum_over(numbers, rows),
        Kind::Max => greatest_over(numbers, rows),
    }
}
