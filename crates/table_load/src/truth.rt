//! Sums and greatest numbers over sets of rows.
ghost use Rattle.std.specs.Prelude.{◌≡◌, ◌≢◌, [], map};
ghost use Rattle.std.specs.Int.{int_max};
ghost use Rattle.std.specs.List.{fold};
ghost use Rattle.audit_types.specs.Truth.{number_at, sum_over, truth};
ghost use Rattle.table_load.specs.Cells.{AreNumbers};

use audit_types::{Kind, RowSet};

/// The sum over the rows of a set. Its size is at most that of an answer.
pub(crate) fn sum_over(list: &[i64], rows: &RowSet) -> i64
    requires { AreNumbers rows.now.n list.now }
    ensures { result ≡ sum_over list.now rows.now.list }
{
    // A set says of its n that each of its rows has a number.
    let _n = rows.n();
    let mut sum = 0i64;
    for row in rows.iter() {
        sum += list[row as usize];
    }
    sum
}

/// The greatest of a number and those over the rows of a set.
pub(crate) fn greatest_from(start: i64, list: &[i64], rows: &RowSet) -> i64
    requires { AreNumbers rows.now.n list.now }
    ensures { result ≡ fold int_max start (map (number_at list.now) rows.now.list) }
{
    // A set says of its n that each of its rows has a number.
    let _n = rows.n();
    let mut greatest = start;
    for row in rows.iter() {
        greatest = greatest.max(list[row as usize]);
    }
    greatest
}

/// The true answer over the rows of a set, by the kind of the column.
pub(crate) fn truth_over(kind: Kind, list: &[i64], rows: &RowSet) -> i64
    requires numbers { AreNumbers rows.now.n list.now }
    requires some { rows.now.list ≢ [] }
    ensures { result ≡ truth kind list.now rows.now.list }
{
    match kind {
        Kind::Sum => sum_over(list, rows),
        Kind::Max => greatest_from(i64::MIN, list, rows),
    }
}
