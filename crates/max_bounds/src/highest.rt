//! Whether few people stand behind the rows of a set that have its highest bound.
ghost use Rattle.std.specs.Prelude.{◌≡◌, ◌↔◌, ◌≤◌, IsTrue, length};
ghost use Rattle.max_bounds.specs.Reaching.{bound_at};
ghost use Rattle.max_bounds.specs.Outside.{IsBelowBound};
ghost use Rattle.max_bounds.specs.Few.{HasFewHighest};

use crate::people::{enough, less_row};
use audit_types::{CountedRows, RowSet};

/// Whether a bound is higher than another. No bound is above every number.
pub(crate) fn is_higher(bound: Option<i64>, other: Option<i64>) -> bool
    ensures { IsTrue result ↔ IsBelowBound other bound }
{
    match (bound, other) {
        (_, None) => false,
        (None, Some(_)) => true,
        (Some(bound), Some(other)) => bound > other,
    }
}

/// Whether few people stand behind the rows of the set with its highest bound; a row without a bound stands above all.
pub(crate) fn few_highest(upper: &[Option<i64>], rows: &RowSet, people: &CountedRows) -> bool
    requires within { rows.now.n ≤ length upper.now }
    ensures { IsTrue result ↔ HasFewHighest people.now.people (bound_at upper.now) rows.now.list }
{
    // A set says of its n that no row is past it.
    let _ = rows.n();
    let counts = people.counts();
    let enough = enough(people);
    let mut left = rows.iter();
    let Some(first) = left.next() else {
        return false;
    };
    let mut highest = upper[first as usize];
    let mut missing = less_row(enough, counts, first);
    for row in left {
        if highest.is_none() && missing == 0 {
            return false;
        }
        let bound = upper[row as usize];
        if bound == highest {
            missing = less_row(missing, counts, row);
        } else if is_higher(bound, highest) {
            highest = bound;
            missing = less_row(enough, counts, row);
        }
    }
    missing > 0
}
