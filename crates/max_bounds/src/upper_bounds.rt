//! The upper bounds of all rows at once.
ghost use Rattle.std.specs.Prelude.{◌≡◌, ◌<◌, ℕ};
ghost use Rattle.audit_types.specs.Extremes.{least_of, upper_bound};
ghost use Rattle.max_bounds.specs.Maxima.{answers_of};
ghost use Rattle.max_bounds.specs.Reaching.{bound_at, bound_with};

use crate::answered_maxima::AnsweredMaxima;
use audit_types::{MOST_ROWS, RowSet};

/// An entry for each row that a table can have: its upper bound, if some set holds it.
pub(crate) type UpperBounds = [Option<i128>; MOST_ROWS as usize];

// The bound of a row that is in the set of an answer.
fn least(answer: i128, bound: Option<i128>) -> i128
    ensures { result ≡ least_of answer bound }
{
    match bound {
        Some(bound) => answer.min(bound),
        None => answer,
    }
}

/// Lowers the bounds of the rows of an answer.
pub(crate) fn lower(bounds: &mut UpperBounds, rows: &RowSet, answer: i128)
    ensures lowered { (r : ℕ) → bound_at bounds.new r ≡ bound_with rows.now.list answer r (bound_at bounds.old r) }
{
    // A set says of its n that no row is past the array's end.
    let _ = rows.n();
    for row in rows.iter() {
        bounds[row as usize] = Some(least(answer, bounds[row as usize]));
    }
}

/// The upper bound of each row, in a step for each row of each set.
pub(crate) fn upper_bounds(pairs: &AnsweredMaxima) -> UpperBounds
    ensures exact { (r : ℕ) → bound_at result r ≡ upper_bound (answers_of pairs.now.items) r }
{
    let mut bounds = [None; MOST_ROWS as usize];
    for k in 0..pairs.len() {
        let pair = pairs.get(k);
        lower(&mut bounds, &pair.rows, pair.answer as i128);
    }
    bounds
}
