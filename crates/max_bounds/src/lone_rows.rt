//! The rows that are the only extreme ones of some answer.
ghost use Rattle.std.specs.Prelude.{◌≡◌};
ghost use Rattle.audit_types.specs.Extremes.{upper_bound};
ghost use Rattle.audit_types.specs.Rows.{IsLeast};
ghost use Rattle.max_bounds.specs.Maxima.{answers_of};
ghost use Rattle.max_bounds.specs.Reaching.{bound_at, reaching, lone_of, lesser_of, IsAlone};

use crate::answered_maxima::AnsweredMaxima;
use crate::upper_bounds::{UpperBounds, upper_bounds};
use audit_types::RowSet;

// The row of an answer whose bound it is, if there is one and no other.
fn lone_row(bounds: &UpperBounds, rows: &RowSet, answer: i128) -> Option<u16>
    ensures { result ≡ lone_of (reaching (bound_at bounds.now) rows.now.list answer) }
{
    // A set says of its n that no row is past the array's end.
    let _ = rows.n();
    let mut count: u16 = 0;
    let mut lone = None;
    for row in rows.iter() {
        if bounds[row as usize] == Some(answer) {
            lone = if count == 0 { Some(row) } else { None };
            count += 1;
        }
    }
    lone
}

fn lesser(one: Option<u16>, other: Option<u16>) -> Option<u16>
    ensures { result ≡ lesser_of one other }
{
    match (one, other) {
        (Some(one), Some(other)) => Some(one.min(other)),
        (Some(one), None) => Some(one),
        (None, other) => other,
    }
}

// The least row that is alone under an answer, if the bounds are given.
fn least_under(bounds: &UpperBounds, pairs: &AnsweredMaxima) -> Option<u16>
    ensures { IsLeast (IsAlone (bound_at bounds.now) (answers_of pairs.now.items)) result }
{
    let mut least = None;
    for k in 0..pairs.len() {
        let pair = pairs.get(k);
        let row = lone_row(bounds, &pair.rows, pair.answer as i128);
        least = lesser(least, row);
    }
    least
}

/// The least row that is the only extreme one of some answer.
pub(crate) fn least_lone(pairs: &AnsweredMaxima) -> Option<u16>
    ensures { IsLeast (IsAlone (upper_bound (answers_of pairs.now.items)) (answers_of pairs.now.items)) result }
{
    least_under(&upper_bounds(pairs), pairs)
}
