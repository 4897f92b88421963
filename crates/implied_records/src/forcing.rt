//! Whether the answers before it force a maximum: no number of its set can be above it, and one has to reach it.
ghost use Rattle.std.specs.Prelude.{◌≡◌, ◌↔◌, IsTrue};
ghost use Rattle.implied_records.specs.Kept.{IsAtMost, IsBounded, IsForced};

use audit_types::RowSet;
use max_bounds::Bounds;

// Whether the bound is at most the answer.
fn is_within(bound: Option<i64>, answer: i64) -> bool
    ensures { IsTrue result ↔ IsAtMost bound answer }
{
    match bound {
        Some(bound) => bound <= answer,
        None => false,
    }
}

// Whether the bound of each row of the set is at most the answer.
fn is_bounded(bounds: &Bounds, rows: &RowSet, answer: i64) -> bool
    requires { rows.now.n ≡ bounds.now.n }
    ensures { IsTrue result ↔ IsBounded bounds.now.answers rows.now.list answer }
{
    // A set says of its n that no row is past it.
    let _ = rows.n();
    for row in rows.iter() {
        if !is_within(bounds.upper(row), answer) {
            return false;
        }
    }
    true
}

/// Whether bounds and extreme rows force the answer: the bound of each row is at most the answer, and an earlier answer of the
/// same number has all its extreme rows in the set.
pub(crate) fn is_forced(bounds: &Bounds, rows: &RowSet, answer: i64) -> bool
    requires { rows.now.n ≡ bounds.now.n }
    ensures { IsTrue result ↔ IsForced bounds.now.answers (record { rows = rows.now.list; value = answer }) }
{
    is_bounded(bounds, rows, answer) && bounds.has_extremes_within(rows, answer)
}
