//! Whether the answer to a question follows from those before it.
ghost use Rattle.std.specs.Prelude.{◌≡◌, ◌↔◌, ℤ, IsTrue, MatchOption};
ghost use Rattle.audit_types.specs.History.{FitsShape, known_of};
ghost use Rattle.implied_records.specs.Follows.{Follows, IsForcedToOne, IsHighestBound, higher_of};

use audit_core::{ColumnRef, Core};
use audit_types::{Asked, RowSet};
use max_bounds::Bounds;

// The higher of a bound and the highest one so far.
fn higher(highest: Option<i64>, bound: i64) -> i64
    ensures { result ≡ higher_of highest bound }
{
    match highest {
        Some(highest) => highest.max(bound),
        None => bound,
    }
}

// The highest bound of a set's rows, if each has one.
fn highest_bound(bounds: &Bounds, rows: &RowSet) -> Option<i64>
    requires { rows.now.n ≡ bounds.now.n }
    ensures { MatchOption result ((value : ℤ) → ¬ (IsHighestBound bounds.now.answers rows.now.list value)) (IsHighestBound bounds.now.answers rows.now.list) }
{
    // A set says of its n that no row is past it.
    let _ = rows.n();
    let mut highest = None;
    for row in rows.iter() {
        let Some(bound) = bounds.upper(row) else {
            return None;
        };
        highest = Some(higher(highest, bound));
    }
    highest
}

// Whether bounds and extreme rows force the maximum over the rows to be one number.
fn is_forced_to_one(bounds: &Bounds, rows: &RowSet) -> bool
    requires { rows.now.n ≡ bounds.now.n }
    ensures { IsTrue result ↔ IsForcedToOne bounds.now.answers rows.now.list }
{
    match highest_bound(bounds, rows) {
        Some(highest) => bounds.has_extremes_within(rows, highest),
        None => false,
    }
}

/// Whether the answer to a question follows from the records of the core: of a sum, whether its set is a combination of theirs; of a
/// maximum, whether it has to be one number. It takes no memory.
pub fn follows(core: &Core, asked: &Asked) -> bool
    requires { FitsShape core.now.setting.shape asked.now.column asked.now.rows }
    ensures { IsTrue result ↔ Follows (known_of core.now.setting core.now.history asked.now.column) asked.now.rows.list }
{
    match core.column(asked.column) {
        ColumnRef::Sum(sums) => sums.basis().contains(&asked.rows),
        ColumnRef::Max(maxima) => is_forced_to_one(maxima.bounds(), &asked.rows),
    }
}
