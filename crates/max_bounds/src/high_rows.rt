//! The rows with high bounds, for some cuts. Most questions on many rows have such a row for a high cut, and then no other row
//! counts.
ghost use Rattle.std.specs.Prelude.{◌≡◌, ◌↔◌, ◌<◌, ◌≤◌, ◌≤ℤ◌, ℕ, ℤ, true, List, Option, IsTrue, IfSome, length};
ghost use Rattle.std.specs.List.{AllByRecursion};
ghost use Rattle.audit_types.specs.Limits.{most_rows};
ghost use Rattle.audit_types.specs.Rows.{has_row, complement};
ghost use Rattle.max_bounds.specs.Reaching.{bound_at};
ghost use Rattle.max_bounds.specs.Few.{HasFewHighest};
ghost use Rattle.max_bounds.specs.Kept.{is_at_least, rows_at_least, rows_above, AreSettled, IsHigh, AreLow};

use crate::highest::few_highest;
use crate::reach::{Affected, is_at_least, reach};
use audit_types::{CountedRows, RowSet};

// How many cuts there are at most.
const MOST_CUTS: usize = 128;

/// Each row without a bound or with one that is at least the cut, and maybe others.
#[derive(Clone, Copy)]
pub(crate) struct HighRows {
    pub rows: RowSet,
    pub cut: i64,
}

fn all_rows(n: u16) -> RowSet
    requires some { 0 < n }
    requires at_most { n ≤ most_rows }
    ensures same_n { result.n ≡ n }
    ensures all { (r : ℕ) → r < n → has_row result.list r ≡ true }
{
    let mut rows = RowSet::new(n);
    rows.flip();
    rows
}

// Whether the bound of some row of the set is at least this number.
fn has_at_least(upper: &[Option<i64>], rows: &RowSet, cut: i64) -> bool
    requires within { rows.now.n ≤ length upper.now }
    ensures { IsTrue result → (r : ℕ) × (has_row rows.now.list r ≡ true) × (is_at_least cut (bound_at upper.now r) ≡ true) }
{
    // A set says of its n that no row is past it.
    let _ = rows.n();
    for row in rows.iter() {
        if is_at_least(cut, upper[row as usize]) {
            return true;
        }
    }
    false
}

impl HighRows {
    // What an answer over these rows does to them, if it isn't below the cut.
    fn reach(&self, upper: &[Option<i64>], rows: &RowSet, answer: i64) -> Affected
        requires within { rows.now.n ≤ length upper.now }
        requires high { IsHigh rows.now.n (bound_at upper.now) self.now }
        requires reaches { self.now.cut ≤ℤ answer }
        ensures extremes_n { result.extremes.n ≡ rows.now.n }
        ensures falling_n { result.falling.n ≡ rows.now.n }
        ensures extremes { result.extremes.list ≡ rows_at_least (bound_at upper.now) answer rows.now.list }
        ensures falling { result.falling.list ≡ rows_above (bound_at upper.now) answer rows.now.list }
        ensures settled { IsTrue result.settled → AreSettled (bound_at upper.now) answer result.extremes.list }
    {
        // A set says of its n that no row is past it.
        let _ = rows.n();
        let mut high = *rows;
        high.and_with(&self.rows);
        reach(upper, &high, answer)
    }

    // Whether few people stand behind the highest rows of the set, if the set has one of the high rows.
    fn few_highest(
        &self,
        upper: &[Option<i64>],
        rows: &RowSet,
        people: &CountedRows,
    ) -> Option<bool>
        requires within { rows.now.n ≤ length upper.now }
        requires high { IsHigh rows.now.n (bound_at upper.now) self.now }
        ensures { IfSome result (λ few. IsTrue few ↔ HasFewHighest people.now.people (bound_at upper.now) rows.now.list) }
    {
        // A set says of its n that no row is past it.
        let _ = rows.n();
        let mut high = *rows;
        high.and_with(&self.rows);
        if high.is_empty() || !has_at_least(upper, &high, self.cut) {
            return None;
        }
        Some(few_highest(upper, &high, people))
    }
}

/// What an answer over these rows does to them.
pub(crate) fn reach_high(
    high: &[HighRows],
    upper: &[Option<i64>],
    rows: &RowSet,
    answer: i64,
) -> Affected
    requires within { rows.now.n ≤ length upper.now }
    requires high { AllByRecursion (IsHigh rows.now.n (bound_at upper.now)) high.now }
    ensures extremes_n { result.extremes.n ≡ rows.now.n }
    ensures falling_n { result.falling.n ≡ rows.now.n }
    ensures extremes { result.extremes.list ≡ rows_at_least (bound_at upper.now) answer rows.now.list }
    ensures falling { result.falling.list ≡ rows_above (bound_at upper.now) answer rows.now.list }
    ensures settled { IsTrue result.settled → AreSettled (bound_at upper.now) answer result.extremes.list }
{
    for kept in high {
        if kept.cut <= answer {
            return kept.reach(upper, rows, answer);
        }
    }
    reach(upper, rows, answer)
}

/// Whether few people stand behind the rows of the set with its highest bound; a row without a bound stands above all.
pub(crate) fn few_highest_of(
    high: &[HighRows],
    upper: &[Option<i64>],
    rows: &RowSet,
    people: &CountedRows,
) -> bool
    requires within { rows.now.n ≤ length upper.now }
    requires high { AllByRecursion (IsHigh rows.now.n (bound_at upper.now)) high.now }
    ensures { IsTrue result ↔ HasFewHighest people.now.people (bound_at upper.now) rows.now.list }
{
    for kept in high {
        if let Some(few) = kept.few_highest(upper, rows, people) {
            return few;
        }
    }
    few_highest(upper, rows, people)
}

// Takes the rows of an answer from the high rows of a cut above it. The others are the rows that the answer's set lacks.
fn lower_one(high: &mut HighRows, others: &RowSet, answer: i64)
    requires same_n { high.old.rows.n ≡ others.now.n }
    ensures n { high.new.rows.n ≡ high.old.rows.n }
    ensures high { (bound : ℕ → Option ℤ) (rows : List ℕ) → others.now.list ≡ complement others.now.n rows → AreLow bound answer rows → IsHigh others.now.n bound high.old → IsHigh others.now.n bound high.new }
{
    if high.cut > answer {
        high.rows.and_with(others);
    }
}

// Takes the rows of a new answer from the high rows of each higher cut: their bounds are below it.
fn lower_high(high: &mut [HighRows], rows: &RowSet, answer: i64)
    requires { AllByRecursion (λ h. h.rows.n ≡ rows.now.n) high.old }
    ensures { (bound : ℕ → Option ℤ) → AreLow bound answer rows.now.list → AllByRecursion (IsHigh rows.now.n bound) high.old → AllByRecursion (IsHigh rows.now.n bound) high.new }
{
    let mut others = *rows;
    others.flip();
    for kept in high.iter_mut() {
        lower_one(kept, &others, answer);
    }
}

// Where a cut goes among the others, in descending order, unless it is one of them.
fn place_of(high: &[HighRows], cut: i64) -> Option<usize>
    ensures { IfSome result (λ place. place ≤ length high.now) }
{
    for (place, kept) in high.iter().enumerate() {
        if kept.cut == cut {
            return None;
        }
        if kept.cut < cut {
            return Some(place);
        }
    }
    Some(high.len())
}

// Keeps the high rows of one cut more. Without room or memory for it the others do.
fn insert_high(high: &mut Vec<HighRows>, upper: &[Option<i64>], n: u16, cut: i64)
    requires some { 0 < n }
    requires at_most { n ≤ most_rows }
    requires within { n ≤ length upper.now }
    requires high { AllByRecursion (IsHigh n (bound_at upper.now)) high.old.items }
    ensures { AllByRecursion (IsHigh n (bound_at upper.now)) high.new.items }
{
    if high.len() >= MOST_CUTS {
        return;
    }
    if let Some(place) = place_of(high, cut) {
        let rows = reach_high(high, upper, &all_rows(n), cut).extremes;
        let _ = high.insert(place, HighRows { rows, cut });
    }
}

/// Makes the high rows fit the bounds after a new answer, and keeps those of the answer as a cut.
pub(crate) fn renew_high(
    high: &mut Vec<HighRows>,
    upper: &[Option<i64>],
    affected: &Affected,
    rows: &RowSet,
    answer: i64,
)
    requires within { rows.now.n ≤ length upper.now }
    requires low { AreLow (bound_at upper.now) answer rows.now.list }
    requires high { AllByRecursion (IsHigh rows.now.n (bound_at upper.now)) high.old.items }
    ensures { AllByRecursion (IsHigh rows.now.n (bound_at upper.now)) high.new.items }
{
    if !affected.settled {
        lower_high(high, rows, answer);
    }
    insert_high(high, upper, rows.n(), answer);
}
