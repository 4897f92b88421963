//! The rows of a set that can reach a number, if few people stand behind them.
ghost use Rattle.std.specs.Prelude.{◌≡◌, ◌+◌, ◌<◌, ℕ, List};
ghost use Rattle.audit_types.specs.Rows.{complement};
ghost use Rattle.audit_types.specs.Headcount.{count_at};
ghost use Rattle.audit_types.specs.Column.{IsOneOf};
ghost use Rattle.audit_types.specs.Extremes.{upper_bound, extremes};
ghost use Rattle.max_bounds.specs.Kept.{is_at_least, rows_at_least};
ghost use Rattle.max_bounds.specs.Maxima.{and_answer};
ghost use Rattle.denial_proof.specs.FewRows.{AreFoundFew};

use audit_types::{Askers, CountedRows, RowSet};
use max_bounds::Bounds;

// How many people stand behind a row.
fn count_of(people: &CountedRows, row: u16) -> u64
    ensures { result ≡ count_at people.now.people.counts row }
{
    match people.counts().get(row as usize) {
        Some(count) => *count,
        None => 1,
    }
}

// The least number of people that aren't few.
fn many(people: &CountedRows) -> u64
    ensures exact { result ≡ people.now.people.fewest + people.now.people.own }
    ensures some { 0 < result }
{
    // Counted rows say of themselves that two people at least may be told of together.
    let _ = people.n();
    let known = match people.askers() {
        Askers::Outside => 0,
        Askers::Inside => 1,
    };
    people.fewest() as u64 + known
}

// Whether a row with this bound can reach a number: a row without one can reach each.
fn reaches(bound: Option<i64>, value: i128) -> bool
    ensures { result ≡ is_at_least value bound }
{
    match bound {
        Some(bound) => bound as i128 >= value,
        None => true,
    }
}

/// The rows of a set that can reach a number by the answers so far, if few people stand behind them. It is a step for each row until
/// they are many.
pub(crate) fn few_reaching(
    bounds: &Bounds,
    people: &CountedRows,
    rows: &RowSet,
    value: i128,
) -> Option<RowSet>
    requires same_n { rows.now.n ≡ bounds.now.n }
    ensures { AreFoundFew bounds.now.n people.now.people (rows_at_least (upper_bound bounds.now.answers) value rows.now.list) result }
{
    // A set says of itself that its rows are rows of the table.
    let mut few = RowSet::new(rows.n());
    let mut left = many(people);
    for row in rows.iter() {
        if reaches(bounds.upper(row), value) {
            let count = count_of(people, row);
            if left <= count {
                return None;
            }
            left -= count;
            few.add(row);
        }
    }
    Some(few)
}

/// The extreme rows of an answer once the asked set has another answer, if few people stand behind them. `others` are the rows outside the
/// asked set.
pub(crate) fn few_left(
    bounds: &Bounds,
    people: &CountedRows,
    others: &RowSet,
    answer: i128,
    rows: &RowSet,
    value: i128,
) -> Option<RowSet>
    requires same_n { rows.now.n ≡ bounds.now.n }
    requires others { others.now.n ≡ bounds.now.n }
    ensures { (asked : List ℕ) → others.now.list ≡ complement others.now.n asked → IsOneOf (record { rows = rows.now.list; value = value }) bounds.now.answers → AreFoundFew bounds.now.n people.now.people (extremes (and_answer bounds.now.answers asked answer) (record { rows = rows.now.list; value = value })) result }
{
    // A set says of itself that its rows are rows of the table.
    let _ = rows.n();
    let mut kept = *rows;
    if answer < value {
        kept.and_with(others);
    }
    few_reaching(bounds, people, &kept, value)
}
