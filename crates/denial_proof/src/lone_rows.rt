//! The check of a proof for a column of maxima.
ghost use Rattle.std.specs.Prelude.{◌≡◌, ◌≢◌, ◌↔◌, ℕ, ◌<◌, true, false, [], IsTrue, IfSome, IfNone};
ghost use Rattle.std.specs.List.{AllByRecursion};
ghost use Rattle.audit_types.specs.Rows.{has_row};
ghost use Rattle.audit_types.specs.Headcount.{AreFew};
ghost use Rattle.audit_types.specs.Column.{Answer, IsOneOf, known_max};
ghost use Rattle.denial_proof.specs.FewRows.{IsBeside};
ghost use Rattle.denial_proof.specs.Lone.{HoldsBelow, RecordHoldsBelow, IsHeldBelow, ShowsLone};
ghost use Rattle.denial_proof.specs.Certificates.{IsPair, answers_after, ShowsRow};

use crate::few_rows::FewRows;
use crate::heights::gives_all;
use audit_types::{Answered, Asked, CountedRows, RowSet};
use max_bounds::are_few;

// A set of rows and its answer, which may be one beyond 64 bits.
#[derive(Clone, Copy)]
struct Pair {
    rows: RowSet,
    value: i128,
}

// The pair at this place: a record of the column, or the asked set with its answer if there is no place.
fn pair_at(
    n: u16,
    history: &[Answered],
    asked: &Asked,
    answer: i128,
    place: Option<u32>,
) -> Option<Pair>
    requires same_n { AllByRecursion (λ r. r.rows.n ≡ n) history.now }
    requires asked { asked.now.rows.n ≡ n }
    ensures none { IfNone result ((pair : Answer) → ¬ (IsPair history.now asked.now answer place pair)) }
    ensures pair { IfSome result (λ found. IsPair history.now asked.now answer place (record { rows = found.rows.list; value = found.value })) }
    ensures same_n { IfSome result (λ found. found.rows.n ≡ n) }
{
    let Some(place) = place else {
        return Some(Pair {
            rows: asked.rows,
            value: answer,
        });
    };
    let record = history.get(place as usize)?;
    if record.column != asked.column {
        return None;
    }
    Some(Pair {
        rows: record.rows,
        value: record.answer as i128,
    })
}

/// Whether the set holds a row, which may be one beyond the table.
pub(crate) fn holds(rows: &RowSet, row: u16) -> bool
    ensures { IsTrue result ↔ (has_row rows.now.list row ≡ true) }
{
    if rows.n() <= row {
        return false;
    }
    rows.has(row)
}

// Whether the set holds these rows.
fn holds_all(set: &RowSet, rows: &RowSet) -> bool
    ensures { IsTrue result ↔ ((r : ℕ) → has_row rows.now.list r ≡ true → has_row set.now.list r ≡ true) }
{
    for row in rows.iter() {
        if !holds(set, row) {
            return false;
        }
    }
    true
}

// Whether an answer is over a set that holds the row, and below the value.
fn holds_below(rows: &RowSet, answer: i128, value: i128, row: u16) -> bool
    requires within { row < rows.now.n }
    ensures { IsTrue result ↔ HoldsBelow value row (record { rows = rows.now.list; value = answer }) }
{
    answer < value && rows.has(row)
}

// Whether a record is of the column, and its answer such a one.
fn record_holds_below(answered: &Answered, column: u8, value: i128, row: u16) -> bool
    requires within { row < answered.now.rows.n }
    ensures { IsTrue result ↔ RecordHoldsBelow column value row answered.now }
{
    answered.column == column && holds_below(&answered.rows, answered.answer as i128, value, row)
}

// Whether a lower answer is over a set that holds the row.
fn is_held_below(
    n: u16,
    history: &[Answered],
    asked: &Asked,
    answer: i128,
    value: i128,
    row: u16,
) -> bool
    requires row { row < n }
    requires same_n { AllByRecursion (λ r. r.rows.n ≡ n) history.now }
    requires asked { asked.now.rows.n ≡ n }
    ensures { IsTrue result ↔ IsHeldBelow (answers_after history.now asked.now answer) value row }
{
    for record in history {
        if record_holds_below(record, asked.column, value, row) {
            return true;
        }
    }
    holds_below(&asked.rows, answer, value, row)
}

// Whether a row of the pair's set is one of these, or held below the pair's answer.
fn is_among_or_held(
    n: u16,
    history: &[Answered],
    asked: &Asked,
    answer: i128,
    pair: &Pair,
    rows: &RowSet,
    row: u16,
) -> bool
    requires row { row < n }
    requires same_n { AllByRecursion (λ r. r.rows.n ≡ n) history.now }
    requires asked { asked.now.rows.n ≡ n }
    requires pair { pair.now.rows.n ≡ n }
    requires rows { rows.now.n ≡ n }
    ensures { IsTrue result ↔ (has_row pair.now.rows.list row ≡ true → has_row rows.now.list row ≡ false → IsHeldBelow (answers_after history.now asked.now answer) pair.now.value row) }
{
    !pair.rows.has(row)
        || rows.has(row)
        || is_held_below(n, history, asked, answer, pair.value, row)
}

// Whether each row of the pair's set but these is held below the pair's answer.
fn others_are_held_below(
    n: u16,
    history: &[Answered],
    asked: &Asked,
    answer: i128,
    pair: &Pair,
    rows: &RowSet,
) -> bool
    requires same_n { AllByRecursion (λ r. r.rows.n ≡ n) history.now }
    requires asked { asked.now.rows.n ≡ n }
    requires pair { pair.now.rows.n ≡ n }
    requires rows { rows.now.n ≡ n }
    ensures { IsTrue result ↔ ((q : ℕ) → has_row pair.now.rows.list q ≡ true → has_row rows.now.list q ≡ false → IsHeldBelow (answers_after history.now asked.now answer) pair.now.value q) }
{
    // A set says of itself that its rows are rows of the table.
    let _ = pair.rows.n();
    for row in 0..n {
        if !is_among_or_held(n, history, asked, answer, pair, rows, row) {
            return false;
        }
    }
    true
}

// Whether `high` gives all answers and this one, and the pair's set holds these rows, and every other row of it is held below its answer.
fn shows_lone(
    n: u16,
    history: &[Answered],
    asked: &Asked,
    answer: i128,
    pair: &Pair,
    rows: &RowSet,
    high: &[i128],
) -> bool
    requires same_n { AllByRecursion (λ r. r.rows.n ≡ n) history.now }
    requires some { AllByRecursion (λ r. r.rows.list ≢ []) history.now }
    requires asked { asked.now.rows.n ≡ n }
    requires some_asked { asked.now.rows.list ≢ [] }
    requires pair { pair.now.rows.n ≡ n }
    requires rows { rows.now.n ≡ n }
    requires among { IsOneOf (record { rows = pair.now.rows.list; value = pair.now.value }) (answers_after history.now asked.now answer) }
    ensures { IsTrue result ↔ ShowsLone (known_max n (answers_after history.now asked.now answer)) (record { rows = pair.now.rows.list; value = pair.now.value }) rows.now.list high.now }
{
    if !holds_all(&pair.rows, rows) {
        return false;
    }
    gives_all(n, history, asked, answer, high)
        && others_are_held_below(n, history, asked, answer, pair, rows)
}

// Whether so few people stand behind these rows, and a row that is named as an asker's own is one that she may know beside them.
fn are_guarded(people: &CountedRows, few: &FewRows, rows: &RowSet) -> bool
    ensures { IsTrue result ↔ (AreFew people.now.people [] rows.now.list × IsBeside people.now.people few.now) }
{
    are_few(rows, people) && few.is_beside(people)
}

/// Whether the named rows are of few people, `high` gives all answers and this one, and every other row of the pair's set is held below the
/// pair's answer.
pub(crate) fn shows_row(
    n: u16,
    people: &CountedRows,
    history: &[Answered],
    asked: &Asked,
    answer: i128,
    few: &FewRows,
    place: Option<u32>,
    high: &[i128],
) -> bool
    requires same_n { AllByRecursion (λ r. r.rows.n ≡ n) history.now }
    requires some { AllByRecursion (λ r. r.rows.list ≢ []) history.now }
    requires asked { asked.now.rows.n ≡ n }
    requires some_asked { asked.now.rows.list ≢ [] }
    ensures { IsTrue result ↔ ShowsRow n people.now.people history.now asked.now answer few.now place high.now }
{
    // A set says of itself that its table has rows.
    let _ = asked.rows.n();
    let Some(rows) = few.rows(n) else {
        return false;
    };
    if !are_guarded(people, few, &rows) {
        return false;
    }
    match pair_at(n, history, asked, answer, place) {
        Some(pair) => shows_lone(n, history, asked, answer, &pair, &rows, high),
        None => false,
    }
}
