//! Upper bounds and extreme rows of the maxima that a history answers of a column.
ghost use Rattle.std.specs.Prelude.{◌≡◌, ◌<◌};
ghost use Rattle.audit_types.specs.Extremes.{least_of, upper_bound, extremes};
ghost use Rattle.audit_types.specs.History.{answers_of, answer_in};
ghost use Rattle.oracles.specs.Ranges.{AreOver, HaveRow};

use audit_types::{Answered, RowSet};

fn least(answer: i64, bound: Option<i64>) -> i64
    ensures { result ≡ least_of answer bound }
{
    match bound {
        Some(bound) => answer.min(bound),
        None => answer,
    }
}

/// The least answer among the sets of the column that hold the row.
pub fn upper_bound(history: &[Answered], column: u8, row: u16) -> Option<i64>
    requires { HaveRow row history.now }
    ensures { result ≡ upper_bound (answers_of column history.now) row }
{
    let mut bound = None;
    for record in history {
        if record.column == column && record.rows.has(row) {
            bound = Some(least(record.answer, bound));
        }
    }
    bound
}

/// The rows of a record whose bound is its answer.
pub fn extremes(history: &[Answered], answered: &Answered) -> RowSet
    requires { AreOver answered.now.rows.n history.now }
    ensures n { result.n ≡ answered.now.rows.n }
    ensures rows { result.list ≡ extremes (answers_of answered.now.column history.now) (answer_in answered.now) }
{
    let mut extremes = RowSet::new(answered.rows.n());
    for row in answered.rows.iter() {
        if upper_bound(history, answered.column, row) == Some(answered.answer) {
            extremes.add(row);
        }
    }
    extremes
}
