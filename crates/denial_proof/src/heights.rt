//! Whether a list of numbers gives the answers of a column of maxima.
ghost use Rattle.std.specs.Prelude.{◌≡◌, ◌≢◌, ◌↔◌, ◌≤◌, [], IsTrue, length};
ghost use Rattle.std.specs.List.{AllByRecursion};
ghost use Rattle.audit_types.specs.Truth.{greatest_over};
ghost use Rattle.audit_types.specs.Column.{Agrees, known_max};
ghost use Rattle.audit_types.specs.History.{answers_of, answer_in};
ghost use Rattle.denial_proof.specs.Lone.{IsGreatest};
ghost use Rattle.denial_proof.specs.Certificates.{answers_after};

use audit_types::{Answered, Asked, RowSet};

// The greatest number over a set.
fn greatest_over(numbers: &[i128], rows: &RowSet) -> i128
    requires within { rows.now.n ≤ length numbers.now }
    requires some { rows.now.list ≢ [] }
    ensures { result ≡ greatest_over numbers.now rows.now.list }
{
    // A set says of itself that its rows are rows of the table.
    let _ = rows.n();
    let mut left = rows.iter();
    let Some(first) = left.next() else {
        unreachable!()
    };
    let mut greatest = numbers[first as usize];
    for row in left {
        greatest = greatest.max(numbers[row as usize]);
    }
    greatest
}

fn gives_answer(numbers: &[i128], answered: &Answered) -> bool
    requires within { answered.now.rows.n ≤ length numbers.now }
    requires some { answered.now.rows.list ≢ [] }
    ensures { IsTrue result ↔ IsGreatest numbers.now (answer_in answered.now) }
{
    greatest_over(numbers, &answered.rows) == answered.answer as i128
}

// Whether the numbers give each answer of the column.
fn gives_answers(column: u8, history: &[Answered], numbers: &[i128]) -> bool
    requires within { AllByRecursion (λ r. r.rows.n ≤ length numbers.now) history.now }
    requires some { AllByRecursion (λ r. r.rows.list ≢ []) history.now }
    ensures { IsTrue result ↔ AllByRecursion (IsGreatest numbers.now) (answers_of column history.now) }
{
    for record in history {
        if record.column == column && !gives_answer(numbers, record) {
            return false;
        }
    }
    true
}

/// Whether the numbers give each answer of the column, and this one to the question.
pub(crate) fn gives_all(
    n: u16,
    history: &[Answered],
    asked: &Asked,
    answer: i128,
    numbers: &[i128],
) -> bool
    requires same_n { AllByRecursion (λ r. r.rows.n ≡ n) history.now }
    requires some { AllByRecursion (λ r. r.rows.list ≢ []) history.now }
    requires asked { asked.now.rows.n ≡ n }
    requires some_asked { asked.now.rows.list ≢ [] }
    ensures { IsTrue result ↔ Agrees (known_max n (answers_after history.now asked.now answer)) numbers.now }
{
    if numbers.len() != n as usize {
        return false;
    }
    gives_answers(asked.column, history, numbers) && greatest_over(numbers, &asked.rows) == answer
}
