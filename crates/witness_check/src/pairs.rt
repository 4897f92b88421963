//! The check of a pair of lists for a column of maxima.
ghost use Rattle.std.specs.Prelude.{◌≡◌, ◌↔◌, ◌<◌, ◌≤◌, IsTrue, length};
ghost use Rattle.std.specs.List.{AllByRecursion};
ghost use Rattle.audit_types.specs.Column.{known_max};
ghost use Rattle.audit_types.specs.History.{answers_of, answer_in};
ghost use Rattle.witness_check.specs.Pairs.{ShowsFree, IsAnswerOf, greater_of, greatest_of};

use audit_types::{Answered, RowSet};

fn greater(greatest: Option<i128>, number: i128) -> i128
    ensures { result ≡ greater_of greatest number }
{
    match greatest {
        Some(greatest) => greatest.max(number),
        None => number,
    }
}

// The greatest number over a set, if it has a row.
fn greatest(numbers: &[i128], rows: &RowSet) -> Option<i128>
    requires within { rows.now.n ≤ length numbers.now }
    ensures exact { result ≡ greatest_of numbers.now rows.now.list }
{
    let _ = rows.n();
    let mut greatest = None;
    for row in rows.iter() {
        greatest = Some(greater(greatest, numbers[row as usize]));
    }
    greatest
}

fn is_answer(numbers: &[i128], answered: &Answered) -> bool
    requires within { answered.now.rows.n ≤ length numbers.now }
    ensures exact { IsTrue result ↔ IsAnswerOf numbers.now (answer_in answered.now) }
{
    greatest(numbers, &answered.rows) == Some(answered.answer as i128)
}

// Whether the numbers give each answer of the column.
fn gives_answers(column: u8, list: &[Answered], numbers: &[i128]) -> bool
    requires within { AllByRecursion (λ r. r.rows.n ≤ length numbers.now) list.now }
    ensures exact { IsTrue result ↔ AllByRecursion (IsAnswerOf numbers.now) (answers_of column list.now) }
{
    for answered in list {
        if answered.column == column && !is_answer(numbers, answered) {
            return false;
        }
    }
    true
}

/// Whether both lists have a number for each of the n rows and give every answer of this column of maxima, each over a
/// set that isn't empty, and differ at the row. It takes no memory.
pub fn check_pair(n: u16, column: u8, list: &[Answered], lo: &[i128], hi: &[i128], row: u16) -> bool
    requires same_n { AllByRecursion (λ r. r.rows.n ≡ n) list.now }
    requires row { row < n }
    ensures exact { IsTrue result ↔ ShowsFree (known_max n (answers_of column list.now)) row lo.now hi.now }
{
    lo.len() == n as usize
        && hi.len() == n as usize
        && lo[row as usize] != hi[row as usize]
        && gives_answers(column, list, lo)
        && gives_answers(column, list, hi)
}
