//! What agrees with answers, and which rows are extreme, by hand: over the table of six people whose answers the cases show.

ghost use Rattle.std.specs.Prelude.{◌≡◌, ◌<◌, ◌≤◌, length};
ghost use Rattle.audit_types.specs.Limits.{most_rows};

use crate::equality::same;
use audit_types::{Answered, Kind, RowSet};
use oracles::{agrees, extremes, upper_bound};

const SALARIES: [i64; 6] = [100, 200, 300, 400, 500, 600];

// Another table that gives the same sums over QA, over everybody, over those from 41 on, and over OPS.
const OTHER_SALARIES: [i64; 6] = [110, 190, 300, 400, 490, 610];

pub(crate) const EVERYBODY: [bool; 6] = [true; 6];

pub(crate) const QA: [bool; 6] = [true, true, false, false, false, false];

const OTHERS: [bool; 6] = [false, false, true, true, true, true];

pub(crate) const OPS: [bool; 6] = [false, false, true, true, false, false];

pub(crate) const FROM_41: [bool; 6] = [false, true, false, true, false, true];

pub(crate) const FROM_41_NOT_DEV: [bool; 6] = [false, true, false, true, false, false];

const FROM_30_TO_35: [bool; 6] = [true, false, true, false, false, false];

const SECOND: [bool; 6] = [false, true, false, false, false, false];

const NOBODY: [bool; 6] = [false; 6];

pub(crate) fn rows(members: &[bool]) -> RowSet
    requires some { 0 < length members.now }
    requires at_most { length members.now ≤ most_rows }
    ensures { result.n ≡ length members.now }
{
    let n = members.len() as u16;
    let mut rows = RowSet::new(n);
    for row in 0..n {
        if members[row as usize] {
            rows.add(row);
        }
    }
    rows
}

pub(crate) fn sum(members: &[bool], answer: i64) -> Answered
    requires some { 0 < length members.now }
    requires at_most { length members.now ≤ most_rows }
    ensures { result.rows.n ≡ length members.now }
{
    Answered {
        column: 0,
        rows: rows(members),
        answer,
    }
}

fn maximum(members: &[bool], answer: i64) -> Answered
    requires some { 0 < length members.now }
    requires at_most { length members.now ≤ most_rows }
    ensures { result.rows.n ≡ length members.now }
{
    Answered {
        column: 1,
        rows: rows(members),
        answer,
    }
}

#[test]
fn another_table_gives_the_same_answers_until_the_denied_one(rt: HostRuntime) {
    let answered = [
        sum(&QA, 300),
        sum(&EVERYBODY, 2100),
        sum(&FROM_41, 1200),
        sum(&OPS, 700),
    ];
    same(&rt, &agrees(Kind::Sum, &SALARIES, &answered, 0), &true);
    same(
        &rt,
        &agrees(Kind::Sum, &OTHER_SALARIES, &answered, 0),
        &true,
    );

    let denied = [sum(&FROM_41_NOT_DEV, 600)];
    same(&rt, &agrees(Kind::Sum, &SALARIES, &denied, 0), &true);
    same(&rt, &agrees(Kind::Sum, &OTHER_SALARIES, &denied, 0), &false);
    same(&rt, &agrees(Kind::Sum, &OTHER_SALARIES, &denied, 1), &true);
}

#[test]
fn an_answer_above_an_earlier_one_over_more_rows_has_no_extreme_row(rt: HostRuntime) {
    let answered = [maximum(&EVERYBODY, 9), maximum(&QA, 10)];
    same(&rt, &extremes(&answered, &answered[1]), &rows(&NOBODY));
}

#[test]
fn the_answer_8_would_leave_one_row_as_the_only_extreme_of_qa(rt: HostRuntime) {
    let answered = [
        maximum(&EVERYBODY, 9),
        maximum(&QA, 9),
        maximum(&OTHERS, 9),
        maximum(&FROM_30_TO_35, 8),
    ];
    same(&rt, &upper_bound(&answered, 1, 0), &Some(8));
    same(&rt, &upper_bound(&answered, 1, 1), &Some(9));
    same(&rt, &upper_bound(&answered, 0, 1), &None);
    same(&rt, &extremes(&answered, &answered[1]), &rows(&SECOND));
    same(
        &rt,
        &extremes(&answered, &answered[3]),
        &rows(&FROM_30_TO_35),
    );
}
