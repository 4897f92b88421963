//! The check of a certificate, by hand: the one that docs/FORMATS.md shows of the six people, and others that say too much.
ghost use Rattle.std.specs.Prelude.{◌≡◌, All, IsTrue};
ghost use Rattle.audit_types.specs.Shapes.{IsShape};
ghost use Rattle.audit_types.specs.History.{FitsShape};

use crate::definitions::{EVERYBODY, FROM_41, FROM_41_NOT_DEV, OPS, QA, rows, sum};
use crate::equality::same;
use audit_types::{
    Answered, Asked, Askers, CountedRows, Guard, MOST_REACH, MOST_WIDTH, RowSet, Shape,
};
use denial_proof::{Proof, Target, Term, Terms, check_proof};
use std::alloc::{AllocError, Global};

// Six people and a column of sums.
fn shape() -> Shape
    ensures valid { IsShape result }
{
    Shape {
        rows: 6,
        kinds: [1, 0, 0, 0, 0, 0, 0, 0],
    }
}

fn fits(shape: &Shape, column: u8, rows: &RowSet) -> bool
    ensures { IsTrue result → FitsShape shape.now column rows.now }
{
    // A set says of itself that its rows are rows of the table.
    rows.n() == shape.rows && column < shape.columns() && !rows.is_empty()
}

fn all_fit(shape: &Shape, records: &[Answered]) -> bool
    ensures { IsTrue result → All (λ r. FitsShape shape.now r.column r.rows) records.now }
{
    records
        .iter()
        .all(|record| fits(shape, record.column, &record.rows))
}

// The number of a row, so many times, by the four records and the asked set.
fn certificate(
    alloc: Global,
    target: Target,
    times: i128,
    by: [i128; 4],
    asked: i128,
) -> Result<Proof, AllocError> {
    let mut list = Vec::new(alloc);
    for place in 0..4 {
        list.push(Term {
            place: place as u32,
            times: by[place],
        })?;
    }
    Ok(Proof::Sum {
        target,
        share: None,
        times,
        terms: Terms { list },
        asked,
    })
}

// Whether this shows that the sum over the two who are 41 or older and not of DEV is dangerous, after the sums over QA, over everybody,
// over those from 41 on and over OPS. None if a question doesn't fit the table.
fn shows(alloc: Global, proof: &Proof) -> Result<Option<bool>, AllocError> {
    let shape = shape();
    let history = [
        sum(&QA, 300),
        sum(&EVERYBODY, 2100),
        sum(&FROM_41, 1200),
        sum(&OPS, 700),
    ];
    let asked = Asked {
        column: 0,
        rows: rows(&FROM_41_NOT_DEV),
    };
    if !all_fit(&shape, &history) || !fits(&shape, asked.column, &asked.rows) {
        return Ok(None);
    }
    let people = CountedRows::new(6, Vec::new(alloc), 2, Askers::Outside);
    let guard = Guard::new(Vec::new(alloc), people, MOST_WIDTH, MOST_REACH);
    Ok(Some(check_proof(&shape, &history, &guard, &asked, proof)))
}

#[test]
fn a_certificate_is_taken_as_it_adds_up(rt: HostRuntime) {
    let alloc = rt.alloc();
    let four = certificate(alloc, Target::Row(4), 1, [-1, 1, -1, -1], 1);
    let proof = four.expect(&rt, "memory");
    let shown = shows(alloc, &proof).expect(&rt, "memory");
    same(&rt, &shown, &Some(true));

    let twice = certificate(alloc, Target::Row(4), 2, [-2, 2, -2, -2], 2);
    let proof = twice.expect(&rt, "memory");
    let shown = shows(alloc, &proof).expect(&rt, "memory");
    same(&rt, &shown, &Some(true));
}

#[test]
fn a_certificate_of_another_row_or_of_nothing_is_not_taken(rt: HostRuntime) {
    let alloc = rt.alloc();
    let other = certificate(alloc, Target::Row(5), 1, [-1, 1, -1, -1], 1);
    let proof = other.expect(&rt, "memory");
    let shown = shows(alloc, &proof).expect(&rt, "memory");
    same(&rt, &shown, &Some(false));

    let nothing = certificate(alloc, Target::Row(4), 0, [0, 0, 0, 0], 0);
    let proof = nothing.expect(&rt, "memory");
    let shown = shows(alloc, &proof).expect(&rt, "memory");
    same(&rt, &shown, &Some(false));
}
