//! The canonical proof of a maximum.
ghost use Rattle.std.specs.Prelude.{◌≡◌, ◌≢◌, ◌<◌, ◌≤◌, ◌↔◌, ℕ, List, [], Some, IsTrue, All, IfOk, IfSome, IfNone, length};
ghost use Rattle.std.specs.List.{AllByRecursion};
ghost use Rattle.audit_types.specs.Rows.{IsLeast, complement};
ghost use Rattle.audit_types.specs.Headcount.{AreFew};
ghost use Rattle.audit_types.specs.Extremes.{least_of, upper_bound};
ghost use Rattle.audit_types.specs.Column.{IsOneOf, known_max, guarding};
ghost use Rattle.audit_types.specs.Extremes.{IsConsistent, extremes};
ghost use Rattle.audit_types.specs.History.{answers_of, answer_in};
ghost use Rattle.max_audit.specs.Laws.{LeavesFewPeople, HasBadCandidate};
ghost use Rattle.max_audit.specs.Witnesses.{highest, bound_or_zero};
ghost use Rattle.max_audit.specs.Candidates.{AreCandidates, IsNearRange};
ghost use Rattle.max_bounds.specs.Maxima.{and_answer};
ghost use Rattle.max_bounds.specs.Few.{HasFewPeople};
ghost use Rattle.denial_proof.specs.FewRows.{IsFirstName, IsFirstWith, IsLeastFew, IsLeastFewFound};
ghost use Rattle.denial_proof.specs.Outlook.{IsOutlook};
ghost use Rattle.denial_proof.specs.Canonical.{IsFirstAnswer, IsFewAt, IsMaxProof};

use crate::few_rows::FewRows;
use crate::outlook::Outlook;
use crate::proof_parts::{Heights, Proof};
use crate::reaching::{few_left, few_reaching};
use audit_types::{Answered, Asked, CountedRows, NoMemory, RowSet};
use max_audit::MaxColumn;
use max_audit::laws::others_are_free;
use max_bounds::Bounds;
use std::alloc::Global;

// An answer that leaves some answer extreme rows of few people, and the first such rows.
#[derive(Clone, Copy)]
struct Bad {
    answer: i128,
    few: FewRows,
}

// The first of rows so far and these.
fn first_of(first: Option<FewRows>, few: FewRows) -> FewRows
    ensures { IsFirstName first few result }
{
    match first {
        Some(first) if !few.comes_before(&first) => first,
        _ => few,
    }
}

// The first of rows so far and these, if there are some.
fn first_with(people: &CountedRows, first: Option<FewRows>, left: Option<RowSet>) -> Option<FewRows>
    ensures { IsFirstWith people.now.people first left result }
{
    match left {
        Some(left) => Some(first_of(first, FewRows::of(people, &left))),
        None => first,
    }
}

// The first extreme rows of few people that some answer has once the asked set has this answer.
fn least_few(
    bounds: &Bounds,
    people: &CountedRows,
    rows: &RowSet,
    others: &RowSet,
    answer: i128,
) -> Option<FewRows>
    requires same_n { rows.now.n ≡ bounds.now.n }
    requires people { people.now.n ≡ bounds.now.n }
    requires others { others.now.n ≡ bounds.now.n }
    requires complement { others.now.list ≡ complement others.now.n rows.now.list }
    ensures { IsLeastFewFound bounds.now.n people.now.people (and_answer bounds.now.answers rows.now.list answer) (and_answer bounds.now.answers rows.now.list answer) result }
{
    // A set says of itself that its rows are rows of the table.
    let _ = rows.n();
    let mut first = None;
    let pairs = bounds.pairs();
    for k in 0..pairs.len() {
        let pair = pairs.get(k);
        let left = few_left(
            bounds,
            people,
            others,
            answer,
            &pair.rows,
            pair.answer as i128,
        );
        first = first_with(people, first, left);
    }
    first_with(people, first, few_reaching(bounds, people, rows, answer))
}

// The first extreme rows of few people after this answer, if it is possible and leaves some.
fn few_after(
    bounds: &Bounds,
    people: &CountedRows,
    rows: &RowSet,
    others: &RowSet,
    outlook: &Outlook,
    answer: i128,
) -> Option<FewRows>
    requires same_n { rows.now.n ≡ bounds.now.n }
    requires some { rows.now.list ≢ [] }
    requires people { people.now.n ≡ bounds.now.n }
    requires others { others.now.n ≡ bounds.now.n }
    requires complement { others.now.list ≡ complement others.now.n rows.now.list }
    requires none_few { ¬ (HasFewPeople people.now.people bounds.now.answers) }
    requires outlook { IsOutlook bounds.now.answers people.now.people rows.now.list outlook.now }
    requires near { IsNearRange answer }
    ensures some { IfSome result (λ few. IsConsistent (and_answer bounds.now.answers rows.now.list answer) × IsLeastFew bounds.now.n people.now.people (and_answer bounds.now.answers rows.now.list answer) (and_answer bounds.now.answers rows.now.list answer) few) }
    ensures none { IfNone result (¬ (LeavesFewPeople (guarding (known_max bounds.now.n bounds.now.answers) people.now.people []) rows.now.list answer)) }
{
    // Counted rows say of themselves that nobody is few people: so an answer that passes is possible.
    let _ = people.n();
    if !outlook.may_leave_few(answer) {
        return None;
    }
    least_few(bounds, people, rows, others, answer)
}

// The least candidate that is possible and leaves few extreme rows.
fn first_answer(
    bounds: &Bounds,
    candidates: &[i128],
    people: &CountedRows,
    rows: &RowSet,
) -> Option<Bad>
    requires same_n { rows.now.n ≡ bounds.now.n }
    requires some { rows.now.list ≢ [] }
    requires people { people.now.n ≡ bounds.now.n }
    requires none_few { ¬ (HasFewPeople people.now.people bounds.now.answers) }
    requires candidates { AreCandidates bounds.now.answers candidates.now }
    requires near { All IsNearRange candidates.now }
    ensures first { IfSome result (λ bad. IsFirstAnswer (guarding (known_max bounds.now.n bounds.now.answers) people.now.people []) rows.now.list bad.answer) }
    ensures least { IfSome result (λ bad. IsLeastFew bounds.now.n people.now.people (and_answer bounds.now.answers rows.now.list bad.answer) (and_answer bounds.now.answers rows.now.list bad.answer) bad.few) }
    ensures none { IfNone result (¬ (HasBadCandidate (guarding (known_max bounds.now.n bounds.now.answers) people.now.people []) rows.now.list)) }
{
    let mut others = *rows;
    others.flip();
    let outlook = Outlook::new(bounds, people, rows, &others);
    for answer in candidates {
        if let Some(few) = few_after(bounds, people, rows, &others, &outlook, *answer) {
            return Some(Bad {
                answer: *answer,
                few,
            });
        }
    }
    None
}

fn or_zero(bound: Option<i64>) -> i128
    ensures { result ≡ bound_or_zero bound }
{
    match bound {
        Some(bound) => bound as i128,
        None => 0,
    }
}

fn least(answer: i128, bound: Option<i64>) -> i128
    ensures { result ≡ least_of answer bound }
{
    match bound {
        Some(bound) => answer.min(bound as i128),
        None => answer,
    }
}

// The bound of a row once the question has this answer, and 0 if it has none.
fn height(bounds: &Bounds, rows: &RowSet, answer: i128, row: u16) -> i128
    requires same_n { rows.now.n ≡ bounds.now.n }
    requires row { row < bounds.now.n }
    ensures { result ≡ bound_or_zero (upper_bound (and_answer bounds.now.answers rows.now.list answer) row) }
{
    let bound = bounds.upper(row);
    if rows.has(row) {
        least(answer, bound)
    } else {
        or_zero(bound)
    }
}

// Each row at its bound once the question has this answer.
fn heights(
    alloc: Global,
    bounds: &Bounds,
    rows: &RowSet,
    answer: i128,
) -> Result<Vec<i128>, NoMemory>
    requires same_n { rows.now.n ≡ bounds.now.n }
    ensures { IfOk result (λ list. list.items ≡ highest bounds.now.n (and_answer bounds.now.answers rows.now.list answer)) }
{
    let mut list = Vec::new(alloc);
    for row in 0..bounds.n() {
        list.push(height(bounds, rows, answer, row))?;
    }
    Ok(list)
}

// Whether a record is of the column, and has just these extreme rows once the asked set has another answer.
fn has_left(
    bounds: &Bounds,
    people: &CountedRows,
    others: &RowSet,
    column: u8,
    answer: i128,
    answered: &Answered,
    few: &RowSet,
) -> bool
    requires same_n { answered.now.rows.n ≡ bounds.now.n }
    requires others { others.now.n ≡ bounds.now.n }
    requires one { answered.now.column ≡ column → IsOneOf (answer_in answered.now) bounds.now.answers }
    requires few_n { few.now.n ≡ bounds.now.n }
    requires few { AreFew people.now.people [] few.now.list }
    ensures { (asked : List ℕ) → others.now.list ≡ complement others.now.n asked → IsTrue result ↔ ((answered.now.column ≡ column) × (extremes (and_answer bounds.now.answers asked answer) (answer_in answered.now) ≡ few.now.list)) }
{
    if answered.column != column {
        return false;
    }
    let value = answered.answer as i128;
    match few_left(bounds, people, others, answer, &answered.rows, value) {
        Some(left) => left.same(few),
        None => false,
    }
}

// The first record of the column that has just these extreme rows.
fn first_pair(
    bounds: &Bounds,
    people: &CountedRows,
    history: &[Answered],
    asked: &Asked,
    answer: i128,
    few: &RowSet,
) -> Option<u32>
    requires same_n { asked.now.rows.n ≡ bounds.now.n }
    requires history { length history.now ≤ 65536 }
    requires records { AllByRecursion (λ r. r.rows.n ≡ bounds.now.n) history.now }
    requires answers { bounds.now.answers ≡ answers_of asked.now.column history.now }
    requires few_n { few.now.n ≡ bounds.now.n }
    requires few { AreFew people.now.people [] few.now.list }
    ensures { IsLeast (IsFewAt history.now asked.now answer few.now.list) result }
{
    let mut others = asked.rows;
    others.flip();
    for (place, answered) in history.iter().enumerate() {
        if has_left(bounds, people, &others, asked.column, answer, answered, few) {
            return Some(place as u32);
        }
    }
    None
}

// The canonical proof, from the answer that leaves few extreme rows.
fn prove_few(
    alloc: Global,
    maxima: &MaxColumn,
    people: &CountedRows,
    history: &[Answered],
    asked: &Asked,
    bad: &Bad,
) -> Result<Proof, NoMemory>
    requires same_n { asked.now.rows.n ≡ maxima.now.n }
    requires some { asked.now.rows.list ≢ [] }
    requires few { length history.now ≤ 65536 }
    requires records { AllByRecursion (λ r. r.rows.n ≡ maxima.now.n) history.now }
    requires answers { maxima.now.answers ≡ answers_of asked.now.column history.now }
    requires people { people.now.n ≡ maxima.now.n }
    requires first { IsFirstAnswer (guarding (known_max maxima.now.n maxima.now.answers) people.now.people []) asked.now.rows.list bad.now.answer }
    requires least { IsLeastFew maxima.now.n people.now.people (and_answer maxima.now.answers asked.now.rows.list bad.now.answer) (and_answer maxima.now.answers asked.now.rows.list bad.now.answer) bad.now.few }
    ensures { IfOk result (IsMaxProof maxima.now.n people.now.people history.now asked.now) }
{
    others_are_free();
    // Counted rows say of themselves that these are people behind so many rows, and a set that its rows are rows of the table.
    let _ = people.n();
    let n = asked.rows.n();
    let bounds = maxima.bounds();
    let list = heights(alloc, bounds, &asked.rows, bad.answer)?;
    let Some(few) = bad.few.rows(n) else {
        unreachable!()
    };
    let pair = first_pair(bounds, people, history, asked, bad.answer, &few);
    Ok(Proof::Max {
        answer: bad.answer,
        few: bad.few,
        pair,
        high: Heights { list },
    })
}

/// The canonical proof that a maximum is dangerous.
pub(crate) fn prove_max(
    alloc: Global,
    maxima: &MaxColumn,
    candidates: &[i128],
    people: &CountedRows,
    history: &[Answered],
    asked: &Asked,
) -> Result<Proof, NoMemory>
    requires same_n { asked.now.rows.n ≡ maxima.now.n }
    requires some { asked.now.rows.list ≢ [] }
    requires few { length history.now ≤ 65536 }
    requires records { AllByRecursion (λ r. r.rows.n ≡ maxima.now.n) history.now }
    requires answers { maxima.now.answers ≡ answers_of asked.now.column history.now }
    requires candidates { AreCandidates maxima.now.answers candidates.now }
    requires near { All IsNearRange candidates.now }
    requires people { people.now.n ≡ maxima.now.n }
    requires none_few { ¬ (HasFewPeople people.now.people maxima.now.answers) }
    requires dangerous { HasBadCandidate (guarding (known_max maxima.now.n maxima.now.answers) people.now.people []) asked.now.rows.list }
    ensures { IfOk result (IsMaxProof maxima.now.n people.now.people history.now asked.now) }
{
    match first_answer(maxima.bounds(), candidates, people, &asked.rows) {
        Some(bad) => prove_few(alloc, maxima, people, history, asked, &bad),
        None => unreachable!(),
    }
}
