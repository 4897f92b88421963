//! Which answers to a question could leave few extreme rows, told from the extreme rows of the answers before it.
ghost use Rattle.std.specs.Prelude.{◌≡◌, ◌↔◌, ℕ, List, [], IsTrue};
ghost use Rattle.audit_types.specs.Rows.{complement};
ghost use Rattle.audit_types.specs.Column.{IsOneOf};
ghost use Rattle.audit_types.specs.Headcount.{AreFew};
ghost use Rattle.audit_types.specs.Extremes.{extremes, upper_bound};
ghost use Rattle.max_bounds.specs.Kept.{rows_at_least};
ghost use Rattle.max_bounds.specs.Maxima.{answer_of};
ghost use Rattle.max_bounds.specs.Outside.{outside};
ghost use Rattle.denial_proof.specs.Outlook.{IsLeft, HoldsAfter, ReachesAfter, IsHolding, IsReach, IsOutlook, MayLeaveFew, reach_of};

use crate::reaching::few_reaching;
use audit_types::{CountedRows, RowSet};
use max_bounds::{AnsweredMax, Bounds};

// A number above all candidates, and one below them.
const ABOVE_ALL: i128 = 1 << 64;

const BELOW_ALL: i128 = -(1 << 64);

// What is left of an answer's extreme rows outside a set: no row, rows of few people, or of more.
#[derive(Clone, Copy)]
pub(crate) enum Left {
    Nothing,
    Few,
    More,
}

// What is left of the extreme rows of an answer outside the asked set. `others` are the rows outside it.
fn left_outside(bounds: &Bounds, people: &CountedRows, others: &RowSet, pair: &AnsweredMax) -> Left
    requires pair { pair.now.rows.n ≡ bounds.now.n }
    requires others { others.now.n ≡ bounds.now.n }
    ensures { (asked : List ℕ) → others.now.list ≡ complement others.now.n asked → IsOneOf (answer_of pair.now) bounds.now.answers → IsLeft people.now.people (outside asked (extremes bounds.now.answers (answer_of pair.now))) result }
{
    // A set says of itself that its rows are rows of the table.
    let _ = pair.rows.n();
    let mut outside = pair.rows;
    outside.and_with(others);
    match few_reaching(bounds, people, &outside, pair.answer as i128) {
        None => Left::More,
        Some(few) => {
            if few.is_empty() {
                Left::Nothing
            } else {
                Left::Few
            }
        }
    }
}

// The answers that a set takes extreme rows from.
#[derive(Clone, Copy)]
pub(crate) struct Holding {
    // The greatest answer of which no extreme row is outside.
    pub whole: i128,
    // The greatest of which rows of few people are.
    pub stranded: i128,
}

impl Holding {
    // With one answer more, by what is left of its extreme rows.
    fn and(self, left: Left, answer: i64) -> Holding
        ensures { HoldsAfter self left answer result }
    {
        let answer = answer as i128;
        match left {
            Left::Nothing => Holding {
                whole: self.whole.max(answer),
                stranded: self.stranded.max(answer),
            },
            Left::Few => Holding {
                whole: self.whole,
                stranded: self.stranded.max(answer),
            },
            Left::More => self,
        }
    }
}

// What the asked set takes from all answers. `others` are the rows outside it.
fn holding_of(bounds: &Bounds, people: &CountedRows, others: &RowSet) -> Holding
    requires others { others.now.n ≡ bounds.now.n }
    ensures { (asked : List ℕ) → others.now.list ≡ complement others.now.n asked → IsHolding bounds.now.answers people.now.people asked bounds.now.answers result }
{
    // Counted rows say of themselves that nobody is few people.
    let _ = people.n();
    let mut holding = Holding {
        whole: BELOW_ALL,
        stranded: BELOW_ALL,
    };
    let pairs = bounds.pairs();
    for k in 0..pairs.len() {
        let pair = pairs.get(k);
        let left = left_outside(bounds, people, others, &pair);
        holding = holding.and(left, pair.answer);
    }
    holding
}

// How high a row with this bound can be.
fn reach_of(bound: Option<i64>) -> i128
    ensures { result ≡ reach_of bound }
{
    match bound {
        Some(bound) => bound as i128,
        None => ABOVE_ALL,
    }
}

// How high a row of a set can be, and how high rows of more than few people.
#[derive(Clone, Copy)]
pub(crate) struct Reach {
    pub top: i128,
    pub many: i128,
}

impl Reach {
    // With one row more, which can be this high, and whether more than few can.
    fn and(self, height: i128, are_many: bool) -> Reach
        ensures { ReachesAfter self height are_many result }
    {
        Reach {
            top: self.top.max(height),
            many: if are_many { height } else { self.many },
        }
    }
}

// Whether a height is above that of many so far, and more than few rows of the set can be that high.
fn are_many(
    bounds: &Bounds,
    people: &CountedRows,
    rows: &RowSet,
    height: i128,
    so_far: i128,
) -> bool
    requires same_n { rows.now.n ≡ bounds.now.n }
    ensures { IsTrue result → ¬ (AreFew people.now.people [] (rows_at_least (upper_bound bounds.now.answers) height rows.now.list)) }
{
    height > so_far && few_reaching(bounds, people, rows, height).is_none()
}

// How high the rows of a set can be.
fn reach_in(bounds: &Bounds, people: &CountedRows, rows: &RowSet) -> Reach
    requires same_n { rows.now.n ≡ bounds.now.n }
    ensures { IsReach bounds.now.answers people.now.people rows.now.list result }
{
    // A set says of itself that its rows are rows of the table.
    let _ = rows.n();
    let mut reach = Reach {
        top: BELOW_ALL,
        many: BELOW_ALL,
    };
    for row in rows.iter() {
        let height = reach_of(bounds.upper(row));
        let many = are_many(bounds, people, rows, height, reach.many);
        reach = reach.and(height, many);
    }
    reach
}

/// What the answers before a question say of each answer to it.
#[derive(Clone, Copy)]
pub(crate) struct Outlook {
    holding: Holding,
    reach: Reach,
}

impl Outlook {
    /// The outlook of a question on these rows. `others` are the rows outside them.
    pub(crate) fn new(
        bounds: &Bounds,
        people: &CountedRows,
        rows: &RowSet,
        others: &RowSet,
    ) -> Outlook
        requires same_n { rows.now.n ≡ bounds.now.n }
        requires others { others.now.n ≡ bounds.now.n }
        requires complement { others.now.list ≡ complement others.now.n rows.now.list }
        ensures { IsOutlook bounds.now.answers people.now.people rows.now.list result }
    {
        Outlook {
            holding: holding_of(bounds, people, others),
            reach: reach_in(bounds, people, rows),
        }
    }

    /// Whether this answer may be possible and leave some answer extreme rows of few people, where no answer has such before.
    pub(crate) fn may_leave_few(&self, answer: i128) -> bool
        ensures { IsTrue result ↔ MayLeaveFew self.now answer }
    {
        if answer < self.holding.whole || self.reach.top < answer {
            return false;
        }
        answer < self.holding.stranded || self.reach.many < answer
    }
}
