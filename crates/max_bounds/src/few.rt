//! Sets of extreme rows of which a question's set leaves few people.
ghost use Rattle.std.specs.Prelude.{◌≡◌, ◌↔◌, ◌+◌, ◌<◌, ℕ, List, length, IsTrue};
ghost use Rattle.audit_types.specs.Rows.{complement};
ghost use Rattle.max_bounds.specs.Maxima.{answers_of, pair_at};
ghost use Rattle.max_bounds.specs.Outside.{outside};
ghost use Rattle.max_bounds.specs.Kept.{Descend};
ghost use Rattle.max_bounds.specs.Marks.{AreMarked};
ghost use Rattle.max_bounds.specs.Few.{HasNearlyHeld, IsLeft};

use crate::answered_maxima::AnsweredMaxima;
use crate::marks::{Marks, lacking_of};
use crate::people::{are_fewer, enough};
use crate::unshown::next_maybe_few;
use crate::within::has_within;
use audit_types::{CountedRows, RowSet};

/// What of a set is left outside another: no row, rows of few people, or rows of enough.
#[derive(Clone, Copy)]
pub(crate) enum Left {
    Nothing,
    Few,
    Enough,
}

// What of a set is left outside another, told from the rows that are not in that. A set that is given takes these rows.
fn left_outside(
    least: &AnsweredMaxima,
    k: usize,
    others: &RowSet,
    left: &mut RowSet,
    people: &CountedRows,
    enough: u64,
) -> Left
    requires place { k < length least.now.items }
    requires same_n { least.now.n ≡ others.now.n }
    requires same_n_left { left.old.n ≡ others.now.n }
    requires enough { enough ≡ people.now.people.fewest + people.now.people.own }
    ensures n { left.new.n ≡ others.now.n }
    ensures left { (rows : List ℕ) → others.now.list ≡ complement others.now.n rows → IsLeft people.now.people (outside rows (pair_at least.now.items k).rows.list) result }
{
    // A list says of its n that no row of a set is past it.
    let _ = least.n();
    least.put_shared(k, others, left);
    if left.is_empty() {
        return Left::Nothing;
    }
    if are_fewer(left, people, enough) {
        Left::Few
    } else {
        Left::Enough
    }
}

/// Whether the question's rows leave of some set rows of few people, while each set that lies there whole has a lower answer.
pub(crate) fn nearly_holds(
    least: &AnsweredMaxima,
    marks: &Marks,
    rows: &RowSet,
    people: &CountedRows,
) -> bool
    requires same_n { least.now.n ≡ rows.now.n }
    requires descend { Descend (answers_of least.now.items) }
    requires marked { AreMarked least.now.items marks.now }
    ensures { IsTrue result ↔ HasNearlyHeld people.now.people (λ a. a.rows) (answers_of least.now.items) rows.now.list }
{
    let mut others = *rows;
    others.flip();
    let lacking = lacking_of(rows, &others, least.len());
    let marked = marks.of(lacking.marking);
    // A list says of its n that each set has it, and the people of themselves that somebody stands behind each row.
    let _ = least.n();
    let _ = people.n();
    let enough = enough(people);
    // One set takes what is left of each in turn.
    let mut left = RowSet::new(others.n());
    let mut k = next_maybe_few(marked, 0, lacking.bits, enough);
    while k < least.len() {
        match left_outside(least, k, &others, &mut left, people, enough) {
            Left::Nothing => return false,
            // No set before it lies there whole, but one of its answer may.
            Left::Few => return !has_within(least, marks, rows, least.answer(k)),
            Left::Enough => {}
        }
        k = next_maybe_few(marked, k + 1, lacking.bits, enough);
    }
    false
}
