//! Sets of extreme rows in descending order of answers: an answer's place among them, and how they are lowered.
ghost use Rattle.std.specs.Prelude.{◌≡◌, ◌<◌, ◌≤◌, ◌⊎◌, ℕ, List, map, length, set, IsTrue};
ghost use Rattle.audit_types.specs.Rows.{complement};
ghost use Rattle.max_bounds.specs.Maxima.{answer_of, answers_of, pair_at, HasSpace};
ghost use Rattle.max_bounds.specs.Kept.{lowered_set, Descend, IsPlaceOf, IsEndOf};
ghost use Rattle.max_bounds.specs.Outside.{outside};
ghost use Rattle.max_bounds.specs.Marks.{AreMarked, HaveRoom};

use crate::answered_maxima::AnsweredMaxima;
use crate::marks::{Marks, lost_of};
use audit_types::RowSet;

/// Where an answer goes among descending ones: after those above it.
pub(crate) fn place_of(least: &AnsweredMaxima, answer: i64) -> usize
    requires descend { Descend (answers_of least.now.items) }
    ensures at_most { result ≤ length least.now.items }
    ensures place { IsPlaceOf answer least.now.items result }
{
    least.answers().partition_point(|other| answer < *other)
}

/// Where the sets below an answer begin among descending ones. A new set goes here, where it moves no other of its answer.
pub(crate) fn end_of(least: &AnsweredMaxima, answer: i64) -> usize
    requires descend { Descend (answers_of least.now.items) }
    ensures at_most { result ≤ length least.now.items }
    ensures end { IsEndOf answer least.now.items result }
{
    least.answers().partition_point(|other| answer <= *other)
}

// Takes the rows of a new answer from a set with a higher one, and tells whether it is one. The others are the rows that the new answer's
// set lacks.
fn lower_set(least: &mut AnsweredMaxima, k: usize, others: &RowSet, answer: i64) -> bool
    requires place { k < length least.old.items }
    requires same_n { least.old.n ≡ others.now.n }
    ensures n { least.new.n ≡ least.old.n }
    ensures capacity { least.new.capacity ≡ least.old.capacity }
    ensures others { least.new.items ≡ set least.old.items k (pair_at least.new.items k) }
    ensures same_n { (pair_at least.old.items k).rows.n ≡ others.now.n }
    ensures outside { (rows : List ℕ) → others.now.list ≡ complement others.now.n rows → IsTrue result → (pair_at least.new.items k).rows ≡ record { n = (pair_at least.old.items k).rows.n; list = outside rows (pair_at least.old.items k).rows.list } }
    ensures same { IsTrue result ⊎ ((pair_at least.new.items k).rows ≡ (pair_at least.old.items k).rows) }
    ensures lowered { (rows : List ℕ) → others.now.list ≡ complement others.now.n rows → answer_of (pair_at least.new.items k) ≡ lowered_set answer rows (answer_of (pair_at least.old.items k)) }
{
    // A list says of its n that no row of a set is past it.
    let _ = least.n();
    if least.answer(k) > answer {
        least.and_with(k, others);
        return true;
    }
    false
}

/// Takes the rows of a new answer from each set with a higher one.
pub(crate) fn lower_sets(least: &mut AnsweredMaxima, marks: &mut Marks, rows: &RowSet, answer: i64)
    requires same_n { least.old.n ≡ rows.now.n }
    requires marked { AreMarked least.old.items marks.old }
    ensures n { least.new.n ≡ least.old.n }
    ensures marked { AreMarked least.new.items marks.new }
    ensures space { HasSpace least.old → HasSpace least.new }
    ensures room { HaveRoom marks.old → HaveRoom marks.new }
    ensures lowered { answers_of least.new.items ≡ map (lowered_set answer rows.now.list) (answers_of least.old.items) }
{
    let mut others = *rows;
    others.flip();
    let lost = lost_of(rows);
    for k in 0..least.len() {
        if lower_set(least, k, &others, answer) {
            marks.lower(k, lost);
        }
    }
}
