//! Sets of extreme rows that lie in a question's set.
ghost use Rattle.std.specs.Prelude.{◌≡◌, ◌↔◌, ◌<◌, ℕ, List, length, IsTrue};
ghost use Rattle.audit_types.specs.Rows.{complement};
ghost use Rattle.max_bounds.specs.Maxima.{answer_of, answers_of, pair_at};
ghost use Rattle.max_bounds.specs.Outside.{IsWithin, HasWithin};
ghost use Rattle.max_bounds.specs.Kept.{Descend};
ghost use Rattle.max_bounds.specs.Marks.{AreMarked};

use crate::answered_maxima::AnsweredMaxima;
use crate::marks::{Marks, lacking_of};
use crate::sets::{end_of, place_of};
use crate::unshown::next_maybe_within;
use audit_types::RowSet;

// Whether a set has this answer and lies in the question's, told from the rows that are not in that.
fn is_within(least: &AnsweredMaxima, k: usize, others: &RowSet, answer: i64) -> bool
    requires place { k < length least.now.items }
    requires same_n { least.now.n ≡ others.now.n }
    ensures { (rows : List ℕ) → others.now.list ≡ complement others.now.n rows → IsTrue result ↔ IsWithin rows answer (answer_of (pair_at least.now.items k)) }
{
    // A list says of its n that no row of a set is past it.
    let _ = least.n();
    least.answer(k) == answer && least.is_apart(k, others)
}

/// Whether some set with this answer lies in the question's. Most are told by their marks, and only the others are read.
pub(crate) fn has_within(least: &AnsweredMaxima, marks: &Marks, rows: &RowSet, answer: i64) -> bool
    requires same_n { least.now.n ≡ rows.now.n }
    requires descend { Descend (answers_of least.now.items) }
    requires marked { AreMarked least.now.items marks.now }
    ensures { IsTrue result ↔ HasWithin (answers_of least.now.items) rows.now.list answer }
{
    let mut others = *rows;
    others.flip();
    // A list says of its n that each set has it.
    let _ = least.n();
    let first = place_of(least, answer);
    let end = end_of(least, answer).max(first);
    let lacking = lacking_of(rows, &others, end - first);
    let marked = marks.of(lacking.marking);
    let mut k = next_maybe_within(marked, first, end, lacking.bits);
    while k < end {
        if is_within(least, k, &others, answer) {
            return true;
        }
        k = next_maybe_within(marked, k + 1, end, lacking.bits);
    }
    false
}
