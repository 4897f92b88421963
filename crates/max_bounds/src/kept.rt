//! What is kept of the extreme rows of the answers, as an answer joins them.
ghost use Rattle.std.specs.Prelude.{◌≡◌, ◌<◌, ◌≤◌, ℕ, length};
ghost use Rattle.std.specs.List.{AllByRecursion};
ghost use Rattle.audit_types.specs.Rows.{AreRows};
ghost use Rattle.audit_types.specs.Extremes.{upper_bound, extremes};
ghost use Rattle.max_bounds.specs.Maxima.{answer_of, answers_of, and_answer, HasSpace};
ghost use Rattle.max_bounds.specs.Reaching.{bound_at};
ghost use Rattle.max_bounds.specs.Kept.{rows_above, AreLeast, Descend, TellsExtremes};
ghost use Rattle.max_bounds.specs.Marks.{HaveRoom, AreMarked};

use crate::answered::AnsweredMax;
use crate::answered_maxima::AnsweredMaxima;
use crate::counts::{fewest, lower_counts};
use crate::marks::Marks;
use crate::sets::{end_of, lower_sets};
use crate::within::has_within;
use audit_types::RowSet;

/// Takes the falling rows of a new answer from the counts and the sets of the answers before it. The result is the least count.
pub(crate) fn fall(
    counts: &mut [u16],
    least_count: u16,
    least: &mut AnsweredMaxima,
    marks: &mut Marks,
    pairs: &AnsweredMaxima,
    upper: &[Option<i64>],
    latest: &AnsweredMax,
    falling: &RowSet,
) -> u16
    requires same_n { pairs.now.n ≡ latest.now.rows.n }
    requires same_n_least { least.old.n ≡ latest.now.rows.n }
    requires same_n_falling { falling.now.n ≡ latest.now.rows.n }
    requires within { falling.now.n ≤ length upper.now }
    requires are_rows { AllByRecursion (λ a. AreRows latest.now.rows.n a.rows) (answers_of pairs.now.items) }
    requires bounds { (r : ℕ) → bound_at upper.now r ≡ upper_bound (answers_of pairs.now.items) r }
    requires falling { falling.now.list ≡ rows_above (bound_at upper.now) latest.now.answer latest.now.rows.list }
    requires descend { Descend (answers_of least.old.items) }
    requires marked { AreMarked least.old.items marks.old }
    requires told { TellsExtremes (extremes (answers_of pairs.now.items)) (answers_of pairs.now.items) counts.old least_count (answers_of least.old.items) }
    ensures n { least.new.n ≡ least.old.n }
    ensures space { HasSpace least.old → HasSpace least.new }
    ensures descend { Descend (answers_of least.new.items) }
    ensures marked { AreMarked least.new.items marks.new }
    ensures room { HaveRoom marks.old → HaveRoom marks.new }
    ensures tells { TellsExtremes (extremes (and_answer (answers_of pairs.now.items) latest.now.rows.list latest.now.answer)) (answers_of pairs.now.items) counts.new result (answers_of least.new.items) }
{
    if falling.is_empty() {
        return least_count;
    }
    // A set says of its n that no row is past it.
    let _ = latest.rows.n();
    lower_counts(counts, pairs, upper, falling);
    lower_sets(least, marks, &latest.rows, latest.answer);
    fewest(counts)
}

/// Puts a new answer's own extreme rows among the least sets, unless one of this answer lies in its set.
pub(crate) fn insert(
    least: &mut AnsweredMaxima,
    marks: &mut Marks,
    own: &RowSet,
    latest: &AnsweredMax,
    pairs: &AnsweredMaxima,
)
    requires room { HasSpace least.old }
    requires marks_room { HaveRoom marks.old }
    requires same_n_least { least.old.n ≡ latest.now.rows.n }
    requires same_n { own.now.n ≡ latest.now.rows.n }
    requires own { own.now.list ≡ extremes (and_answer (answers_of pairs.now.items) latest.now.rows.list latest.now.answer) (answer_of latest.now) }
    requires descend { Descend (answers_of least.old.items) }
    requires marked { AreMarked least.old.items marks.old }
    requires told { AreLeast (extremes (and_answer (answers_of pairs.now.items) latest.now.rows.list latest.now.answer)) (answers_of pairs.now.items) (answers_of least.old.items) }
    ensures n { least.new.n ≡ least.old.n }
    ensures descend { Descend (answers_of least.new.items) }
    ensures marked { AreMarked least.new.items marks.new }
    ensures tells { AreLeast (extremes (and_answer (answers_of pairs.now.items) latest.now.rows.list latest.now.answer))
        (and_answer (answers_of pairs.now.items) latest.now.rows.list latest.now.answer) (answers_of least.new.items) }
{
    if !has_within(least, marks, &latest.rows, latest.answer) {
        let place = end_of(least, latest.answer);
        least.insert_reserved(place, own, latest.answer);
        marks.insert(place, own);
    }
}
