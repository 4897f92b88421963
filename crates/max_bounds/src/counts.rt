//! How many extreme rows each answer has.
ghost use Rattle.std.specs.Prelude.{◌≡◌, ◌<◌, ◌≤◌, ◌-◌, ◌&&◌, map, length};
ghost use Rattle.std.specs.List.{AllByRecursion};
ghost use Rattle.audit_types.specs.Rows.{has_row};
ghost use Rattle.audit_types.specs.Extremes.{is_bound};
ghost use Rattle.max_bounds.specs.Maxima.{answer_of, answers_of, pair_at};
ghost use Rattle.max_bounds.specs.Reaching.{bound_at, reaching};
ghost use Rattle.max_bounds.specs.Kept.{reaching_counts, falls_of, fewest_of, IsRange, Widens};

use crate::answered_maxima::AnsweredMaxima;
use audit_types::RowSet;

// Whether a row with this bound is extreme for an answer.
fn is_extreme(pairs: &AnsweredMaxima, k: usize, row: u16, bound: Option<i64>) -> bool
    requires place { k < length pairs.now.items }
    requires row { row < pairs.now.n }
    ensures { result ≡ (has_row (pair_at pairs.now.items k).rows.list row && is_bound bound (pair_at pairs.now.items k).answer) }
{
    pairs.has(k, row) && bound == Some(pairs.answer(k))
}

// The least and the greatest of some bounds.
#[derive(Clone, Copy)]
pub(crate) struct Range {
    pub low: i64,
    pub high: i64,
}

fn widen(range: Range, bound: Option<i64>) -> Range
    ensures { Widens range bound result }
{
    match bound {
        None => range,
        Some(bound) => Range {
            low: range.low.min(bound),
            high: range.high.max(bound),
        },
    }
}

fn range_of(upper: &[Option<i64>], falling: &RowSet) -> Range
    requires within { falling.now.n ≤ length upper.now }
    ensures { IsRange (bound_at upper.now) falling.now.list result }
{
    // A set says of its n that no row is past it.
    let _ = falling.n();
    let mut range = Range {
        low: i64::MAX,
        high: i64::MIN,
    };
    for row in falling.iter() {
        range = widen(range, upper[row as usize]);
    }
    range
}

// How many of the falling rows are extreme for an answer: none, if the answer is outside the range of their bounds.
fn falls(
    upper: &[Option<i64>],
    falling: &RowSet,
    range: Range,
    pairs: &AnsweredMaxima,
    k: usize,
) -> u16
    requires holds { IsRange (bound_at upper.now) falling.now.list range }
    requires place { k < length pairs.now.items }
    requires same_n { pairs.now.n ≡ falling.now.n }
    requires within { falling.now.n ≤ length upper.now }
    ensures { result ≡ length (falls_of (bound_at upper.now) falling.now.list (answer_of (pair_at pairs.now.items k))) }
{
    let answer = pairs.answer(k);
    if answer < range.low || answer > range.high {
        return 0;
    }
    // A set says of its n that no row is past it.
    let _ = falling.n();
    let mut count = 0;
    for row in falling.iter() {
        if is_extreme(pairs, k, row, upper[row as usize]) {
            count += 1;
        }
    }
    count
}

/// Takes the falling rows from the counts of the answers that they are extreme for.
pub(crate) fn lower_counts(
    counts: &mut [u16],
    pairs: &AnsweredMaxima,
    upper: &[Option<i64>],
    falling: &RowSet,
)
    requires counted { counts.old ≡ reaching_counts (bound_at upper.now) (answers_of pairs.now.items) }
    requires same_n { pairs.now.n ≡ falling.now.n }
    requires within { falling.now.n ≤ length upper.now }
    requires few { AllByRecursion (λ a. length (falls_of (bound_at upper.now) falling.now.list a) ≤ length (reaching (bound_at upper.now) a.rows a.value)) (answers_of pairs.now.items) }
    ensures lowered { counts.new ≡ map (λ a. length (reaching (bound_at upper.now) a.rows a.value) - length (falls_of (bound_at upper.now) falling.now.list a)) (answers_of pairs.now.items) }
{
    let range = range_of(upper, falling);
    for k in 0..pairs.len() {
        counts[k] -= falls(upper, falling, range, pairs, k);
    }
}

/// The least of the counts, and the largest number if there is none.
pub(crate) fn fewest(counts: &[u16]) -> u16
    ensures { result ≡ fewest_of counts.now }
{
    let mut fewest = u16::MAX;
    for count in counts {
        fewest = fewest.min(*count);
    }
    fewest
}
