//! What a new answer does to the rows of its set.
ghost use Rattle.std.specs.Prelude.{◌≡◌, ◌≤◌, ◌<◌, ℕ, cond, Some, length, IsTrue};
ghost use Rattle.audit_types.specs.Rows.{has_row, with_row};
ghost use Rattle.max_bounds.specs.Reaching.{bound_at};
ghost use Rattle.max_bounds.specs.Kept.{is_at_least, is_above, rows_at_least, rows_above, AreSettled};

use audit_types::RowSet;

/// The rows that will have the answer for their bound, and those of them that have a higher one before.
#[derive(Clone, Copy)]
pub(crate) struct Affected {
    pub extremes: RowSet,
    pub falling: RowSet,
    // Whether the extremes have the answer for their bound before. Then none falls.
    pub settled: bool,
}

/// Whether there is no bound, or one that is not below the answer.
pub(crate) fn is_at_least(answer: i64, bound: Option<i64>) -> bool
    ensures { result ≡ is_at_least answer bound }
{
    match bound {
        None => true,
        Some(bound) => bound >= answer,
    }
}

fn is_above(answer: i64, bound: Option<i64>) -> bool
    ensures { result ≡ is_above answer bound }
{
    match bound {
        None => false,
        Some(bound) => bound > answer,
    }
}

fn add_if(set: &mut RowSet, row: u16, test: bool)
    requires { row < set.old.n }
    ensures n { set.new.n ≡ set.old.n }
    ensures added { set.new.list ≡ cond test (with_row set.old.n set.old.list row) set.old.list }
{
    if test {
        set.add(row);
    }
}

// Whether each of these rows has the answer for its bound already.
fn are_settled(upper: &[Option<i64>], rows: &RowSet, answer: i64) -> bool
    requires within { rows.now.n ≤ length upper.now }
    ensures { IsTrue result → AreSettled (bound_at upper.now) answer rows.now.list }
{
    // A set says of its n that no row is past it.
    let _ = rows.n();
    for row in rows.iter() {
        if upper[row as usize] != Some(answer) {
            return false;
        }
    }
    true
}

/// What an answer over these rows does to them.
pub(crate) fn reach(upper: &[Option<i64>], rows: &RowSet, answer: i64) -> Affected
    requires within { rows.now.n ≤ length upper.now }
    ensures extremes_n { result.extremes.n ≡ rows.now.n }
    ensures falling_n { result.falling.n ≡ rows.now.n }
    ensures extremes { result.extremes.list ≡ rows_at_least (bound_at upper.now) answer rows.now.list }
    ensures falling { result.falling.list ≡ rows_above (bound_at upper.now) answer rows.now.list }
    ensures settled { IsTrue result.settled → AreSettled (bound_at upper.now) answer result.extremes.list }
{
    let n = rows.n();
    if are_settled(upper, rows, answer) {
        return Affected {
            extremes: *rows,
            falling: RowSet::new(n),
            settled: true,
        };
    }
    let mut extremes = RowSet::new(n);
    let mut falling = RowSet::new(n);
    for row in rows.iter() {
        let bound = upper[row as usize];
        add_if(&mut extremes, row, is_at_least(answer, bound));
        add_if(&mut falling, row, is_above(answer, bound));
    }
    Affected {
        extremes,
        falling,
        settled: false,
    }
}

/// Gives the rows that an answer reaches the answer for their bound.
pub(crate) fn settle(upper: &mut [Option<i64>], affected: &Affected, answer: i64)
    requires within { affected.now.extremes.n ≤ length upper.old }
    requires settled { IsTrue affected.now.settled → AreSettled (bound_at upper.old) answer affected.now.extremes.list }
    ensures settled { (r : ℕ) → bound_at upper.new r ≡ cond (has_row affected.now.extremes.list r) (Some answer) (bound_at upper.old r) }
{
    if affected.settled {
        return;
    }
    // A set says of its n that no row is past it.
    let _ = affected.extremes.n();
    for row in affected.extremes.iter() {
        upper[row as usize] = Some(answer);
    }
}
