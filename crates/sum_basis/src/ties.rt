//! Whether a form ties two columns: whoever knew the number at one of them would know the number at the other.
ghost use Rattle.std.specs.Prelude.{◌≡◌, ◌↔◌, ◌<◌, ◌≤◌, ◌^◌, false, length, map, pos, unsigned_abs, IsTrue, slice_index_or};
ghost use Rattle.std.specs.List.{AllByRecursion};
ghost use Rattle.sum_basis.specs.Elimination.{IsSmallForm};
ghost use Rattle.sum_basis.specs.Sparse.{row_of, rows_of, entries_of, scaled, IsKept};
ghost use Rattle.audit_types.specs.Rows.{has_row};
ghost use Rattle.sum_basis.specs.Ties.{AreLikeLists, MayTell, IsShortBut, HasLikeListBut, ShowsTieBut};

use crate::parallel::are_parallel;
use crate::sparse::SparseRow;
use audit_types::RowSet;

// Whether the lists of the two rows are multiples of each other. An empty one is like none.
fn are_like_lists(row: &SparseRow, other: &SparseRow) -> bool
    requires row { AllByRecursion (λ e. unsigned_abs e.value ≤ 2 ^ 56) row.now.free.items }
    requires other { AllByRecursion (λ e. unsigned_abs e.value ≤ 2 ^ 56) other.now.free.items }
    ensures { IsTrue result ↔ AreLikeLists row.now.free.items other.now.free.items }
{
    if row.free.is_empty() || other.free.is_empty() {
        return false;
    }
    are_parallel(
        other.free[0].number(),
        &row.free,
        row.free[0].number(),
        &other.free,
    )
}

/// Whether the number at one of the two columns may tell that at the other.
pub(crate) fn may_tell(p: u16, q: u16, beside: &RowSet, several: &RowSet) -> bool
    requires same_n { beside.now.n ≡ several.now.n }
    requires p { p < several.now.n }
    requires q { q < several.now.n }
    ensures { IsTrue result ↔ MayTell beside.now.list several.now.list p q }
{
    (!beside.has(p) && !several.has(q)) || (!several.has(p) && !beside.has(q))
}

// Whether the row is 0 but at its pivot and one more column at most, and the number at one of the two may tell that at the other.
fn is_short_but(row: &SparseRow, beside: &RowSet, several: &RowSet) -> bool
    requires same_n { beside.now.n ≡ several.now.n }
    requires kept { IsKept several.now.n row.now }
    ensures { IsTrue result ↔ IsShortBut beside.now.list several.now.list (row_of several.now.n (entries_of row.now)) }
{
    match row.free.len() {
        0 => !beside.has(row.pivot),
        1 => may_tell(row.pivot, row.free[0].place, beside, several),
        _ => false,
    }
}

// Whether the list of one of these rows is a multiple of the row's, and the number at one of the two pivots may tell that at the other.
fn has_like_list_but(
    front: &[SparseRow],
    row: &SparseRow,
    beside: &RowSet,
    several: &RowSet,
) -> bool
    requires same_n { beside.now.n ≡ several.now.n }
    requires pivot { row.now.pivot < several.now.n }
    requires below { AllByRecursion (λ r. r.pivot < several.now.n) front.now }
    requires front { AllByRecursion (λ r. AllByRecursion (λ e. unsigned_abs e.value ≤ 2 ^ 56) r.free.items) front.now }
    requires row { AllByRecursion (λ e. unsigned_abs e.value ≤ 2 ^ 56) row.now.free.items }
    ensures { IsTrue result ↔ HasLikeListBut beside.now.list several.now.list front.now row.now }
{
    for other in front {
        if !may_tell(other.pivot, row.pivot, beside, several) {
            continue;
        }
        if are_like_lists(other, row) {
            return true;
        }
    }
    false
}

/// Whether the span of a form with these rows ties a column that isn't in the first set to one that isn't in the second.
pub(crate) fn ties_some_but(rows: &[SparseRow], beside: &RowSet, several: &RowSet) -> bool
    requires same_n { beside.now.n ≡ several.now.n }
    requires kept { AllByRecursion (IsKept several.now.n) rows.now }
    requires form { IsSmallForm several.now.n (rows_of several.now.n rows.now) }
    ensures { IsTrue result ↔ ShowsTieBut beside.now.list several.now.list (rows_of several.now.n rows.now) }
{
    for (k, row) in rows.iter().enumerate() {
        if is_short_but(row, beside, several) {
            return true;
        }
        if has_like_list_but(&rows[..k], row, beside, several) {
            return true;
        }
    }
    false
}
