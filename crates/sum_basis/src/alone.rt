//! Whether the unit row of a pivot lies in the span of a form with what it left of another row. Nothing is worked out but products of
//! single entries.
ghost use Rattle.std.specs.Prelude.{◌↔◌, ◌<◌, ◌++◌, ◌∷◌, [], length, IfSome, IsTrue, slice_index_or};
ghost use Rattle.audit_types.specs.Form.{InSpan, pivot};
ghost use Rattle.sum_basis.specs.Basis.{unit_row};
ghost use Rattle.sum_basis.specs.Elimination.{IsSmallForm};
ghost use Rattle.sum_basis.specs.Growth.{IsLeftOver, SpansAfter};
ghost use Rattle.sum_basis.specs.Sparse.{row_of};

use crate::form::Form;
use crate::parallel::are_parallel;
use crate::sparse::FreeEntry;

// Whether row k has other entries, and loses all of them when it is cleared by a list that was left of another row, since they are a
// multiple of it: then the unit row of its pivot lies in the span of the form with that list, and not in that of the form.
fn is_cleared_alone(form: &Form, list: &[FreeEntry], k: u16) -> bool
    requires form { IsSmallForm form.now.n form.now.rows }
    requires k { k < length form.now.rows }
    requires left { IsLeftOver form.now list.now }
    ensures some { IsTrue result → InSpan (form.now.rows ++ row_of form.now.n list.now ∷ []) (unit_row form.now.n (pivot (slice_index_or form.now.rows k []))) × ¬ (InSpan form.now.rows (unit_row form.now.n (pivot (slice_index_or form.now.rows k [])))) }
    ensures none { ¬ (IsTrue result) → InSpan (form.now.rows ++ row_of form.now.n list.now ∷ []) (unit_row form.now.n (pivot (slice_index_or form.now.rows k []))) → InSpan form.now.rows (unit_row form.now.n (pivot (slice_index_or form.now.rows k []))) }
{
    let free = form.free(k);
    if free.is_empty() {
        return false;
    }
    are_parallel(list[0].number(), free, free[0].number(), list)
}

/// Whether the unit row of row k's pivot lies in the span of the form with a list that was left of another row: row k has no other entry,
/// or none any more.
pub(crate) fn is_alone_with(form: &Form, list: &[FreeEntry], k: u16) -> bool
    requires form { IsSmallForm form.now.n form.now.rows }
    requires k { k < length form.now.rows }
    requires left { IsLeftOver form.now list.now }
    ensures { IsTrue result ↔ InSpan (form.now.rows ++ row_of form.now.n list.now ∷ []) (unit_row form.now.n (pivot (slice_index_or form.now.rows k []))) }
{
    form.free(k).is_empty() || is_cleared_alone(form, list, k)
}

/// Whether the unit row of row k's pivot lies in the span of the form with what it left of another row, if anything, and not in that of the
/// form.
pub(crate) fn is_alone_anew(form: &Form, left: &Option<Vec<FreeEntry>>, k: u16) -> bool
    requires form { IsSmallForm form.now.n form.now.rows }
    requires k { k < length form.now.rows }
    requires left { IfSome left.now (λ list. IsLeftOver form.now list.items) }
    ensures some { IsTrue result → SpansAfter form.now left.now (unit_row form.now.n (pivot (slice_index_or form.now.rows k []))) × ¬ (InSpan form.now.rows (unit_row form.now.n (pivot (slice_index_or form.now.rows k [])))) }
    ensures none { ¬ (IsTrue result) → SpansAfter form.now left.now (unit_row form.now.n (pivot (slice_index_or form.now.rows k []))) → InSpan form.now.rows (unit_row form.now.n (pivot (slice_index_or form.now.rows k []))) }
{
    match left {
        Some(list) => is_cleared_alone(form, list, k),
        None => false,
    }
}

/// Whether that unit row lies in the span of the form with what it left of another row, if anything.
pub(crate) fn is_alone_after(form: &Form, left: &Option<Vec<FreeEntry>>, k: u16) -> bool
    requires form { IsSmallForm form.now.n form.now.rows }
    requires k { k < length form.now.rows }
    requires left { IfSome left.now (λ list. IsLeftOver form.now list.items) }
    ensures { IsTrue result ↔ SpansAfter form.now left.now (unit_row form.now.n (pivot (slice_index_or form.now.rows k []))) }
{
    match left {
        Some(list) => is_alone_with(form, list, k),
        None => form.free(k).is_empty(),
    }
}
