//! Which unit rows lie in the span of a form with a new row. Nothing is changed.
ghost use Rattle.std.specs.Prelude.{◌≡◌, ◌++◌, ℤ, List, [], ◌∷◌};
ghost use Rattle.audit_types.specs.Form.{IsReducedForm};
ghost use Rattle.audit_types.specs.Rows.{IsLeast};
ghost use Rattle.sum_basis.specs.Elimination.{IsSmallForm};
ghost use Rattle.sum_basis.specs.Growth.{IsLeftOver};
ghost use Rattle.sum_basis.specs.RowsWith.{IsPinned, IsPinnedPivot};
ghost use Rattle.sum_basis.specs.Sparse.{row_of};

use crate::alone::is_alone_with;
use crate::form::Form;
use crate::sparse::FreeEntry;
use audit_types::RowSet;

// The least of the rows' pivots that isn't shared and whose unit row lies in the span of the form with the new list.
fn first_pinned(form: &Form, new: &[FreeEntry], shared: &RowSet) -> Option<u16>
    requires new { IsLeftOver form.now new.now }
    requires shared { shared.now.n ≡ form.now.n }
    ensures { (grown : List (List ℤ)) → IsReducedForm form.now.n (form.now.rows ++ row_of form.now.n new.now ∷ []) grown → IsSmallForm form.now.n grown → IsLeast (IsPinnedPivot form.now.n form.now.rows grown shared.now.list) result }
{
    for k in 0..form.rank() {
        let pivot = form.pivot(k);
        if !shared.has(pivot) && is_alone_with(form, new, k) {
            return Some(pivot);
        }
    }
    None
}

/// The least column that isn't shared whose unit row lies in the span of the form and the new list.
pub(crate) fn least_pinned(form: &Form, new: &[FreeEntry], shared: &RowSet) -> Option<u16>
    requires new { IsLeftOver form.now new.now }
    requires shared { shared.now.n ≡ form.now.n }
    ensures { (grown : List (List ℤ)) → IsReducedForm form.now.n (form.now.rows ++ row_of form.now.n new.now ∷ []) grown → IsSmallForm form.now.n grown → IsLeast (IsPinned form.now.n grown shared.now.list) result }
{
    // A form says of itself that its rows are a reduced form.
    let _ = form.rank();
    let place = new[0].place;
    let found = first_pinned(form, new, shared);
    if new.len() > 1 || shared.has(place) {
        return found;
    }
    match found {
        Some(row) if row < place => found,
        _ => Some(place),
    }
}
