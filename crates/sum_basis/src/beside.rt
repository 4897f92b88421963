//! Whether the row of a set lies in the span of a form with the unit row of one asker.
ghost use Rattle.std.specs.Prelude.{◌≡◌, ◌≢◌, ◌↔◌, ◌<◌, ◌≤◌, [], length, IfOk, IfSome, IsTrue, slice_index_or};
ghost use Rattle.audit_types.specs.Form.{InSpan, pivot};
ghost use Rattle.sum_basis.specs.Asking.{SpansBeside, SpansNewAfter, AreNotAsking};
ghost use Rattle.sum_basis.specs.Basis.{unit_row};
ghost use Rattle.sum_basis.specs.Elimination.{IsSmallForm};
ghost use Rattle.sum_basis.specs.Growth.{IsLeftOver, SpansAfter};

use crate::alone::is_alone_anew;
use crate::elimination::write_set;
use crate::form::{Form, Left};
use crate::sparse::FreeEntry;
use audit_types::{MOST_WIDTH, NoMemory, RowSet};

// The rows that no asker knows, or whose asker knows the set's total by her number alone.
fn not_asking(several: &RowSet, set: &RowSet) -> RowSet
    requires same_n { set.now.n ≡ several.now.n }
    requires some { set.now.list ≢ [] }
    ensures n { result.n ≡ several.now.n }
    ensures rows { AreNotAsking several.now.n several.now.list set.now.list result.list }
{
    // A set says of itself that its rows are in order.
    let _ = set.n();
    let mut rows = *several;
    if set.len() == 1 {
        rows.or_with(set);
    }
    rows
}

// Whether the unit row of some row that isn't in the set lies in the span of the form with what it left of another row, and not in that of the form.
// Only those at the pivots can.
fn spans_new_after(form: &Form, left: &Option<Vec<FreeEntry>>, but: &RowSet) -> bool
    requires but { but.now.n ≡ form.now.n }
    requires left { IfSome left.now (λ list. IsLeftOver form.now list.items) }
    ensures { IsTrue result ↔ SpansNewAfter form.now left.now but.now.list }
{
    for k in 0..form.rank() {
        if !but.has(form.pivot(k)) && is_alone_anew(form, left, k) {
            return true;
        }
    }
    match left {
        Some(list) => list.len() == 1 && !but.has(list[0].place),
        None => false,
    }
}

/// Whether the row of the set lies in the span of the form with the unit row of some row that isn't in the second set, and the set has another row.
pub(crate) fn spans_with_one(form: &Form, set: &RowSet, several: &RowSet) -> Result<bool, NoMemory>
    requires set { set.now.n ≡ form.now.n }
    requires several { several.now.n ≡ form.now.n }
    ensures { IfOk result (λ told. IsTrue told ↔ SpansBeside form.now several.now.list set.now.list) }
{
    // A set says of itself that its rows are rows of the table.
    let _ = set.n();
    if set.is_empty() {
        return Ok(false);
    }
    let but = not_asking(several, set);
    let mut room = form.zeros()?;
    let row = room.as_mut_slice();
    write_set(row, set);
    // What every form is: its width isn't above the greatest.
    let _ = form.columns();
    match form.settle(row, MOST_WIDTH)? {
        Left::Nothing => {
            let mut asking = but;
            asking.flip();
            Ok(!asking.is_empty())
        }
        Left::Large => Ok(false),
        Left::Entries(list) => Ok(spans_new_after(form, &Some(list), &but)),
    }
}
