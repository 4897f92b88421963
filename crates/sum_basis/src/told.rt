//! What is sure of a form with a new list, by the keys of its columns.
ghost use Rattle.std.specs.Prelude.{◌≡◌, ◌≤◌, map, length, IfOk};
ghost use Rattle.std.specs.List.{AllByRecursion};
ghost use Rattle.audit_types.specs.Limits.{most_rows};
ghost use Rattle.sum_basis.specs.Alike.{IsSurelyTold};
ghost use Rattle.sum_basis.specs.Holding.{IsKeptOf};
ghost use Rattle.sum_basis.specs.Keys.{AreColumnKeys};
ghost use Rattle.sum_basis.specs.Reach.{IsLeftOverOrNone};

use crate::column_keys::ColumnKeys;
use crate::form::Form;
use crate::keeping::KeptSet;
use crate::points::new_point;
use crate::sparse::FreeEntry;
use crate::suspects::tells_surely;
use crate::telling::{tells_surely_none, write_keys};
use audit_types::{NoMemory, RowSet};
use std::alloc::Global;

/// What a form tells an asker of rows or sets that are guarded from her.
#[derive(Clone, Copy)]
pub(crate) enum Told {
    Nothing,
    Something,
    /// The keys don't show it.
    Unsure,
}

/// What the form with the list surely tells somebody who knows the number of a row that isn't in the second set: of another one that isn't in the
/// first, or of the total of one of the sets.
pub(crate) fn surely_told(
    form: &Form,
    alloc: Global,
    kept: &ColumnKeys,
    list: &[FreeEntry],
    beside: &RowSet,
    several: &RowSet,
    sets: &[KeptSet],
) -> Result<Told, NoMemory>
    requires at_most { form.now.n ≤ most_rows }
    requires kept { AreColumnKeys form.now kept.now }
    requires list { IsLeftOverOrNone form.now list.now }
    requires beside { beside.now.n ≡ form.now.n }
    requires several { several.now.n ≡ form.now.n }
    requires sets { AllByRecursion (IsKeptOf form.now) sets.now }
    ensures { IfOk result (IsSurelyTold form.now kept.now.weights.items list.now beside.now.list several.now.list (map (λ s. s.rows.list) sets.now)) }
{
    let weights = &kept.weights;
    let new = new_point(weights, list);
    let mut room = vec![in alloc; 0; form.columns() as usize]?;
    let keys = room.as_mut_slice();
    if !write_keys(form, alloc, kept, list, &new, beside, several, keys)? {
        return Ok(Told::Unsure);
    }
    if tells_surely_none(form, weights, list, &new, beside, several, keys, sets) {
        return Ok(Told::Nothing);
    }
    if tells_surely(
        form, alloc, weights, list, &new, beside, several, keys, sets,
    )? {
        return Ok(Told::Something);
    }
    Ok(Told::Unsure)
}
