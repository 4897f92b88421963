//! Whether what a form with a new list leaves of two rows are multiples of one another, by their lists alone.
ghost use Rattle.std.specs.Prelude.{◌≡◌, ◌≢◌, ℕ, ◌<◌, ◌≤◌, ◌^◌, ◌↔◌, ℤ, pos, List, [], ◌∷◌, length, IfOk, IfSome, IfNone, IsTrue, slice_index_or, unsigned_abs};
ghost use Rattle.std.specs.List.{AllByRecursion};
ghost use Rattle.sum_basis.specs.Limits.{most_columns};
ghost use Rattle.audit_types.specs.Form.{pivot};
ghost use Rattle.audit_types.specs.Limits.{most_rows};
ghost use Rattle.sum_basis.specs.Basis.{unit_row};
ghost use Rattle.sum_basis.specs.Alike.{IsMultipleOf, AreAlikeAfter, AreColumnsAlike, TiesSurely};
ghost use Rattle.sum_basis.specs.Points.{IsResidue};
ghost use Rattle.sum_basis.specs.Reach.{AreSmallEntries, IsLeftOverOrNone, times_of, without_new};
ghost use Rattle.sum_basis.specs.Sparse.{entry_at, IsListed};
ghost use Rattle.sum_basis.specs.Ties.{MayTell};

use crate::counting::{is_zero, times_at};
use crate::form::Form;
use crate::merging::{combine_into, wide_list};
use crate::primitive_list::make_primitive;
use crate::sparse::{FreeEntry, copy_list};
use crate::wide_entry::WideEntry;
use audit_types::{NoMemory, RowSet};
use std::alloc::Global;

// What is left of entries that aren't 0 at the first place of the new list.
fn cleared_after(
    alloc: Global,
    columns: u16,
    entries: &[FreeEntry],
    new: &[FreeEntry],
    times: i128,
) -> Result<Vec<WideEntry>, NoMemory>
    requires at_most { columns ≤ most_columns }
    requires entries { AreSmallEntries columns entries.now }
    requires new { AreSmallEntries columns new.now }
    requires times { times ≡ times_of new.now (entry_at entries.now) }
    requires some { times ≢ pos 0 }
    ensures listed { IfOk result (λ list. IsListed 0 columns list.items) }
    ensures small { IfOk result (λ list. AllByRecursion (λ e. unsigned_abs e.value ≤ 2 ^ 126) list.items) }
    ensures is { IfOk result (λ list. (j : ℕ) → entry_at list.items j ≡ without_new new.now (entry_at entries.now) j) }
{
    let mut list = Vec::with_capacity(alloc, columns as usize)?;
    let by = new[0].number();
    combine_into(&mut list, columns, &by, entries, &times, new);
    Ok(list)
}

// A list of which a multiple is what is left of entries once the form has the new list.
fn left_after(
    alloc: Global,
    columns: u16,
    entries: &[FreeEntry],
    new: &[FreeEntry],
) -> Result<Vec<WideEntry>, NoMemory>
    requires at_most { columns ≤ most_columns }
    requires entries { AreSmallEntries columns entries.now }
    requires new { AreSmallEntries columns new.now }
    ensures listed { IfOk result (λ list. IsListed 0 columns list.items) }
    ensures small { IfOk result (λ list. AllByRecursion (λ e. unsigned_abs e.value ≤ 2 ^ 126) list.items) }
    ensures left { IfOk result (λ list. IsMultipleOf (without_new new.now (entry_at entries.now)) (entry_at list.items)) }
{
    let times = times_at(entries, new);
    if is_zero(times) {
        wide_list(alloc, entries, columns)
    } else {
        cleared_after(alloc, columns, entries, new, times)
    }
}

// The same over its content, none if nothing is left.
fn primitive_after(
    alloc: Global,
    columns: u16,
    entries: &[FreeEntry],
    new: &[FreeEntry],
) -> Result<Option<Vec<WideEntry>>, NoMemory>
    requires at_most { columns ≤ most_columns }
    requires entries { AreSmallEntries columns entries.now }
    requires new { AreSmallEntries columns new.now }
    ensures { IfOk result (λ made. IfSome made (λ list. IsMultipleOf (without_new new.now (entry_at entries.now)) (entry_at list.items))) }
{
    let mut list = left_after(alloc, columns, entries, new)?;
    if list.is_empty() {
        return Ok(None);
    }
    make_primitive(&mut list);
    Ok(Some(list))
}

// Whether the lists have the same entries.
fn same_wide_list(list: &[WideEntry], other: &[WideEntry]) -> bool
    ensures { IsTrue result ↔ (list.now ≡ other.now) }
{
    if list.len() != other.len() {
        return false;
    }
    for (k, entry) in list.iter().enumerate() {
        if entry.place() != other[k].place() || entry.value() != other[k].value() {
            return false;
        }
    }
    true
}

/// Whether what is left of the two is surely a multiple of one list.
pub(crate) fn are_alike(
    alloc: Global,
    columns: u16,
    entries: &[FreeEntry],
    others: &[FreeEntry],
    new: &[FreeEntry],
) -> Result<bool, NoMemory>
    requires at_most { columns ≤ most_columns }
    requires entries { AreSmallEntries columns entries.now }
    requires others { AreSmallEntries columns others.now }
    requires new { AreSmallEntries columns new.now }
    ensures { IfOk result (λ alike. IsTrue alike → AreAlikeAfter new.now entries.now others.now) }
{
    let Some(one) = primitive_after(alloc, columns, entries, new)? else {
        return Ok(false);
    };
    let Some(other) = primitive_after(alloc, columns, others, new)? else {
        return Ok(false);
    };
    Ok(same_wide_list(&one, &other))
}

// The row whose pivot is the column, if it is one.
fn row_with_pivot(form: &Form, column: u16) -> Option<u16>
    ensures some { IfSome result (λ k. (k < length form.now.rows) × (pivot (slice_index_or form.now.rows k []) ≡ column)) }
    ensures none { IfNone result ((j : ℕ) (d : List ℤ) → j < length form.now.rows → pivot (slice_index_or form.now.rows j d) ≢ column) }
{
    for k in 0..form.rank() {
        if form.pivot(k) == column {
            return Some(k);
        }
    }
    None
}

/// What the form leaves of the unit row of a column.
pub(crate) fn list_of_column(
    form: &Form,
    alloc: Global,
    column: u16,
) -> Result<Vec<FreeEntry>, NoMemory>
    requires { column < form.now.n }
    ensures residue { IfOk result (λ list. IsResidue form.now (unit_row form.now.n column) list.items) }
    ensures small { IfOk result (λ list. AreSmallEntries form.now.n list.items) }
{
    // What every form is: its rows are a form.
    let columns = form.columns();
    match row_with_pivot(form, column) {
        Some(k) => copy_list(alloc, form.free(k), columns),
        None => {
            let own = FreeEntry {
                place: column,
                value: 1,
            };
            copy_list(alloc, &[own], columns)
        }
    }
}
