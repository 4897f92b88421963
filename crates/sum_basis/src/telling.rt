//! Whether it is sure, by keys alone, that a form with a new list tells no asker anything.
//!
//! A column whose number can neither be told to an asker nor be an asker's own is left out. Of each other one there is a key, and a bit
//! pattern that no other's has: so the columns are tied by nothing. Where that isn't so, it may still be that they are tied by nothing. The
//! keys are those that are kept, but for the columns of which the form leaves something where the list begins.
ghost use Rattle.std.specs.Prelude.{◌≡◌, ◌≢◌, ◌↔◌, ℕ, ◌+◌, ◌<◌, ◌≤◌, false, true, List, [], length, map, All, IfOk, OnOk, IfSome, IsTrue, slice_index_or};
ghost use Rattle.std.specs.List.{AllByRecursion};
ghost use Rattle.audit_types.specs.Rows.{has_row};
ghost use Rattle.audit_types.specs.Limits.{most_rows};
ghost use Rattle.sum_basis.specs.Basis.{unit_row};
ghost use Rattle.sum_basis.specs.Holding.{IsKeptOf};
ghost use Rattle.sum_basis.specs.Points.{IsPointAfter, IsKey, HasKey, Matters};
ghost use Rattle.sum_basis.specs.Reach.{AreSmallEntries, IsLeftOverOrNone, times_of};
ghost use Rattle.sum_basis.specs.Sparse.{entry_at};
ghost use Rattle.sum_basis.specs.Keys.{IsNewPoint, IsSeen, AreColumnKeys, AreColumnsApart, AreTouchedPoints, HasUnseenKey, TellSurelyNone};
ghost use Rattle.sum_basis.specs.Growth.{IsLeftOver};

use crate::column_keys::{ColumnKeys, SomePoints, write_keys_of};
use crate::counting::{is_zero, times_at};
use crate::form::Form;
use crate::keeping::KeptSet;
use crate::keys::{has_inverse, inverse_of};
use crate::points::{NewPoint, Point, point_after, point_of, times};
use crate::seen::Seen;
use crate::sparse::FreeEntry;
use audit_types::{NoMemory, RowSet};
use std::alloc::Global;

// Whether the number at the column can be told to an asker, or be her own.
fn matters(beside: &RowSet, several: &RowSet, column: u16) -> bool
    requires beside { column < beside.now.n }
    requires several { column < several.now.n }
    ensures { IsTrue result ↔ Matters beside.now.list several.now.list column }
{
    !beside.has(column) || !several.has(column)
}

// Whether no column that matters is unknown.
fn are_all_known(unknown: &RowSet, beside: &RowSet, several: &RowSet) -> bool
    requires beside { beside.now.n ≡ unknown.now.n }
    requires several { several.now.n ≡ unknown.now.n }
    ensures { IsTrue result → (q : ℕ) → q < unknown.now.n → Matters beside.now.list several.now.list q → has_row unknown.now.list q ≡ false }
{
    if unknown.is_empty() {
        return true;
    }
    for column in 0..unknown.n() {
        if unknown.has(column) && matters(beside, several, column) {
            return false;
        }
    }
    true
}

// Adds a pivot that matters, of which the form leaves something at the first place of the new list, with its point once the form has the list.
fn push_if_touched(
    form: &Form,
    k: u16,
    kept: &ColumnKeys,
    list: &[FreeEntry],
    new: &Option<NewPoint>,
    beside: &RowSet,
    several: &RowSet,
    some: &mut SomePoints,
) -> Result<(), NoMemory>
    requires k { k < length form.now.rows }
    requires at_most { form.now.n ≤ most_rows }
    requires kept { AreColumnKeys form.now kept.now }
    requires list { IsLeftOver form.now list.now }
    requires new { IsNewPoint kept.now.weights.items list.now new.now }
    requires beside { beside.now.n ≡ form.now.n }
    requires several { several.now.n ≡ form.now.n }
    requires known { (q : ℕ) → q < form.now.n → Matters beside.now.list several.now.list q → has_row kept.now.unknown.list q ≡ false }
    requires some { AreTouchedPoints form.now kept.now.weights.items list.now beside.now.list several.now.list k some.old.columns.items some.old.points.items }
    ensures { OnOk result (AreTouchedPoints form.now kept.now.weights.items list.now beside.now.list several.now.list (k + 1) some.new.columns.items some.new.points.items) }
{
    // What every form is: its rows are a form.
    let _ = form.columns();
    let pivot = form.pivot(k);
    let value = times_at(form.free(k), list);
    if is_zero(value) {
        return Ok(());
    }
    if !matters(beside, several, pivot) {
        return Ok(());
    }
    some.push(pivot, point_after(new, kept.points[pivot as usize], value))
}

// Adds the column of the first place of the new list, if it matters, with its point once the form has the list.
fn push_first(
    form: &Form,
    kept: &ColumnKeys,
    list: &[FreeEntry],
    new: &Option<NewPoint>,
    beside: &RowSet,
    several: &RowSet,
    some: &mut SomePoints,
) -> Result<(), NoMemory>
    requires at_most { form.now.n ≤ most_rows }
    requires kept { AreColumnKeys form.now kept.now }
    requires list { IsLeftOver form.now list.now }
    requires new { IsNewPoint kept.now.weights.items list.now new.now }
    requires beside { beside.now.n ≡ form.now.n }
    requires several { several.now.n ≡ form.now.n }
    requires columns { some.old.columns.items ≡ [] }
    requires points { some.old.points.items ≡ [] }
    ensures { OnOk result (AreTouchedPoints form.now kept.now.weights.items list.now beside.now.list several.now.list 0 some.new.columns.items some.new.points.items) }
{
    // What every form is: its rows are a form.
    let _ = form.columns();
    let place = list[0].place;
    if !matters(beside, several, place) {
        return Ok(());
    }
    some.push(place, point_after(new, kept.weights[place as usize], 1))
}

// The columns that matter of which the form leaves something at the first place of the new list, with their points once the form has the list.
fn touched_points(
    form: &Form,
    alloc: Global,
    kept: &ColumnKeys,
    list: &[FreeEntry],
    new: &Option<NewPoint>,
    beside: &RowSet,
    several: &RowSet,
) -> Result<SomePoints, NoMemory>
    requires at_most { form.now.n ≤ most_rows }
    requires kept { AreColumnKeys form.now kept.now }
    requires list { IsLeftOver form.now list.now }
    requires new { IsNewPoint kept.now.weights.items list.now new.now }
    requires beside { beside.now.n ≡ form.now.n }
    requires several { several.now.n ≡ form.now.n }
    requires known { (q : ℕ) → q < form.now.n → Matters beside.now.list several.now.list q → has_row kept.now.unknown.list q ≡ false }
    ensures { IfOk result (λ some. AreTouchedPoints form.now kept.now.weights.items list.now beside.now.list several.now.list (length form.now.rows) some.columns.items some.points.items) }
{
    let mut some = SomePoints::new(alloc);
    push_first(form, kept, list, new, beside, several, &mut some)?;
    for k in 0..form.rank() {
        push_if_touched(form, k, kept, list, new, beside, several, &mut some)?;
    }
    Ok(some)
}

// Whether the key of a column that isn't in the set was surely not seen. It is seen then. Of a column in the set nothing is asked.
fn adds_asker(key: u32, column: u16, several: &RowSet, seen: &mut Seen) -> bool
    requires { column < several.now.n }
    ensures unseen { IsTrue result → has_row several.now.list column ≡ false → ¬ (IsSeen seen.old key) }
    ensures added { IsTrue result → has_row several.now.list column ≡ false → IsSeen seen.new key }
    ensures stay { (other : ℕ) → IsSeen seen.old other → IsSeen seen.new other }
{
    if several.has(column) {
        return true;
    }
    if seen.has(key) {
        return false;
    }
    seen.add(key);
    true
}

// Whether the keys of the columns that aren't in the set are surely apart. They are seen then.
fn are_askers_apart(keys: &[u32], several: &RowSet, seen: &mut Seen) -> bool
    requires { several.now.n ≡ length keys.now }
    ensures apart { IsTrue result → (p q : ℕ) → p < q → q < length keys.now → has_row several.now.list p ≡ false → has_row several.now.list q ≡ false → slice_index_or keys.now p 0 ≢ slice_index_or keys.now q 0 }
    ensures seen { IsTrue result → (q : ℕ) → q < length keys.now → has_row several.now.list q ≡ false → IsSeen seen.new (slice_index_or keys.now q 0) }
{
    for q in 0..several.n() {
        if !adds_asker(keys[q as usize], q, several, seen) {
            return false;
        }
    }
    true
}

// Whether the key of a column that is in the second set, and not in the first, was surely not seen. Of others nothing is asked.
fn is_other_unseen(key: u32, column: u16, beside: &RowSet, several: &RowSet, seen: &Seen) -> bool
    requires beside { column < beside.now.n }
    requires several { column < several.now.n }
    ensures { IsTrue result → has_row beside.now.list column ≡ false → has_row several.now.list column ≡ true → ¬ (IsSeen seen.now key) }
{
    beside.has(column) || !several.has(column) || !seen.has(key)
}

// Whether no key of a column that is in the second set, and not in the first, may have been seen.
fn are_others_unseen(keys: &[u32], beside: &RowSet, several: &RowSet, seen: &Seen) -> bool
    requires beside { beside.now.n ≡ length keys.now }
    requires several { several.now.n ≡ length keys.now }
    ensures { IsTrue result → (q : ℕ) → q < length keys.now → has_row beside.now.list q ≡ false → has_row several.now.list q ≡ true → ¬ (IsSeen seen.now (slice_index_or keys.now q 0)) }
{
    for q in 0..beside.n() {
        if !is_other_unseen(keys[q as usize], q, beside, several, seen) {
            return false;
        }
    }
    true
}

// Whether columns of which the one may tell the other have surely different keys. Those that may be an asker's own are seen then.
fn are_columns_apart(keys: &[u32], beside: &RowSet, several: &RowSet, seen: &mut Seen) -> bool
    requires beside { beside.now.n ≡ length keys.now }
    requires several { several.now.n ≡ length keys.now }
    ensures apart { IsTrue result → AreColumnsApart (length keys.now) beside.now.list several.now.list keys.now }
    ensures seen { IsTrue result → (q : ℕ) → q < length keys.now → has_row several.now.list q ≡ false → IsSeen seen.new (slice_index_or keys.now q 0) }
{
    are_askers_apart(keys, several, seen) && are_others_unseen(keys, beside, several, seen)
}

/// The key of a list, if it has one.
pub(crate) fn key_of(
    weights: &[Point],
    list: &[FreeEntry],
    new: &Option<NewPoint>,
    entries: &[FreeEntry],
) -> Option<u32>
    requires entries { AreSmallEntries (length weights.now) entries.now }
    requires few { length weights.now ≤ most_rows }
    requires new { IsNewPoint weights.now list.now new.now }
    ensures { IfSome result (λ key. (point : Point) × IsPointAfter weights.now list.now entries.now point × IsKey point key) }
{
    let point = point_after(new, point_of(weights, entries), times_at(entries, list));
    let inverse = inverse_of(point.second)?;
    Some(times(point.first, inverse))
}

// Whether the key of what the form leaves of a set's row, if that is kept, was surely not seen.
fn is_set_unseen(
    form: &Form,
    weights: &[Point],
    list: &[FreeEntry],
    new: &Option<NewPoint>,
    set: &KeptSet,
    seen: &Seen,
) -> bool
    requires weights { length weights.now ≡ form.now.n }
    requires few { form.now.n ≤ most_rows }
    requires new { IsNewPoint weights.now list.now new.now }
    requires set { IsKeptOf form.now set.now }
    ensures { IsTrue result → HasUnseenKey form.now weights.now list.now seen.now set.now.rows.list }
{
    // What every form is: its rows are a form.
    let _ = form.columns();
    let Some(entries) = &set.list else {
        return false;
    };
    match key_of(weights, list, new, entries) {
        Some(key) => !seen.has(key),
        None => false,
    }
}

fn are_sets_unseen(
    form: &Form,
    weights: &[Point],
    list: &[FreeEntry],
    new: &Option<NewPoint>,
    sets: &[KeptSet],
    seen: &Seen,
) -> bool
    requires weights { length weights.now ≡ form.now.n }
    requires few { form.now.n ≤ most_rows }
    requires new { IsNewPoint weights.now list.now new.now }
    requires sets { AllByRecursion (IsKeptOf form.now) sets.now }
    ensures { IsTrue result → All (λ s. HasUnseenKey form.now weights.now list.now seen.now s.rows.list) sets.now }
{
    for set in sets {
        if !is_set_unseen(form, weights, list, new, set, seen) {
            return false;
        }
    }
    true
}

/// Writes the keys of the columns that aren't in both sets, if all are known. At the others are numbers that say nothing.
pub(crate) fn write_keys(
    form: &Form,
    alloc: Global,
    kept: &ColumnKeys,
    list: &[FreeEntry],
    new: &Option<NewPoint>,
    beside: &RowSet,
    several: &RowSet,
    keys: &mut [u32],
) -> Result<bool, NoMemory>
    requires at_most { form.now.n ≤ most_rows }
    requires kept { AreColumnKeys form.now kept.now }
    requires list { IsLeftOverOrNone form.now list.now }
    requires new { IsNewPoint kept.now.weights.items list.now new.now }
    requires beside { beside.now.n ≡ form.now.n }
    requires several { several.now.n ≡ form.now.n }
    requires keys { length keys.old ≡ form.now.n }
    ensures { IfOk result (λ written. IsTrue written → (j : ℕ) → j < form.now.n → Matters beside.now.list several.now.list j → HasKey form.now kept.now.weights.items list.now (unit_row form.now.n j) (slice_index_or keys.new j 0)) }
{
    // What every form is: its rows are a form.
    let _ = form.columns();
    if !are_all_known(&kept.unknown, beside, several) {
        return Ok(false);
    }
    keys.copy_from_slice(&kept.keys);
    let Some(first) = new else {
        return Ok(true);
    };
    if !has_inverse(first.value) {
        return Ok(false);
    }
    let touched = touched_points(form, alloc, kept, list, new, beside, several)?;
    write_keys_of(&touched, keys, alloc)
}

/// Whether the keys show for sure that the form with the list tells nobody who knows the number of a row that isn't in the second set that of
/// another one that isn't in the first, or the total of one of the sets.
pub(crate) fn tells_surely_none(
    form: &Form,
    weights: &[Point],
    list: &[FreeEntry],
    new: &Option<NewPoint>,
    beside: &RowSet,
    several: &RowSet,
    keys: &[u32],
    sets: &[KeptSet],
) -> bool
    requires at_most { form.now.n ≤ most_rows }
    requires weights { length weights.now ≡ form.now.n }
    requires new { IsNewPoint weights.now list.now new.now }
    requires beside { beside.now.n ≡ form.now.n }
    requires several { several.now.n ≡ form.now.n }
    requires keys { length keys.now ≡ form.now.n }
    requires each { (j : ℕ) → j < form.now.n → Matters beside.now.list several.now.list j → HasKey form.now weights.now list.now (unit_row form.now.n j) (slice_index_or keys.now j 0) }
    requires sets { AllByRecursion (IsKeptOf form.now) sets.now }
    ensures { IsTrue result → TellSurelyNone form.now weights.now list.now beside.now.list several.now.list (map (λ s. s.rows.list) sets.now) }
{
    let mut seen = Seen::new();
    are_columns_apart(keys, beside, several, &mut seen)
        && are_sets_unseen(form, weights, list, new, sets, &seen)
}
