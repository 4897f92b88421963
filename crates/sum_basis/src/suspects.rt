//! Whether it is sure that a form with a new list tells an asker something, by rows with one key.
//!
//! Two columns with one key are mostly tied, and then it is enough to look at the two: the form with the list need not be made. So it is with
//! a set and a column.
ghost use Rattle.std.specs.Prelude.{◌≡◌, ◌≢◌, ◌⊎◌, ℕ, ◌<◌, ◌≤◌, true, false, List, length, map, IfOk, IfSome, IsTrue};
ghost use Rattle.std.specs.List.{AllByRecursion};
ghost use Rattle.audit_types.specs.Limits.{most_rows};
ghost use Rattle.audit_types.specs.Rows.{has_row};
ghost use Rattle.sum_basis.specs.Alike.{AreColumnsAlike, IsSetAlike, TiesSurely, SpansSurely};
ghost use Rattle.sum_basis.specs.Holding.{IsKeptOf};
ghost use Rattle.sum_basis.specs.Keys.{IsNewPoint};
ghost use Rattle.sum_basis.specs.Reach.{IsLeftOverOrNone};
ghost use Rattle.sum_basis.specs.Ties.{MayTell};

use crate::alike::{are_alike, list_of_column};
use crate::form::Form;
use crate::keeping::KeptSet;
use crate::points::{NewPoint, Point};
use crate::seen::Seen;
use crate::sparse::FreeEntry;
use crate::telling::key_of;
use crate::ties::may_tell;
use audit_types::{NoMemory, RowSet};
use std::alloc::Global;

// Whether what the form with the list leaves of the two columns is surely a multiple of one list.
fn are_columns_alike(
    form: &Form,
    alloc: Global,
    list: &[FreeEntry],
    p: u16,
    q: u16,
) -> Result<bool, NoMemory>
    requires list { IsLeftOverOrNone form.now list.now }
    requires p { p < form.now.n }
    requires q { q < form.now.n }
    ensures { IfOk result (λ alike. IsTrue alike → AreColumnsAlike form.now list.now p q) }
{
    // What every form is: its rows are a form.
    let columns = form.columns();
    let first = list_of_column(form, alloc, p)?;
    let second = list_of_column(form, alloc, q)?;
    are_alike(alloc, columns, &first, &second, list)
}

// The first column that may be an asker's own whose key may have been seen. The keys before it are seen then.
fn suspect_asker(keys: &[u32], several: &RowSet, seen: &mut Seen) -> Option<u16>
    requires { several.now.n ≡ length keys.now }
    ensures { IfSome result (λ q. q < length keys.now) }
{
    for q in 0..several.n() {
        if several.has(q) {
            continue;
        }
        if seen.has(keys[q as usize]) {
            return Some(q);
        }
        seen.add(keys[q as usize]);
    }
    None
}

// The first column that may be told, and is no asker's own, whose key may have been seen.
fn suspect_other(keys: &[u32], beside: &RowSet, several: &RowSet, seen: &Seen) -> Option<u16>
    requires beside { beside.now.n ≡ length keys.now }
    requires several { several.now.n ≡ length keys.now }
    ensures { IfSome result (λ q. q < length keys.now) }
{
    for q in 0..beside.n() {
        if several.has(q) && !beside.has(q) && seen.has(keys[q as usize]) {
            return Some(q);
        }
    }
    None
}

// A column whose key may be that of another one.
fn suspect(keys: &[u32], beside: &RowSet, several: &RowSet) -> Option<u16>
    requires beside { beside.now.n ≡ length keys.now }
    requires several { several.now.n ≡ length keys.now }
    ensures { IfSome result (λ q. q < length keys.now) }
{
    let mut seen = Seen::new();
    if let Some(q) = suspect_asker(keys, several, &mut seen) {
        return Some(q);
    }
    suspect_other(keys, beside, several, &seen)
}

// Another column with the key of this one, if the number at one of the two may tell that at the other.
fn with_same_key(keys: &[u32], beside: &RowSet, several: &RowSet, q: u16) -> Option<u16>
    requires beside { beside.now.n ≡ length keys.now }
    requires several { several.now.n ≡ length keys.now }
    requires q { q < length keys.now }
    ensures { IfSome result (λ p. (p < length keys.now) × (q ≢ p) × MayTell beside.now.list several.now.list p q) }
{
    let key = keys[q as usize];
    for p in 0..beside.n() {
        if keys[p as usize] == key && q != p && may_tell(p, q, beside, several) {
            return Some(p);
        }
    }
    None
}

// The column that may be an asker's own and has this key, if there is one.
fn asker_with_key(keys: &[u32], several: &RowSet, key: u32) -> Option<u16>
    requires { several.now.n ≡ length keys.now }
    ensures { IfSome result (λ q. (q < length keys.now) × (has_row several.now.list q ≡ false)) }
{
    for q in 0..several.n() {
        if keys[q as usize] == key && !several.has(q) {
            return Some(q);
        }
    }
    None
}

// A row of the set other than this one, if there is one.
fn other_row(set: &RowSet, q: u16) -> Option<u16>
    ensures { IfSome result (λ row. (has_row set.now.list row ≡ true) × (row ≢ q)) }
{
    for row in 0..set.n() {
        if row != q && set.has(row) {
            return Some(row);
        }
    }
    None
}

// Whether what the form with the list leaves of the set's row, if that is kept, and of a column that may be an asker's own is surely a multiple
// of one list.
fn is_set_alike(
    form: &Form,
    alloc: Global,
    weights: &[Point],
    list: &[FreeEntry],
    new: &Option<NewPoint>,
    several: &RowSet,
    keys: &[u32],
    set: &KeptSet,
) -> Result<bool, NoMemory>
    requires at_most { form.now.n ≤ most_rows }
    requires weights { length weights.now ≡ form.now.n }
    requires list { IsLeftOverOrNone form.now list.now }
    requires new { IsNewPoint weights.now list.now new.now }
    requires several { several.now.n ≡ form.now.n }
    requires keys { length keys.now ≡ form.now.n }
    requires set { IsKeptOf form.now set.now }
    ensures { IfOk result (λ alike. IsTrue alike → IsSetAlike form.now list.now several.now.list set.now.rows.list) }
{
    // What every form is: its rows are a form.
    let columns = form.columns();
    let Some(entries) = &set.list else {
        return Ok(false);
    };
    let Some(key) = key_of(weights, list, new, entries) else {
        return Ok(false);
    };
    let Some(q) = asker_with_key(keys, several, key) else {
        return Ok(false);
    };
    let Some(_) = other_row(&set.rows, q) else {
        return Ok(false);
    };
    let own = list_of_column(form, alloc, q)?;
    are_alike(alloc, columns, entries, &own, list)
}

// Whether that is so with one of the sets.
fn is_one_set_alike(
    form: &Form,
    alloc: Global,
    weights: &[Point],
    list: &[FreeEntry],
    new: &Option<NewPoint>,
    several: &RowSet,
    keys: &[u32],
    sets: &[KeptSet],
) -> Result<bool, NoMemory>
    requires at_most { form.now.n ≤ most_rows }
    requires weights { length weights.now ≡ form.now.n }
    requires list { IsLeftOverOrNone form.now list.now }
    requires new { IsNewPoint weights.now list.now new.now }
    requires several { several.now.n ≡ form.now.n }
    requires keys { length keys.now ≡ form.now.n }
    requires sets { AllByRecursion (IsKeptOf form.now) sets.now }
    ensures { IfOk result (λ alike. IsTrue alike → SpansSurely form.now list.now several.now.list (map (λ s. s.rows.list) sets.now)) }
{
    for set in sets {
        if is_set_alike(form, alloc, weights, list, new, several, keys, set)? {
            return Ok(true);
        }
    }
    Ok(false)
}

// Whether two columns of which the one may tell the other have one key, and are surely tied.
fn are_two_columns_alike(
    form: &Form,
    alloc: Global,
    list: &[FreeEntry],
    beside: &RowSet,
    several: &RowSet,
    keys: &[u32],
) -> Result<bool, NoMemory>
    requires list { IsLeftOverOrNone form.now list.now }
    requires beside { beside.now.n ≡ form.now.n }
    requires several { several.now.n ≡ form.now.n }
    requires keys { length keys.now ≡ form.now.n }
    ensures { IfOk result (λ tied. IsTrue tied → TiesSurely form.now list.now beside.now.list several.now.list) }
{
    let Some(q) = suspect(keys, beside, several) else {
        return Ok(false);
    };
    let Some(p) = with_same_key(keys, beside, several, q) else {
        return Ok(false);
    };
    are_columns_alike(form, alloc, list, p, q)
}

/// Whether it is sure, by rows with one key, that the form with the list tells somebody who knows the number of a row that isn't in the second
/// set that of another one that isn't in the first, or the total of one of the sets.
pub(crate) fn tells_surely(
    form: &Form,
    alloc: Global,
    weights: &[Point],
    list: &[FreeEntry],
    new: &Option<NewPoint>,
    beside: &RowSet,
    several: &RowSet,
    keys: &[u32],
    sets: &[KeptSet],
) -> Result<bool, NoMemory>
    requires at_most { form.now.n ≤ most_rows }
    requires weights { length weights.now ≡ form.now.n }
    requires list { IsLeftOverOrNone form.now list.now }
    requires new { IsNewPoint weights.now list.now new.now }
    requires beside { beside.now.n ≡ form.now.n }
    requires several { several.now.n ≡ form.now.n }
    requires keys { length keys.now ≡ form.now.n }
    requires sets { AllByRecursion (IsKeptOf form.now) sets.now }
    ensures { IfOk result (λ tells. IsTrue tells → TiesSurely form.now list.now beside.now.list several.now.list ⊎ SpansSurely form.now list.now several.now.list (map (λ s. s.rows.list) sets.now)) }
{
    if are_two_columns_alike(form, alloc, list, beside, several, keys)? {
        return Ok(true);
    }
    is_one_set_alike(form, alloc, weights, list, new, several, keys, sets)
}
