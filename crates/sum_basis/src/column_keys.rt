//! The points and keys of columns, kept from one question to the next.
//!
//! What a form leaves of the unit row of a column stays as it is when a row joins the form that is 0 there, and so do its point and its key: only
//! those of the other columns are worked out anew.
ghost use Rattle.std.specs.Prelude.{◌≡◌, ◌≢◌, ℕ, ◌+◌, ◌<◌, ◌≤◌, false, [], ◌∷◌, ◌++◌, length, Contains, IfOk, OnOk, IsTrue, slice_index_or};
ghost use Rattle.std.specs.List.{AllByRecursion};
ghost use Rattle.audit_types.specs.Limits.{most_rows};
ghost use Rattle.audit_types.specs.Rows.{has_row};
ghost use Rattle.sum_basis.specs.Growth.{IsLeftOver};
ghost use Rattle.audit_types.specs.Form.{pivot};
ghost use Rattle.sum_basis.specs.Keys.{AreWeights, AreColumnKeys, AreColumnPoints, AreForeseen, AreUnknownPoints, IsColumnPoint, IsKeyAmong, IsNewPoint, MayHaveKey, point_at};
ghost use Rattle.sum_basis.specs.Points.{modulus};

use crate::cleared_list::product;
use crate::counting::{is_zero, times_at};
use crate::form::Form;
use crate::keys::keys_of;
use crate::points::{MODULUS, NewPoint, Point, new_point, point_after, point_of};
use crate::sparse::FreeEntry;
use audit_types::{NoMemory, RowSet};
use std::alloc::Global;

/// Two weights of each column, the point and the key of what a form leaves of its unit row, and the columns of which these aren't known.
#[derive(Drop)]
pub(crate) struct ColumnKeys {
    pub weights: Vec<Point>,
    pub points: Vec<Point>,
    // The pivot entry of a row with which the point of its pivot is right, whether or not that is known.
    pub heads: Vec<i128>,
    pub keys: Vec<u32>,
    pub unknown: RowSet,
}

/// Some columns, each with a point.
#[derive(Drop)]
pub(crate) struct SomePoints {
    pub columns: Vec<u16>,
    pub points: Vec<Point>,
}

// A number that looks as if it was drawn, so that lists that aren't multiples of one another seldom have equal keys.
fn mixed(number: u32) -> u32
    ensures { result < modulus }
{
    let spread = (number as u64 + 1).wrapping_mul(0x9e37_79b9_7f4a_7c15);
    let first = (spread ^ (spread >> 30)).wrapping_mul(0xbf58_476d_1ce4_e5b9);
    let second = (first ^ (first >> 27)).wrapping_mul(0x94d0_49bb_1331_11eb);
    ((second ^ (second >> 31)) % MODULUS as u64) as u32
}

// The weights of a column.
fn weights_at(column: u16) -> Point
    ensures first { result.first < modulus }
    ensures second { result.second < modulus }
{
    let column = column as u32;
    Point {
        first: mixed(2 * column),
        second: mixed(2 * column + 1),
    }
}

fn weights_of(alloc: Global, columns: u16) -> Result<Vec<Point>, NoMemory>
    ensures { IfOk result (λ weights. AreWeights columns weights.items) }
{
    let mut weights = Vec::with_capacity(alloc, columns as usize)?;
    for column in 0..columns {
        weights.push(weights_at(column))?;
    }
    Ok(weights)
}

/// Weights for the form's columns. No point or key is known yet.
pub(crate) fn column_keys_of(form: &Form, alloc: Global) -> Result<ColumnKeys, NoMemory>
    requires { form.now.n ≤ most_rows }
    ensures { IfOk result (AreColumnKeys form.now) }
{
    let columns = form.columns();
    let weights = weights_of(alloc, columns)?;
    let points = weights.to_vec(alloc)?;
    let heads = vec![in alloc; 0; columns as usize]?;
    let keys = vec![in alloc; 0; columns as usize]?;
    let mut unknown = RowSet::new(columns);
    unknown.flip();
    Ok(ColumnKeys {
        weights,
        points,
        heads,
        keys,
        unknown,
    })
}

// Foresees the point of a pivot, if the new list touches its row, and forgets its key: the point is right if the row isn't divided by anything.
fn foresee(form: &Form, k: u16, list: &[FreeEntry], new: &Option<NewPoint>, kept: &mut ColumnKeys)
    requires k { k < length form.now.rows }
    requires at_most { form.now.n ≤ most_rows }
    requires list { IsLeftOver form.now list.now }
    requires new { IsNewPoint kept.old.weights.items list.now new.now }
    requires kept { AreForeseen form.now list.now k kept.old }
    ensures weights { kept.new.weights ≡ kept.old.weights }
    ensures kept { AreForeseen form.now list.now (k + 1) kept.new }
{
    // What every form is: its rows are a form.
    let _ = form.columns();
    let value = times_at(form.free(k), list);
    if is_zero(value) {
        return;
    }
    let pivot = form.pivot(k);
    let place = pivot as usize;
    if kept.unknown.has(pivot) {
        kept.heads[place] = 0;
        return;
    }
    kept.points[place] = point_after(new, kept.points[place], value);
    kept.heads[place] = product(list[0].number(), form.entry(k, pivot));
    kept.unknown.add(pivot);
}

/// Forgets what is kept of the columns of which the form leaves something at the first place of a new list, and foresees the points of the pivots
/// among them.
pub(crate) fn forget_touched(form: &Form, kept: &mut ColumnKeys, list: &[FreeEntry])
    requires at_most { form.now.n ≤ most_rows }
    requires kept { AreColumnKeys form.now kept.old }
    requires list { IsLeftOver form.now list.now }
    ensures { AreForeseen form.now list.now (length form.now.rows) kept.new }
{
    // What every form is: its rows are a form.
    let _ = form.columns();
    let place = list[0].place;
    let new = new_point(&kept.weights, list);
    kept.heads[place as usize] = 0;
    kept.unknown.add(place);
    for k in 0..form.rank() {
        foresee(form, k, list, &new, kept);
    }
}

// Works out the point of a pivot, if it is neither known nor was foreseen rightly.
fn renew_point(form: &Form, k: u16, kept: &mut ColumnKeys)
    requires k { k < length form.now.rows }
    requires kept { AreColumnKeys form.now kept.old }
    ensures kept { AreColumnKeys form.now kept.new }
    ensures weights { kept.new.weights ≡ kept.old.weights }
    ensures point { IsColumnPoint form.now kept.new.weights.items (pivot (slice_index_or form.now.rows k [])) (point_at kept.new.points.items (pivot (slice_index_or form.now.rows k []))) }
    ensures others { (q : ℕ) → q ≢ pivot (slice_index_or form.now.rows k []) → point_at kept.new.points.items q ≡ point_at kept.old.points.items q }
{
    // What every form is: its rows are a form.
    let _ = form.columns();
    let pivot = form.pivot(k);
    let free = form.free(k);
    if !kept.unknown.has(pivot) {
        return;
    }
    if kept.heads[pivot as usize] == form.entry(k, pivot) {
        return;
    }
    kept.points[pivot as usize] = point_of(&kept.weights, free);
}

// Works out the points of the pivots whose points aren't known.
fn renew_points(form: &Form, kept: &mut ColumnKeys)
    requires { AreColumnKeys form.now kept.old }
    ensures kept { AreColumnKeys form.now kept.new }
    ensures points { AreColumnPoints form.now kept.new }
{
    // What every form is: its rows are a form.
    let _ = form.columns();
    for k in 0..form.rank() {
        renew_point(form, k, kept);
    }
}

impl SomePoints {
    /// No columns. It takes no memory yet.
    pub fn new(alloc: Global) -> SomePoints
        ensures columns { result.columns.items ≡ [] }
        ensures points { result.points.items ≡ [] }
    {
        SomePoints {
            columns: Vec::new(alloc),
            points: Vec::new(alloc),
        }
    }

    /// Adds a column with its point.
    pub fn push(&mut self, column: u16, point: Point) -> Result<(), NoMemory>
        ensures columns { OnOk result (self.new.columns.items ≡ self.old.columns.items ++ column ∷ []) }
        ensures points { OnOk result (self.new.points.items ≡ self.old.points.items ++ point ∷ []) }
    {
        self.columns.push(column)?;
        self.points.push(point)?;
        Ok(())
    }
}

// Adds an unknown column, if its point may have a key.
fn push_if_unknown(kept: &ColumnKeys, column: u16, some: &mut SomePoints) -> Result<(), NoMemory>
    requires column { column < kept.now.unknown.n }
    requires points { length kept.now.points.items ≡ kept.now.unknown.n }
    requires some { AreUnknownPoints kept.now column some.old.columns.items some.old.points.items }
    ensures { OnOk result (AreUnknownPoints kept.now (column + 1) some.new.columns.items some.new.points.items) }
{
    if !kept.unknown.has(column) {
        return Ok(());
    }
    let point = kept.points[column as usize];
    if point.second == 0 {
        return Ok(());
    }
    some.push(column, point)
}

// The unknown columns whose points may have keys, with these points.
fn unknown_points(kept: &ColumnKeys, alloc: Global) -> Result<SomePoints, NoMemory>
    requires { length kept.now.points.items ≡ kept.now.unknown.n }
    ensures { IfOk result (λ some. AreUnknownPoints kept.now kept.now.unknown.n some.columns.items some.points.items) }
{
    let mut some = SomePoints::new(alloc);
    for column in 0..kept.unknown.n() {
        push_if_unknown(kept, column, &mut some)?;
    }
    Ok(some)
}

// Adds an unknown column, if its point has no key.
fn add_if_keyless(kept: &ColumnKeys, column: u16, keyless: &mut RowSet)
    requires column { column < kept.now.unknown.n }
    requires n { keyless.old.n ≡ kept.now.unknown.n }
    requires points { length kept.now.points.items ≡ kept.now.unknown.n }
    ensures n { keyless.new.n ≡ kept.now.unknown.n }
    ensures fewer { (q : ℕ) → q < kept.now.unknown.n → has_row keyless.new.list q ≡ false → has_row keyless.old.list q ≡ false }
    ensures own { has_row keyless.new.list column ≡ false → MayHaveKey kept.now column }
{
    if !kept.unknown.has(column) {
        return;
    }
    if kept.points[column as usize].second != 0 {
        return;
    }
    keyless.add(column);
}

// The unknown columns whose points have no key.
fn without_key(kept: &ColumnKeys) -> RowSet
    requires { length kept.now.points.items ≡ kept.now.unknown.n }
    ensures n { result.n ≡ kept.now.unknown.n }
    ensures others { (q : ℕ) → q < result.n → has_row result.list q ≡ false → MayHaveKey kept.now q }
{
    let mut keyless = RowSet::new(kept.unknown.n());
    for column in 0..kept.unknown.n() {
        add_if_keyless(kept, column, &mut keyless);
    }
    keyless
}

/// Writes the keys of the points at their columns, if all have one.
pub(crate) fn write_keys_of(
    some: &SomePoints,
    keys: &mut [u32],
    alloc: Global,
) -> Result<bool, NoMemory>
    requires each { length some.now.columns.items ≡ length some.now.points.items }
    requires below { AllByRecursion (λ q. q < length keys.old) some.now.columns.items }
    ensures written { IfOk result (λ written. IsTrue written → (q : ℕ) → Contains some.now.columns.items q → IsKeyAmong some.now q (slice_index_or keys.new q 0)) }
    ensures others { (q : ℕ) → ¬ (Contains some.now.columns.items q) → slice_index_or keys.new q 0 ≡ slice_index_or keys.old q 0 }
{
    let mut found = vec![in alloc; 0; some.points.len()]?;
    if !keys_of(&some.points, &mut found) {
        return Ok(false);
    }
    for (k, column) in some.columns.iter().enumerate() {
        keys[*column as usize] = found[k];
    }
    Ok(true)
}

/// Works out the points and keys that aren't known, as far as there are keys.
pub(crate) fn renew_keys(form: &Form, kept: &mut ColumnKeys, alloc: Global) -> Result<(), NoMemory>
    requires { AreColumnKeys form.now kept.old }
    ensures { AreColumnKeys form.now kept.new }
{
    if kept.unknown.is_empty() {
        return Ok(());
    }
    renew_points(form, kept);
    let some = unknown_points(kept, alloc)?;
    if !write_keys_of(&some, &mut kept.keys, alloc)? {
        return Ok(());
    }
    kept.unknown = without_key(kept);
    Ok(())
}
