//! Whether what is guarded is within reach of a form with a new row. The form isn't built: each row's list, cleared at the new row's pivot,
//! tells at which columns it isn't 0, and so how many rows a direction of each free column has.
ghost use Rattle.std.specs.Prelude.{◌≡◌, ◌≢◌, ◌↔◌, ℕ, ◌<◌, ◌≤◌, ◌+◌, ◌^◌, cond, ℤ, pos, ◌+ℤ◌, ◌-ℤ◌, ◌*ℤ◌, List, [], ◌∷◌, length, map, unsigned_abs, All, IfOk, IsTrue, slice_index_or, false, true};
ghost use Rattle.std.specs.List.{AllByRecursion};
ghost use Rattle.std.specs.Vec.{vec_capacity};
ghost use Rattle.sum_basis.specs.Limits.{most_remainder};
ghost use Rattle.audit_types.specs.Limits.{most_rows};
ghost use Rattle.audit_types.specs.Truth.{number_at};
ghost use Rattle.audit_types.specs.Rows.{has_row};
ghost use Rattle.audit_types.specs.Form.{pivot};
ghost use Rattle.audit_types.specs.Direction.{is_pivot};
ghost use Rattle.audit_types.specs.Truth.{sum_over};
ghost use Rattle.sum_basis.specs.Elimination.{IsZeroAtPivots};
ghost use Rattle.sum_basis.specs.Holding.{AreKeptCounts};
ghost use Rattle.sum_basis.specs.Reach.{IsNear, IsReached, IsLeftOverOrNone, ReachesAll, IsGrownBy, AreSmallEntries, AreCounts, one_if, without_new, count_with, times_of, rest_at};
ghost use Rattle.sum_basis.specs.Sparse.{entry_at, row_of, IsListed, IsNew};

use crate::cleared_list::value_at;
use crate::counting::{are_below, are_surely_below, count_grown, counts_of, times_at};
use crate::elimination::write_set;
use crate::form::Form;
use crate::merging::combine_into;
use crate::sparse::FreeEntry;
use crate::wide_entry::WideEntry;
use audit_types::{MOST_ROWS, NoMemory, RowSet};
use std::alloc::Global;

// Whether a list is empty, or has an entry at a column with a count below the reach.
fn is_near(counts: &[u16], reach: u16, entries: &[FreeEntry]) -> bool
    requires { IsListed 0 (length counts.now) entries.now }
    ensures { IsTrue result ↔ IsNear counts.now reach (entry_at entries.now) }
{
    if entries.is_empty() {
        return true;
    }
    for e in entries {
        if counts[e.place as usize] < reach {
            return true;
        }
    }
    false
}

// The same of a list that was combined.
fn is_combined_near(counts: &[u16], reach: u16, entries: &[WideEntry]) -> bool
    requires { IsListed 0 (length counts.now) entries.now }
    ensures { IsTrue result ↔ IsNear counts.now reach (entry_at entries.now) }
{
    if entries.is_empty() {
        return true;
    }
    for e in entries {
        let place = e.place() as usize;
        if counts[place] < reach {
            return true;
        }
    }
    false
}

// Writes the list of a row of the form, given by its entries at free columns, cleared by the new list.
fn clear_entries(
    room: &mut Vec<WideEntry>,
    columns: u16,
    free: &[FreeEntry],
    new: &[FreeEntry],
    times: i128,
)
    requires room { columns ≤ vec_capacity room.old }
    requires free { AreSmallEntries columns free.now }
    requires new { AreSmallEntries columns new.now }
    requires times { times ≡ times_of new.now (entry_at free.now) }
    requires some { times ≢ pos 0 }
    ensures listed { IsListed 0 columns room.new.items }
    ensures cleared { (j : ℕ) → entry_at room.new.items j ≡ without_new new.now (entry_at free.now) j }
    ensures room { columns ≤ vec_capacity room.new }
{
    room.clear();
    let by = new[0].number();
    combine_into(room, columns, &by, free, &times, new);
}

// Whether a row of the form, cleared, is near.
fn is_near_row(
    counts: &[u16],
    reach: u16,
    columns: u16,
    free: &[FreeEntry],
    new: &[FreeEntry],
    room: &mut Vec<WideEntry>,
) -> bool
    requires counts { columns ≡ length counts.now }
    requires room { columns ≤ vec_capacity room.old }
    requires free { AreSmallEntries columns free.now }
    requires new { AreSmallEntries columns new.now }
    ensures near { IsTrue result ↔ IsNear counts.now reach (without_new new.now (entry_at free.now)) }
    ensures room { columns ≤ vec_capacity room.new }
{
    let times = times_at(free, new);
    if times == 0 {
        return is_near(counts, reach, free);
    }
    clear_entries(room, columns, free, new, times);
    is_combined_near(counts, reach, room)
}

// Whether the number at each pivot that isn't shared is within reach.
fn are_rows_near(
    form: &Form,
    counts: &[u16],
    reach: u16,
    shared: &RowSet,
    new: &[FreeEntry],
    room: &mut Vec<WideEntry>,
) -> bool
    requires shared { shared.now.n ≡ form.now.n }
    requires room { form.now.n ≤ vec_capacity room.old }
    requires new { IsLeftOverOrNone form.now new.now }
    requires counts { form.now.n ≡ length counts.now }
    requires counted { (grown : List (List ℤ)) → IsGrownBy form.now new.now grown → AreCounts form.now.n grown counts.now }
    ensures near { (grown : List (List ℤ)) → IsGrownBy form.now new.now grown → IsTrue result ↔ ((k : ℕ) → k < length form.now.rows → has_row shared.now.list (pivot (slice_index_or form.now.rows k [])) ≡ false → IsReached form.now.n reach grown (λ w. number_at w (pivot (slice_index_or form.now.rows k [])))) }
    ensures room { form.now.n ≤ vec_capacity room.new }
{
    let columns = form.columns();
    for k in 0..form.rank() {
        if !shared.has(form.pivot(k))
            && !is_near_row(counts, reach, columns, form.free(k), new, room)
        {
            return false;
        }
    }
    true
}

// Whether each column that isn't shared has a count below the reach.
fn are_columns_near(counts: &[u16], reach: u16, shared: &RowSet) -> bool
    requires n { shared.now.n ≡ length counts.now }
    ensures { IsTrue result ↔ ((j : ℕ) → j < length counts.now → has_row shared.now.list j ≡ false → slice_index_or counts.now j 0 < reach) }
{
    for j in 0..shared.n() {
        if counts[j as usize] >= reach && !shared.has(j) {
            return false;
        }
    }
    true
}

// Whether the new row is near, if its pivot isn't shared.
fn is_new_near(counts: &[u16], reach: u16, shared: &RowSet, new: &[FreeEntry]) -> bool
    requires n { shared.now.n ≡ length counts.now }
    requires listed { IsListed 0 (length counts.now) new.now }
    ensures { IsTrue result ↔ ((has_row shared.now.list (slice_index_or new.now 0 (record { place = 0; value = pos 0 })).place ≡ false) → IsNear counts.now reach (rest_at new.now)) }
{
    if new.is_empty() || shared.has(new[0].place) {
        return true;
    }
    is_near(counts, reach, &new[1..])
}

// A large number by two smaller ones: `high` times 2 ^ 62, and `low`.
#[derive(Clone, Copy)]
struct Parts {
    high: i128,
    low: i128,
}

fn parts_of(x: i128) -> Parts
    requires { unsigned_abs x < 2 ^ 126 }
    ensures is { x ≡ result.high *ℤ pos (2 ^ 62) +ℤ result.low }
    ensures high { unsigned_abs result.high ≤ 2 ^ 64 }
    ensures low { unsigned_abs result.low < 2 ^ 62 }
{
    Parts {
        high: x / 4_611_686_018_427_387_904,
        low: x % 4_611_686_018_427_387_904,
    }
}

// `by * x - times * y`.
fn wide_difference(by: i128, x: i128, times: i128, y: i128) -> i128
    requires by { unsigned_abs by ≤ 2 ^ 56 }
    requires x { unsigned_abs x ≤ 2 ^ 64 }
    requires times { unsigned_abs times ≤ 2 ^ 56 }
    requires y { unsigned_abs y ≤ 2 ^ 64 }
    ensures exact { result ≡ by *ℤ x -ℤ times *ℤ y }
    ensures small { unsigned_abs result ≤ 2 ^ 121 }
{
    by * x - times * y
}

// Whether both numbers are 0.
fn are_zero(x: i128, y: i128) -> bool
    ensures { IsTrue result ↔ ((x ≡ pos 0) × (y ≡ pos 0)) }
{
    x == 0 && y == 0
}

// Whether two products are equal, of which one factor each may be large.
fn are_equal_products(by: i128, x: i128, times: i128, y: i128) -> bool
    requires by { unsigned_abs by ≤ 2 ^ 56 }
    requires x { unsigned_abs x < 2 ^ 126 }
    requires times { unsigned_abs times ≤ 2 ^ 56 }
    requires y { unsigned_abs y < 2 ^ 126 }
    ensures { IsTrue result ↔ (by *ℤ x -ℤ times *ℤ y ≡ pos 0) }
{
    let first = parts_of(x);
    let second = parts_of(y);
    let high = wide_difference(by, first.high, times, second.high);
    let low = parts_of(wide_difference(by, first.low, times, second.low));
    are_zero(high + low.high, low.low)
}

// Whether a row isn't 0 at a column when it is cleared by the new list.
fn is_met(row: &[i128], new: &[FreeEntry], place: u16) -> bool
    requires place { place < length row.now }
    requires at_most { length row.now ≤ most_rows }
    requires small { (j : ℕ) → unsigned_abs (number_at row.now j) < most_remainder }
    requires new { AreSmallEntries (length row.now) new.now }
    ensures { IsTrue result ↔ (without_new new.now (number_at row.now) place ≢ pos 0) }
{
    if new.is_empty() {
        return row[place as usize] != 0;
    }
    let first = new[0];
    !are_equal_products(
        first.number(),
        row[place as usize],
        value_at(new, place),
        row[first.place as usize],
    )
}

// Whether a whole row is near when it is cleared by the new list.
fn is_near_whole(counts: &[u16], reach: u16, row: &[i128], new: &[FreeEntry]) -> bool
    requires counts { length counts.now ≡ length row.now }
    requires at_most { length row.now ≤ most_rows }
    requires small { (j : ℕ) → unsigned_abs (number_at row.now j) < most_remainder }
    requires new { AreSmallEntries (length row.now) new.now }
    ensures { IsTrue result ↔ IsNear counts.now reach (without_new new.now (number_at row.now)) }
{
    let mut met = false;
    for j in 0..row.len() as u16 {
        if is_met(row, new, j) {
            if counts[j as usize] < reach {
                return true;
            }
            met = true;
        }
    }
    !met
}

// Whether the total of each of these sets is within reach.
fn are_sets_near(
    form: &Form,
    counts: &[u16],
    reach: u16,
    row: &mut [i128],
    new: &[FreeEntry],
    sets: &[RowSet],
) -> bool
    requires length { length row.old ≡ form.now.n }
    requires at_most { form.now.n ≤ most_rows }
    requires same_n { All (λ s. s.n ≡ form.now.n) sets.now }
    requires new { IsLeftOverOrNone form.now new.now }
    requires counts { length counts.now ≡ form.now.n }
    requires counted { (grown : List (List ℤ)) → IsGrownBy form.now new.now grown → AreCounts form.now.n grown counts.now }
    ensures { (grown : List (List ℤ)) → IsGrownBy form.now new.now grown → IsTrue result ↔ All (λ s. IsReached form.now.n reach grown (λ w. sum_over w s.list)) sets.now }
{
    for set in sets {
        // A set says of itself that its rows are rows of the table.
        let _ = set.n();
        write_set(row, set);
        form.remainder(row);
        if !is_near_whole(counts, reach, row, new) {
            return false;
        }
    }
    true
}

// Whether the total of each of these sets is within reach, by a whole row for each.
fn are_totals_near(
    form: &Form,
    counts: &[u16],
    reach: u16,
    new: &[FreeEntry],
    sets: &[RowSet],
) -> bool
    requires at_most { form.now.n ≤ most_rows }
    requires same_n { All (λ s. s.n ≡ form.now.n) sets.now }
    requires new { IsLeftOverOrNone form.now new.now }
    requires counts { length counts.now ≡ form.now.n }
    requires counted { (grown : List (List ℤ)) → IsGrownBy form.now new.now grown → AreCounts form.now.n grown counts.now }
    ensures { (grown : List (List ℤ)) → IsGrownBy form.now new.now grown → IsTrue result ↔ All (λ s. IsReached form.now.n reach grown (λ w. sum_over w s.list)) sets.now }
{
    let mut whole = [0; MOST_ROWS as usize];
    let row = &mut whole[..form.columns() as usize];
    are_sets_near(form, counts, reach, row, new, sets)
}

// Whether all that is guarded is within reach of the form with a new list, by its counts. If all of them are below the reach, no row is
// looked at.
fn is_within(
    form: &Form,
    new: &[FreeEntry],
    counts: &[u16],
    reach: u16,
    shared: &RowSet,
    sets: &[RowSet],
    room: &mut Vec<WideEntry>,
) -> bool
    requires counts { length counts.now ≡ form.now.n }
    requires counted { (grown : List (List ℤ)) → IsGrownBy form.now new.now grown → AreCounts form.now.n grown counts.now }
    requires at_most { form.now.n ≤ most_rows }
    requires reach { 0 < reach }
    requires shared { shared.now.n ≡ form.now.n }
    requires same_n { All (λ s. s.n ≡ form.now.n) sets.now }
    requires new { IsLeftOverOrNone form.now new.now }
    requires room { form.now.n ≤ vec_capacity room.old }
    ensures { (grown : List (List ℤ)) → IsGrownBy form.now new.now grown → IsTrue result ↔ ReachesAll form.now.n reach shared.now.list (map (λ s. s.list) sets.now) grown }
{
    // What every form is: its rows are a form.
    let _ = form.columns();
    if are_below(counts, reach) {
        return true;
    }
    if !are_columns_near(counts, reach, shared) {
        return false;
    }
    if !is_new_near(counts, reach, shared, new) {
        return false;
    }
    if !are_rows_near(form, counts, reach, shared, new, room) {
        return false;
    }
    if sets.is_empty() {
        return true;
    }
    are_totals_near(form, counts, reach, new, sets)
}

// Whether all that is guarded is within reach of the form with a new list, by the counts of the form as it is. They are brought up to date
// only where bounds don't show that it is.
fn is_within_counted(
    form: &Form,
    alloc: Global,
    before: &[u16],
    new: &[FreeEntry],
    reach: u16,
    shared: &RowSet,
    sets: &[RowSet],
) -> Result<bool, NoMemory>
    requires at_most { form.now.n ≤ most_rows }
    requires before { AreCounts form.now.n form.now.rows before.now }
    requires reach { 0 < reach }
    requires shared { shared.now.n ≡ form.now.n }
    requires same_n { All (λ s. s.n ≡ form.now.n) sets.now }
    requires new { IsLeftOverOrNone form.now new.now }
    ensures { IfOk result (λ within. (grown : List (List ℤ)) → IsGrownBy form.now new.now grown → IsTrue within ↔ ReachesAll form.now.n reach shared.now.list (map (λ s. s.list) sets.now) grown) }
{
    let columns = form.columns() as usize;
    // What every form is: it has no more rows than columns.
    let _ = form.rank();
    if are_surely_below(before, reach, new) {
        return Ok(true);
    }
    let mut counts = before.to_vec(alloc)?;
    count_grown(form, &mut counts, new);
    let mut room = Vec::with_capacity(alloc, columns)?;
    Ok(is_within(form, new, &counts, reach, shared, sets, &mut room))
}

// The same, if the form isn't counted yet.
fn is_within_after(
    form: &Form,
    alloc: Global,
    new: &[FreeEntry],
    reach: u16,
    shared: &RowSet,
    sets: &[RowSet],
) -> Result<bool, NoMemory>
    requires at_most { form.now.n ≤ most_rows }
    requires reach { 0 < reach }
    requires shared { shared.now.n ≡ form.now.n }
    requires same_n { All (λ s. s.n ≡ form.now.n) sets.now }
    requires new { IsLeftOverOrNone form.now new.now }
    ensures { IfOk result (λ within. (grown : List (List ℤ)) → IsGrownBy form.now new.now grown → IsTrue within ↔ ReachesAll form.now.n reach shared.now.list (map (λ s. s.list) sets.now) grown) }
{
    let counts = counts_of(form, alloc)?;
    is_within_counted(form, alloc, &counts, new, reach, shared, sets)
}

/// Whether all that is guarded is within reach of the form with a new list, or as it is if the list is empty: the number of each row that
/// isn't shared, and the total of each of these sets. It takes less time if the counts of the form are kept.
pub(crate) fn is_within_kept(
    form: &Form,
    alloc: Global,
    kept: &Option<Vec<u16>>,
    new: &[FreeEntry],
    reach: u16,
    shared: &RowSet,
    sets: &[RowSet],
) -> Result<bool, NoMemory>
    requires at_most { form.now.n ≤ most_rows }
    requires kept { AreKeptCounts form.now kept.now }
    requires reach { 0 < reach }
    requires shared { shared.now.n ≡ form.now.n }
    requires same_n { All (λ s. s.n ≡ form.now.n) sets.now }
    requires new { IsLeftOverOrNone form.now new.now }
    ensures { IfOk result (λ within. (grown : List (List ℤ)) → IsGrownBy form.now new.now grown → IsTrue within ↔ ReachesAll form.now.n reach shared.now.list (map (λ s. s.list) sets.now) grown) }
{
    match kept {
        Some(counts) => is_within_counted(form, alloc, counts, new, reach, shared, sets),
        None => is_within_after(form, alloc, new, reach, shared, sets),
    }
}
