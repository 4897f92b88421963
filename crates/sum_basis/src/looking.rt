//! What a new row would do to the rows of a form. Nothing is changed.
ghost use Rattle.std.specs.Prelude.{◌≡◌, ◌≢◌, ◌↔◌, ◌⊎◌, ℕ, map, ◌<◌, ◌≤◌, ◌+◌, ◌*◌, ◌^◌, ℤ, pos, ◌<ℤ◌, List, length, IsTrue, MatchOption, unsigned_abs, slice_index_or};
ghost use Rattle.std.specs.Int.{◌∣◌};
ghost use Rattle.std.specs.List.{AllByRecursion};
ghost use Rattle.std.specs.Vec.{vec_capacity};
ghost use Rattle.audit_types.specs.Limits.{most_width};
ghost use Rattle.audit_types.specs.Form.{IsPrimitive, IsLeastCommonMultiple, pivot_entry, pivot_entries};
ghost use Rattle.sum_basis.specs.Basis.{IsWidth};
ghost use Rattle.sum_basis.specs.Elimination.{IsWithin, IsFormWithin, IsZeroAtPivots, IsCleared, IsLone};
ghost use Rattle.sum_basis.specs.Growth.{Foresees, GrowsWide};
ghost use Rattle.sum_basis.specs.Sparse.{entry_at, row_of, rows_of, entries_of, IsKept, IsNew};

use crate::Prospect;
use crate::cleared_list::{bound_of, combine_at_pivot, product, value_at};
use crate::parallel::are_parallel;
use crate::sparse::{FreeEntry, SparseRow};
use crate::wide_entry::WideEntry;
use crate::within_limit::head_within;
use int_rows::lcm_within;

// A row that was cleared: its pivot entry, and whether this is the only one that is not 0.
#[derive(Clone, Copy)]
struct Cleared {
    head: i128,
    lone: bool,
}

// The row cleared at the new row's pivot, which stays as it is. None if an entry is above the width.
fn clear_aside(
    row: &SparseRow,
    columns: u16,
    width: u64,
    new: &[FreeEntry],
    room: &mut Vec<WideEntry>,
) -> Option<Cleared>
    requires width { IsWidth width }
    requires room { columns ≤ vec_capacity room.old }
    requires kept { IsKept columns row.now }
    requires primitive { IsPrimitive columns (row_of columns (entries_of row.now)) }
    requires within { IsWithin width (row_of columns (entries_of row.now)) }
    requires new { IsNew columns new.now }
    requires zero { entry_at new.now row.now.pivot ≡ pos 0 }
    ensures cleared { (made : List ℤ) × IsCleared columns (row_of columns new.now) (row_of columns (entries_of row.now)) made × MatchOption result (¬ (IsWithin width made)) (λ c. IsWithin width made × (c.head ≡ pivot_entry made) × (IsTrue c.lone ↔ IsLone made)) }
    ensures room { columns ≤ vec_capacity room.new }
{
    let times = value_at(&row.free, new[0].place);
    if times == 0 {
        return Some(Cleared {
            head: row.head,
            lone: row.free.is_empty(),
        });
    }
    room.clear();
    let combined = combine_at_pivot(room, columns, row, new, times);
    let head = head_within(combined, room, width)?;
    Some(Cleared {
        head,
        lone: room.is_empty(),
    })
}

// Whether one of the two holds.
fn either(a: bool, b: bool) -> bool
    ensures { IsTrue result ↔ (IsTrue a ⊎ IsTrue b) }
{
    a || b
}

// Tells what the form would become with a new row by clearing each row, and by the multiple of the pivot entries.
fn look_at_each(
    rows: &[SparseRow],
    columns: u16,
    width: u64,
    new: &[FreeEntry],
    room: &mut Vec<WideEntry>,
) -> Prospect
    requires width { IsWidth width }
    requires room { columns ≤ vec_capacity room.old }
    requires kept { AllByRecursion (IsKept columns) rows.now }
    requires form { IsFormWithin width columns (rows_of columns rows.now) }
    requires new { IsNew columns new.now }
    requires new_within { IsWithin width (row_of columns new.now) }
    requires zero { IsZeroAtPivots (rows_of columns rows.now) (row_of columns new.now) }
    ensures foresees { Foresees (record { n = columns; width = width; rows = rows_of columns rows.now }) (row_of columns new.now) result }
    ensures room { columns ≤ vec_capacity room.new }
{
    let mut common = new[0].number();
    let mut fixing = new.len() == 1;
    for row in rows {
        let Some(cleared) = clear_aside(row, columns, width, new, room) else {
            return Prospect::Wide;
        };
        let Some(multiple) = lcm_within(common, cleared.head, width as i128) else {
            return Prospect::Wide;
        };
        common = multiple;
        fixing = either(fixing, cleared.lone);
    }
    if fixing {
        Prospect::Fixing
    } else {
        Prospect::Open
    }
}

// The place of the row with the greatest bound. Nothing rests on it.
fn widest(rows: &[SparseRow]) -> usize {
    let mut place = 0;
    let mut most = 0;
    for (k, row) in rows.iter().enumerate() {
        if row.most > most {
            most = row.most;
            place = k;
        }
    }
    place
}

// Whether the row with the greatest bound has an entry above the width when it is cleared: mostly, if some row has.
fn widest_is_too_large(
    rows: &[SparseRow],
    columns: u16,
    width: u64,
    new: &[FreeEntry],
    room: &mut Vec<WideEntry>,
) -> bool
    requires width { IsWidth width }
    requires room { columns ≤ vec_capacity room.old }
    requires kept { AllByRecursion (IsKept columns) rows.now }
    requires form { IsFormWithin width columns (rows_of columns rows.now) }
    requires new { IsNew columns new.now }
    requires zero { IsZeroAtPivots (rows_of columns rows.now) (row_of columns new.now) }
    ensures wide { IsTrue result → GrowsWide (record { n = columns; width = width; rows = rows_of columns rows.now }) (row_of columns new.now) }
    ensures room { columns ≤ vec_capacity room.new }
{
    let k = widest(rows);
    if k >= rows.len() {
        return false;
    }
    match clear_aside(&rows[k], columns, width, new, room) {
        Some(_) => false,
        None => true,
    }
}

// The greatest size that a multiple of bounded entries can have.
fn weight(times: u128, most: u128) -> u128
    requires times { times ≤ 2 ^ 56 }
    requires most { most ≤ 2 ^ 56 }
    ensures is { result ≡ times * most }
    ensures small { result ≤ 2 ^ 112 }
{
    times * most
}

// The greatest bound of a row for which it is sure that none of its entries, cleared by a row with this pivot entry and this
// bound, is above the width.
fn sure_bound(width: u64, by: i128, most: u128) -> u128
    requires width { width ≤ most_width }
    requires by { (pos 0 <ℤ by) × (unsigned_abs by ≤ 2 ^ 56) }
    ensures { result * (unsigned_abs by + most) ≤ width }
{
    let limit = width as u128;
    if most > limit {
        return 0;
    }
    limit / (by.unsigned_abs() + most)
}

// Whether the bounds show that no entry of the combination is above the width.
fn is_surely_within(width: u64, by: i128, most: u128, times: u128, new_most: u128) -> bool
    requires width { width ≤ most_width }
    requires by { unsigned_abs by ≤ 2 ^ 56 }
    ensures { IsTrue result → unsigned_abs by * most + times * new_most ≤ width }
{
    let limit = width as u128;
    if most > limit || times > limit || new_most > limit {
        return false;
    }
    weight(by.unsigned_abs(), most) + weight(times, new_most) <= limit
}

// Whether the row, cleared at the new row's pivot, has one entry that is not 0. None if an entry is above the width.
fn look_closely(
    row: &SparseRow,
    columns: u16,
    width: u64,
    new: &[FreeEntry],
    most: u128,
    room: &mut Vec<WideEntry>,
) -> Option<bool>
    requires width { IsWidth width }
    requires room { columns ≤ vec_capacity room.old }
    requires kept { IsKept columns row.now }
    requires primitive { IsPrimitive columns (row_of columns (entries_of row.now)) }
    requires within { IsWithin width (row_of columns (entries_of row.now)) }
    requires new { IsNew columns new.now }
    requires most { AllByRecursion (λ e. unsigned_abs e.value ≤ most) new.now }
    requires zero { entry_at new.now row.now.pivot ≡ pos 0 }
    ensures cleared { (made : List ℤ) × IsCleared columns (row_of columns new.now) (row_of columns (entries_of row.now)) made × MatchOption result (¬ (IsWithin width made)) (λ lone. IsWithin width made × (IsTrue lone ↔ IsLone made)) }
    ensures room { columns ≤ vec_capacity room.new }
{
    let by = new[0].number();
    let times = value_at(&row.free, new[0].place);
    if times == 0 {
        return Some(row.free.is_empty());
    }
    if is_surely_within(width, by, row.most, times.unsigned_abs(), most) {
        return Some(are_parallel(by, &row.free, times, new));
    }
    let cleared = clear_aside(row, columns, width, new, room)?;
    Some(cleared.lone)
}

// Whether the row, cleared at the new row's pivot, has one entry that is not 0. None if an entry is above the width. If
// the row's bound suffices, and its list is longer or shorter than the new one, the list is not read.
fn look_at(
    row: &SparseRow,
    columns: u16,
    width: u64,
    new: &[FreeEntry],
    most: u128,
    sure: u128,
    room: &mut Vec<WideEntry>,
) -> Option<bool>
    requires width { IsWidth width }
    requires room { columns ≤ vec_capacity room.old }
    requires kept { IsKept columns row.now }
    requires primitive { IsPrimitive columns (row_of columns (entries_of row.now)) }
    requires within { IsWithin width (row_of columns (entries_of row.now)) }
    requires new { IsNew columns new.now }
    requires most { AllByRecursion (λ e. unsigned_abs e.value ≤ most) new.now }
    requires sure { sure * (unsigned_abs (slice_index_or new.now 0 (record { place = 0; value = pos 0 })).value + most) ≤ width }
    requires zero { entry_at new.now row.now.pivot ≡ pos 0 }
    ensures cleared { (made : List ℤ) × IsCleared columns (row_of columns new.now) (row_of columns (entries_of row.now)) made × MatchOption result (¬ (IsWithin width made)) (λ lone. IsWithin width made × (IsTrue lone ↔ IsLone made)) }
    ensures room { columns ≤ vec_capacity room.new }
{
    if row.free.len() != new.len() && row.most <= sure {
        return Some(row.free.is_empty());
    }
    look_closely(row, columns, width, new, most, room)
}

// Tells what the form would become with a new row, if the multiple of the pivot entries is surely within the width: few rows
// have to be cleared. If no row can get a greater entry, the first one that is left with one entry decides.
fn look_by_bounds(
    rows: &[SparseRow],
    columns: u16,
    width: u64,
    greatest_bound: u128,
    new: &[FreeEntry],
    room: &mut Vec<WideEntry>,
) -> Prospect
    requires width { IsWidth width }
    requires room { columns ≤ vec_capacity room.old }
    requires kept { AllByRecursion (IsKept columns) rows.now }
    requires form { IsFormWithin width columns (rows_of columns rows.now) }
    requires greatest_bound { AllByRecursion (λ r. r.most ≤ greatest_bound) rows.now }
    requires new { IsNew columns new.now }
    requires new_within { IsWithin width (row_of columns new.now) }
    requires zero { IsZeroAtPivots (rows_of columns rows.now) (row_of columns new.now) }
    requires multiple { (common : ℕ) × AllByRecursion (λ x. x ∣ common) (pivot_entries (rows_of columns rows.now)) × (0 < common) × (unsigned_abs (slice_index_or new.now 0 (record { place = 0; value = pos 0 })).value * common ≤ width) }
    ensures foresees { Foresees (record { n = columns; width = width; rows = rows_of columns rows.now }) (row_of columns new.now) result }
    ensures room { columns ≤ vec_capacity room.new }
{
    if new.len() == 1 {
        // A unit row takes a column out of the others, and so leaves none with a greater entry.
        return Prospect::Fixing;
    }
    let by = new[0].number();
    let most = bound_of(by, new);
    let sure = sure_bound(width, by, most);
    let mut fixing = false;
    for row in rows {
        let Some(lone) = look_at(row, columns, width, new, most, sure, room) else {
            return Prospect::Wide;
        };
        if lone && greatest_bound <= sure {
            return Prospect::Fixing;
        }
        fixing = either(fixing, lone);
    }
    if fixing {
        Prospect::Fixing
    } else {
        Prospect::Open
    }
}

/// Tells what the form would become with a new row. Only the room is written.
pub fn look_ahead(
    rows: &[SparseRow],
    columns: u16,
    width: u64,
    common: i128,
    greatest_bound: u128,
    new: &[FreeEntry],
    room: &mut Vec<WideEntry>,
) -> Prospect
    requires width { IsWidth width }
    requires room { columns ≤ vec_capacity room.old }
    requires kept { AllByRecursion (IsKept columns) rows.now }
    requires form { IsFormWithin width columns (rows_of columns rows.now) }
    requires positive { pos 0 <ℤ common }
    requires within { unsigned_abs common ≤ width }
    requires multiple { IsLeastCommonMultiple (pivot_entries (rows_of columns rows.now)) (unsigned_abs common) }
    requires greatest_bound { AllByRecursion (λ r. r.most ≤ greatest_bound) rows.now }
    requires new { IsNew columns new.now }
    requires new_within { IsWithin width (row_of columns new.now) }
    requires zero { IsZeroAtPivots (rows_of columns rows.now) (row_of columns new.now) }
    ensures foresees { Foresees (record { n = columns; width = width; rows = rows_of columns rows.now }) (row_of columns new.now) result }
    ensures room { columns ≤ vec_capacity room.new }
{
    if product(new[0].number(), common) <= width as i128 {
        look_by_bounds(rows, columns, width, greatest_bound, new, room)
    } else if widest_is_too_large(rows, columns, width, new, room) {
        Prospect::Wide
    } else {
        look_at_each(rows, columns, width, new, room)
    }
}
