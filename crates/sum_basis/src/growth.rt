//! What a new row does to the rows of a form.
ghost use Rattle.std.specs.Prelude.{◌≡◌, ◌≢◌, ◌↔◌, ◌⊎◌, ℕ, take, map, ◌<◌, ◌≤◌, ◌+◌, ◌++◌, ◌^◌, ℤ, pos, ◌<ℤ◌, List, [], ◌∷◌, length, insert, IfOk, OnOk, IsTrue, MatchOption, unsigned_abs, slice_index_or};
ghost use Rattle.std.specs.List.{AllByRecursion};
ghost use Rattle.std.specs.Vec.{vec_len, vec_capacity};
ghost use Rattle.audit_types.specs.Form.{IsPrimitive, IsReducedForm, IsLeastCommonMultiple, IsNarrow, pivot, pivot_entry, pivot_entries};
ghost use Rattle.sum_basis.specs.Elimination.{IsSmall, IsSmallForm, IsZeroAtPivots, StaysSmall, IsCleared, AreCleared, IsLone};
ghost use Rattle.sum_basis.specs.declared.sparse.SparseRow.{SparseRow};
ghost use Rattle.sum_basis.specs.Sparse.{entry_at, row_of, rows_of, entries_of, IsKept, IsNew};

use crate::cleared_list::{bound_of, clear_into, value_at};
use crate::editing::take_entries;
use crate::sparse::{FreeEntry, SparseRow};
use crate::wide_entry::WideEntry;
use audit_types::MOST_WIDTH;
use int_rows::lcm_within;
use std::mem;

// How many entries fewer than the longest list a list has that is copied.
const SHORTER: usize = 64;

// How many entries are copied at a time. The C library copies more by a string instruction, which takes long to begin.
const PART: usize = 64;

// Whether both pivot entries are 1, and the new row has few entries beside those of the row.
fn changes_few(row: &SparseRow, new: &[FreeEntry]) -> bool
    requires { 0 < length new.now }
    ensures { IsTrue result → (row.now.head ≡ pos 1) × ((slice_index_or new.now 0 (record { place = 0; value = pos 0 })).value ≡ pos 1) }
{
    if row.head != 1 || new[0].value != 1 {
        return false;
    }
    new.len() < row.free.len() / 8
}

// Clears the row at the new row's pivot by changing its list, if both pivot entries are 1.
fn clear_in_place(row: &mut SparseRow, columns: u16, new: &[FreeEntry], times: i128)
    requires kept { IsKept columns row.old }
    requires primitive { IsPrimitive columns (row_of columns (entries_of row.old)) }
    requires small { IsSmall (row_of columns (entries_of row.old)) }
    requires new { IsNew columns new.now }
    requires before { row.old.pivot < (slice_index_or new.now 0 (record { place = 0; value = pos 0 })).place }
    requires times { times ≡ entry_at row.old.free.items (slice_index_or new.now 0 (record { place = 0; value = pos 0 })).place }
    requires some { times ≢ pos 0 }
    requires ones { (row.old.head ≡ pos 1) × ((slice_index_or new.now 0 (record { place = 0; value = pos 0 })).value ≡ pos 1) }
    requires narrow { StaysSmall columns (row_of columns new.now) (row_of columns (entries_of row.old)) }
    ensures kept { IsKept columns row.new }
    ensures cleared { IsCleared columns (row_of columns new.now) (row_of columns (entries_of row.old)) (row_of columns (entries_of row.new)) }
{
    row.most = take_entries(&mut row.free, columns, row.most, times, new);
}

// Makes the list equal to the other one. There is room for it.
fn overwrite(list: &mut Vec<FreeEntry>, entries: &[FreeEntry])
    requires room { length entries.now ≤ vec_capacity list.old }
    ensures items { list.new.items ≡ entries.now }
    ensures capacity { vec_capacity list.old ≤ vec_capacity list.new }
{
    list.clear();
    let mut at = 0;
    while at < entries.len() {
        let end = entries.len().min(at + PART);
        list.extend_from_slice(&entries[at..end]).unwrap();
        at = end;
    }
}

// Gives a row the list that was made: the two lists change places, unless it is much shorter than the longest one. Then it is copied, so
// that memory which long lists were written to doesn't come to a row with a short one.
fn take_list(free: &mut Vec<FreeEntry>, columns: u16, longest: usize, made: &mut Vec<FreeEntry>)
    requires length { length made.old.items ≤ columns }
    requires room { columns ≤ vec_capacity free.old }
    requires made_room { columns ≤ vec_capacity made.old }
    ensures items { free.new.items ≡ made.old.items }
    ensures room { columns ≤ vec_capacity free.new }
    ensures made_room { columns ≤ vec_capacity made.new }
{
    if longest.saturating_sub(made.len()) < SHORTER {
        mem::swap(free, made);
    } else {
        overwrite(free, made);
    }
}

// Clears the row at the new row's pivot, and bounds it anew.
fn clear_anew(
    row: &mut SparseRow,
    columns: u16,
    new: &[FreeEntry],
    times: i128,
    longest: usize,
    room: &mut Vec<FreeEntry>,
    combined: &mut Vec<WideEntry>,
)
    requires room { columns ≤ vec_capacity room.old }
    requires combined_room { columns ≤ vec_capacity combined.old }
    requires kept { IsKept columns row.old }
    requires primitive { IsPrimitive columns (row_of columns (entries_of row.old)) }
    requires small { IsSmall (row_of columns (entries_of row.old)) }
    requires new { IsNew columns new.now }
    requires before { row.old.pivot < (slice_index_or new.now 0 (record { place = 0; value = pos 0 })).place }
    requires times { times ≡ entry_at row.old.free.items (slice_index_or new.now 0 (record { place = 0; value = pos 0 })).place }
    requires some { times ≢ pos 0 }
    requires narrow { StaysSmall columns (row_of columns new.now) (row_of columns (entries_of row.old)) }
    ensures kept { IsKept columns row.new }
    ensures cleared { IsCleared columns (row_of columns new.now) (row_of columns (entries_of row.old)) (row_of columns (entries_of row.new)) }
    ensures room { columns ≤ vec_capacity room.new }
    ensures combined_room { columns ≤ vec_capacity combined.new }
{
    room.clear();
    row.head = clear_into(room, combined, columns, row, new, times);
    take_list(&mut row.free, columns, longest, room);
    row.most = bound_of(row.head, &row.free);
}

/// Clears the row at the new row's pivot.
pub(crate) fn clear(
    row: &mut SparseRow,
    columns: u16,
    new: &[FreeEntry],
    longest: usize,
    room: &mut Vec<FreeEntry>,
    combined: &mut Vec<WideEntry>,
)
    requires room { columns ≤ vec_capacity room.old }
    requires combined_room { columns ≤ vec_capacity combined.old }
    requires kept { IsKept columns row.old }
    requires primitive { IsPrimitive columns (row_of columns (entries_of row.old)) }
    requires small { IsSmall (row_of columns (entries_of row.old)) }
    requires new { IsNew columns new.now }
    requires zero { entry_at new.now row.old.pivot ≡ pos 0 }
    requires narrow { StaysSmall columns (row_of columns new.now) (row_of columns (entries_of row.old)) }
    ensures kept { IsKept columns row.new }
    ensures cleared { IsCleared columns (row_of columns new.now) (row_of columns (entries_of row.old)) (row_of columns (entries_of row.new)) }
    ensures room { columns ≤ vec_capacity room.new }
    ensures combined_room { columns ≤ vec_capacity combined.new }
{
    let times = value_at(&row.free, new[0].place);
    if times == 0 {
        return;
    }
    if changes_few(row, new) {
        clear_in_place(row, columns, new, times);
    } else {
        clear_anew(row, columns, new, times, longest, room, combined);
    }
}

// How many entries the longest list of the rows has. Only how much memory is used rests on it.
fn longest_list(rows: &[SparseRow]) -> usize {
    let mut longest = 0;
    for row in rows {
        longest = row.free.len().max(longest);
    }
    longest
}

// Clears all rows at the new row's pivot.
fn clear_all(
    rows: &mut Vec<SparseRow>,
    columns: u16,
    new: &[FreeEntry],
    room: &mut Vec<FreeEntry>,
    combined: &mut Vec<WideEntry>,
)
    requires room { columns ≤ vec_capacity room.old }
    requires combined_room { columns ≤ vec_capacity combined.old }
    requires kept { AllByRecursion (IsKept columns) rows.old.items }
    requires form { IsSmallForm columns (rows_of columns rows.old.items) }
    requires new { IsNew columns new.now }
    requires zero { IsZeroAtPivots (rows_of columns rows.old.items) (row_of columns new.now) }
    requires narrow { AllByRecursion (StaysSmall columns (row_of columns new.now)) (rows_of columns rows.old.items) }
    ensures kept { AllByRecursion (IsKept columns) rows.new.items }
    ensures cleared { AreCleared columns (row_of columns new.now) (rows_of columns rows.old.items) (rows_of columns rows.new.items) }
    ensures capacity { vec_capacity rows.new ≡ vec_capacity rows.old }
    ensures len { vec_len rows.new ≡ vec_len rows.old }
{
    let longest = longest_list(rows);
    for k in 0..rows.len() {
        clear(&mut rows[k], columns, new, longest, room, combined);
    }
}

// The place of a row with this pivot: the rows before it have no later one, and the row there has.
fn place_of(rows: &[SparseRow], pivot: u16) -> usize
    ensures within { result ≤ length rows.now }
    ensures before { AllByRecursion (λ r. r.pivot ≤ pivot) (take result rows.now) }
    ensures after { (d : SparseRow) → result < length rows.now → pivot < (slice_index_or rows.now result d).pivot }
{
    for (k, row) in rows.iter().enumerate() {
        if pivot < row.pivot {
            return k;
        }
    }
    rows.len()
}

/// Clears the rows at the new row's pivot, and puts the new row in its place. There is room for it.
pub fn grow_rows(
    rows: &mut Vec<SparseRow>,
    columns: u16,
    new: Vec<FreeEntry>,
    room: &mut Vec<FreeEntry>,
    combined: &mut Vec<WideEntry>,
)
    requires space { vec_len rows.old < vec_capacity rows.old }
    requires room { columns ≤ vec_capacity room.old }
    requires combined_room { columns ≤ vec_capacity combined.old }
    requires new_room { columns ≤ vec_capacity new }
    requires kept { AllByRecursion (IsKept columns) rows.old.items }
    requires form { IsSmallForm columns (rows_of columns rows.old.items) }
    requires new { IsNew columns new.items }
    requires zero { IsZeroAtPivots (rows_of columns rows.old.items) (row_of columns new.items) }
    requires narrow { AllByRecursion (StaysSmall columns (row_of columns new.items)) (rows_of columns rows.old.items) }
    ensures kept { AllByRecursion (IsKept columns) rows.new.items }
    ensures reduced { IsReducedForm columns (rows_of columns rows.old.items ++ row_of columns new.items ∷ []) (rows_of columns rows.new.items) }
{
    clear_all(rows, columns, &new, room, combined);
    let mut free = new;
    let first = free.remove(0);
    let place = place_of(rows, first.place);
    let head = first.number();
    let most = bound_of(head, &free);
    rows.insert(
        place,
        SparseRow {
            pivot: first.place,
            head,
            most,
            free,
        },
    )
    .unwrap();
}

/// The greatest bound of a row, 0 if there is none.
pub fn greatest_bound(rows: &[SparseRow]) -> u128
    ensures { AllByRecursion (λ r. r.most ≤ result) rows.now }
{
    let mut greatest = 0;
    for row in rows {
        greatest = row.most.max(greatest);
    }
    greatest
}

/// The least common multiple of the pivot entries, if it is within the greatest width.
pub fn common_multiple(rows: &[SparseRow]) -> Option<i128>
    requires { AllByRecursion (λ r. (pos 0 <ℤ r.head) × (unsigned_abs r.head ≤ 2 ^ 56)) rows.now }
    ensures { (m : ℕ) × IsLeastCommonMultiple (map (λ r. unsigned_abs r.head) rows.now) m × MatchOption result (2 ^ 56 < m) (λ x. (x ≡ pos m) × (0 < m) × (m ≤ 2 ^ 56)) }
{
    let mut common = 1;
    for row in rows {
        common = lcm_within(common, row.head, MOST_WIDTH as i128)?;
    }
    Some(common)
}
