//! A kept row cleared at the pivot of a new one: its list, over its content.
ghost use Rattle.std.specs.Prelude.{◌≡◌, ◌≢◌, ◌↔◌, ℕ, ◌<◌, ◌≤◌, ◌+◌, ◌*◌, ◌++◌, ◌^◌, ℤ, pos, ◌-ℤ◌, ◌*ℤ◌, ◌<ℤ◌, List, [], ◌∷◌, length, map, unsigned_abs, slice_index_or, IsTrue, IfSome};
ghost use Rattle.std.specs.Int.{◌∣◌};
ghost use Rattle.std.specs.List.{AllByRecursion};
ghost use Rattle.std.specs.List.Sorted.{IsPartitionPoint};
ghost use Rattle.std.specs.Vec.{vec_len, vec_capacity};
ghost use Rattle.audit_types.specs.Form.{IsContent, IsPrimitive, pivot_entry};
ghost use Rattle.sum_basis.specs.Elimination.{IsSmall, StaysSmall, IsCleared};
ghost use Rattle.sum_basis.specs.declared.sparse.FreeEntry.{FreeEntry};
ghost use Rattle.sum_basis.specs.Sparse.{entry_at, row_of, IsListed, entries_of, IsKept, scaled, IsNew, IsOverContent};

use crate::merging::{combine_into, value_from};
use crate::over_divisor::{LONG, combine_over, first_divisor};
use crate::sparse::{FreeEntry, SparseRow};
use crate::wide_entry::WideEntry;
use int_rows::Divisor;

/// How many entries stand before the column.
pub fn places_before(entries: &[FreeEntry], column: u16) -> usize
    requires { IsListed 0 65536 entries.now }
    ensures within { result ≤ length entries.now }
    ensures parted { IsPartitionPoint (λ e. e.place < column) (λ e. column ≤ e.place) entries.now result }
{
    entries.partition_point(|e| e.place < column)
}

/// What the list has at a column.
pub fn value_at(entries: &[FreeEntry], column: u16) -> i128
    requires { IsListed 0 65536 entries.now }
    ensures { result ≡ entry_at entries.now column }
{
    if entries.is_empty() || column < entries[0].place {
        return 0;
    }
    let k = places_before(entries, column);
    value_from(entries, k, column)
}

// The greatest common divisor of the pivot entry and of all values.
fn content(head: i128, entries: &[WideEntry]) -> Divisor
    requires head { (pos 0 <ℤ head) × (unsigned_abs head ≤ 2 ^ 126) }
    requires entries { AllByRecursion (λ e. unsigned_abs e.value ≤ 2 ^ 126) entries.now }
    ensures content { IsContent (head ∷ map (λ e. e.value) entries.now) result }
    ensures positive { 0 < result }
{
    let mut divisor = Divisor::new(head);
    for e in entries {
        if divisor.is_one() {
            return divisor;
        }
        divisor = divisor.with(e.value());
    }
    divisor
}

fn divide(entries: &mut Vec<WideEntry>, by: &Divisor)
    requires divides { AllByRecursion (λ e. by.now ∣ unsigned_abs e.value) entries.old.items }
    requires not_zero { 0 < by.now }
    requires size { AllByRecursion (λ e. unsigned_abs e.value ≤ 2 ^ 126) entries.old.items }
    ensures scaled { entries.old.items ≡ map (scaled (pos by.now)) entries.new.items }
    ensures capacity { vec_capacity entries.new ≡ vec_capacity entries.old }
{
    for k in 0..entries.len() {
        let e = entries[k];
        let value = by.quotient(e.value());
        entries[k] = WideEntry::new(e.place(), value);
    }
}

/// Divides the values by the content of the pivot entry and the values, and answers the pivot entry over it.
pub fn over_content(head: i128, entries: &mut Vec<WideEntry>) -> i128
    requires head { (pos 0 <ℤ head) × (unsigned_abs head ≤ 2 ^ 126) }
    requires entries { AllByRecursion (λ e. unsigned_abs e.value ≤ 2 ^ 126) entries.old.items }
    ensures over { IsOverContent head entries.old.items result entries.new.items }
    ensures capacity { vec_capacity entries.new ≡ vec_capacity entries.old }
{
    let divisor = content(head, entries);
    if divisor.is_one() {
        return head;
    }
    divide(entries, &divisor);
    divisor.quotient(head)
}

// The entry with the quotient of its value, which is small.
fn quotient_entry(entry: &WideEntry, by: &Divisor) -> FreeEntry
    requires divides { by.now ∣ unsigned_abs entry.now.value }
    requires not_zero { 0 < by.now }
    requires size { unsigned_abs entry.now.value ≤ 2 ^ 126 }
    requires small { unsigned_abs entry.now.value ≤ by.now * 2 ^ 56 }
    ensures { scaled (pos by.now) result ≡ entry.now }
{
    let value = by.quotient(entry.value());
    FreeEntry {
        place: entry.place(),
        value: value as i64,
    }
}

// Appends the quotients of the entries. There is room for them.
fn append_quotients(out: &mut Vec<FreeEntry>, entries: &[WideEntry], by: &Divisor)
    requires room { vec_len out.old + length entries.now ≤ vec_capacity out.old }
    requires divides { AllByRecursion (λ e. by.now ∣ unsigned_abs e.value) entries.now }
    requires not_zero { 0 < by.now }
    requires size { AllByRecursion (λ e. unsigned_abs e.value ≤ 2 ^ 126) entries.now }
    requires small { AllByRecursion (λ e. unsigned_abs e.value ≤ by.now * 2 ^ 56) entries.now }
    ensures items { map (scaled (pos by.now)) out.new.items ≡ map (scaled (pos by.now)) out.old.items ++ entries.now }
    ensures capacity { vec_capacity out.new ≡ vec_capacity out.old }
{
    for e in entries {
        out.push_reserved(quotient_entry(e, by));
    }
}

// Writes into an empty list the values over the content of the pivot entry and the values, and answers the pivot entry over it.
fn write_over_content(out: &mut Vec<FreeEntry>, head: i128, entries: &[WideEntry]) -> i128
    requires empty { out.old.items ≡ [] }
    requires room { length entries.now ≤ vec_capacity out.old }
    requires head { (pos 0 <ℤ head) × (unsigned_abs head ≤ 2 ^ 126) }
    requires entries { AllByRecursion (λ e. unsigned_abs e.value ≤ 2 ^ 126) entries.now }
    requires small { (over : ℤ) (made : List FreeEntry) → IsOverContent head entries.now over made → AllByRecursion (λ e. unsigned_abs e.value ≤ 2 ^ 56) made }
    ensures over { IsOverContent head entries.now result out.new.items }
    ensures capacity { vec_capacity out.new ≡ vec_capacity out.old }
{
    let divisor = content(head, entries);
    append_quotients(out, entries, &divisor);
    divisor.quotient(head)
}

/// The greater of two numbers.
pub fn greater(a: u128, b: u128) -> u128
    ensures first { a ≤ result }
    ensures second { b ≤ result }
    ensures least { (m : ℕ) → a ≤ m → b ≤ m → result ≤ m }
{
    a.max(b)
}

// The greatest size of a value, 0 for no entries.
fn greatest(entries: &[FreeEntry]) -> u128
    ensures values { AllByRecursion (λ e. unsigned_abs e.value ≤ result) entries.now }
    ensures least { (m : ℕ) → AllByRecursion (λ e. unsigned_abs e.value ≤ m) entries.now → result ≤ m }
{
    let mut most = 0;
    for e in entries {
        most = greater(most, e.number().unsigned_abs());
    }
    most
}

/// The greatest size of the pivot entry and of the values.
pub fn bound_of(head: i128, entries: &[FreeEntry]) -> u128
    ensures head { unsigned_abs head ≤ result }
    ensures values { AllByRecursion (λ e. unsigned_abs e.value ≤ result) entries.now }
    ensures least { (m : ℕ) → unsigned_abs head ≤ m → AllByRecursion (λ e. unsigned_abs e.value ≤ m) entries.now → result ≤ m }
{
    greater(greatest(entries), head.unsigned_abs())
}

// A product of numbers of 64 bits, which takes one multiplication.
fn short_product(x: i64, y: i64) -> i128
    requires x { unsigned_abs x ≤ 2 ^ 56 }
    requires y { unsigned_abs y ≤ 2 ^ 56 }
    ensures { result ≡ x *ℤ y }
{
    x as i128 * y as i128
}

/// A product of numbers within the limit.
pub fn product(x: i128, y: i128) -> i128
    requires x { unsigned_abs x ≤ 2 ^ 56 }
    requires y { unsigned_abs y ≤ 2 ^ 56 }
    ensures exact { result ≡ x *ℤ y }
    ensures small { unsigned_abs result ≤ 2 ^ 112 }
{
    short_product(x as i64, y as i64)
}

/// Writes the list of the row combined with the new one, so that it is 0 at the new pivot, and answers its pivot entry.
/// Neither is divided by their content.
pub fn combine_at_pivot(
    out: &mut Vec<WideEntry>,
    columns: u16,
    row: &SparseRow,
    new: &[FreeEntry],
    times: i128,
) -> i128
    requires empty { out.old.items ≡ [] }
    requires room { columns ≤ vec_capacity out.old }
    requires kept { IsKept columns row.now }
    requires small { IsSmall (row_of columns (entries_of row.now)) }
    requires new { IsNew columns new.now }
    requires times { times ≡ entry_at row.now.free.items (slice_index_or new.now 0 (record { place = 0; value = pos 0 })).place }
    requires some { times ≢ pos 0 }
    ensures listed { IsListed 0 columns out.new.items }
    ensures combined { (j : ℕ) → entry_at out.new.items j ≡ (slice_index_or new.now 0 (record { place = 0; value = pos 0 })).value *ℤ entry_at row.now.free.items j -ℤ times *ℤ entry_at new.now j }
    ensures head { result ≡ (slice_index_or new.now 0 (record { place = 0; value = pos 0 })).value *ℤ row.now.head }
    ensures leading { (pos 0 <ℤ result) × (unsigned_abs result ≤ 2 ^ 126) }
    ensures sizes { AllByRecursion (λ e. unsigned_abs e.value ≤ 2 ^ 126) out.new.items }
    ensures capacity { vec_capacity out.new ≡ vec_capacity out.old }
{
    let by = new[0].number();
    combine_into(out, columns, &by, &row.free, &times, new);
    product(by, row.head)
}

// Writes the list of the row, cleared at the new row's pivot, in one pass, and answers its pivot entry. None if the list
// is short, or the divisor that is told from a few values doesn't divide all.
fn clear_at_once(
    out: &mut Vec<FreeEntry>,
    columns: u16,
    row: &SparseRow,
    new: &[FreeEntry],
    times: i128,
) -> Option<i128>
    requires empty { out.old.items ≡ [] }
    requires room { columns ≤ vec_capacity out.old }
    requires kept { IsKept columns row.now }
    requires primitive { IsPrimitive columns (row_of columns (entries_of row.now)) }
    requires small { IsSmall (row_of columns (entries_of row.now)) }
    requires new { IsNew columns new.now }
    requires before { row.now.pivot < (slice_index_or new.now 0 (record { place = 0; value = pos 0 })).place }
    requires times { times ≡ entry_at row.now.free.items (slice_index_or new.now 0 (record { place = 0; value = pos 0 })).place }
    requires some { times ≢ pos 0 }
    ensures listed { IfSome result (λ head. IsListed 0 columns (record { place = row.now.pivot; value = head } ∷ out.new.items)) }
    ensures leading { IfSome result (λ head. pos 0 <ℤ head) }
    ensures cleared { IfSome result (λ head. IsCleared columns (row_of columns new.now) (row_of columns (entries_of row.now)) (row_of columns (record { place = row.now.pivot; value = head } ∷ out.new.items))) }
    ensures capacity { vec_capacity out.new ≡ vec_capacity out.old }
{
    if row.free.len() < LONG {
        return None;
    }
    let by = new[0].number();
    let head = product(by, row.head);
    let divisor = first_divisor(head, by, &row.free, times, new);
    if !combine_over(out, columns, &by, &row.free, &times, new, &divisor) {
        return None;
    }
    Some(divisor.quotient(head))
}

/// Writes the list of the row, cleared at the new row's pivot, and answers its pivot entry.
pub fn clear_into(
    out: &mut Vec<FreeEntry>,
    combined: &mut Vec<WideEntry>,
    columns: u16,
    row: &SparseRow,
    new: &[FreeEntry],
    times: i128,
) -> i128
    requires empty { out.old.items ≡ [] }
    requires room { columns ≤ vec_capacity out.old }
    requires combined_room { columns ≤ vec_capacity combined.old }
    requires kept { IsKept columns row.now }
    requires primitive { IsPrimitive columns (row_of columns (entries_of row.now)) }
    requires small { IsSmall (row_of columns (entries_of row.now)) }
    requires new { IsNew columns new.now }
    requires before { row.now.pivot < (slice_index_or new.now 0 (record { place = 0; value = pos 0 })).place }
    requires times { times ≡ entry_at row.now.free.items (slice_index_or new.now 0 (record { place = 0; value = pos 0 })).place }
    requires some { times ≢ pos 0 }
    requires narrow { StaysSmall columns (row_of columns new.now) (row_of columns (entries_of row.now)) }
    ensures listed { IsListed 0 columns (record { place = row.now.pivot; value = result } ∷ out.new.items) }
    ensures leading { pos 0 <ℤ result }
    ensures cleared { IsCleared columns (row_of columns new.now) (row_of columns (entries_of row.now)) (row_of columns (record { place = row.now.pivot; value = result } ∷ out.new.items)) }
    ensures capacity { vec_capacity out.new ≡ vec_capacity out.old }
    ensures combined_room { columns ≤ vec_capacity combined.new }
{
    if let Some(head) = clear_at_once(out, columns, row, new, times) {
        return head;
    }
    combined.clear();
    let head = combine_at_pivot(combined, columns, row, new, times);
    out.clear();
    write_over_content(out, head, combined)
}
