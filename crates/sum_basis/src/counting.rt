//! At how many rows of a form each free column isn't 0, and how many these are with a new row. Only rows that the new one clears change, and
//! only where the new one isn't 0.
ghost use Rattle.std.specs.Prelude.{◌≡◌, ◌≢◌, ◌↔◌, ℕ, ◌<◌, ◌≤◌, ◌+◌, ◌^◌, cond, ℤ, pos, ◌-ℤ◌, ◌*ℤ◌, List, [], length, unsigned_abs, IfOk, IfSome, IsTrue, slice_index_or};
ghost use Rattle.sum_basis.specs.Limits.{most_columns};
ghost use Rattle.audit_types.specs.Direction.{is_pivot};
ghost use Rattle.sum_basis.specs.Holding.{AreKeptCounts};
ghost use Rattle.sum_basis.specs.Reach.{IsLeftOverOrNone, IsGrownBy, AreSmallEntries, AreCounts, one_if, met, without_new, times_of, rest_at};
ghost use Rattle.sum_basis.specs.Sparse.{entry_at, IsListed};

use crate::cleared_list::value_at;
use crate::form::Form;
use crate::merging::difference;
use crate::sparse::FreeEntry;
use audit_types::NoMemory;
use std::alloc::Global;

// Counts one row more at each column of a list.
fn tally(counts: &mut [u16], entries: &[FreeEntry])
    requires listed { IsListed 0 (length counts.old) entries.now }
    requires few { (j : ℕ) → slice_index_or counts.old j 0 < 65535 }
    ensures length { length counts.new ≡ length counts.old }
    ensures counted { (j : ℕ) → slice_index_or counts.new j 0 ≡ slice_index_or counts.old j 0 + one_if (entry_at entries.now j) }
{
    for e in entries {
        counts[e.place as usize] += 1;
    }
}

/// Counts, by counts that are all 0 at first, at how many rows of the form each free column isn't 0.
pub(crate) fn count_rows(form: &Form, counts: &mut [u16])
    requires counts { form.now.n ≡ length counts.old }
    requires zeros { (j : ℕ) → slice_index_or counts.old j 0 ≡ 0 }
    ensures counted { AreCounts form.now.n form.now.rows counts.new }
{
    // What every form is: its rows are a form.
    let _ = form.columns();
    for k in 0..form.rank() {
        tally(counts, form.free(k));
    }
}

/// What a list has at the new list's pivot, 0 if there is none.
pub(crate) fn times_at(entries: &[FreeEntry], new: &[FreeEntry]) -> i128
    requires { IsListed 0 65536 entries.now }
    ensures { result ≡ times_of new.now (entry_at entries.now) }
{
    if new.is_empty() {
        return 0;
    }
    value_at(entries, new[0].place)
}

pub(crate) fn is_zero(x: i128) -> bool
    ensures { IsTrue result ↔ (x ≡ pos 0) }
{
    x == 0
}

// The count of a column at which a row has a number before it is cleared, and the new list a value.
fn moved(count: u16, by: i128, before: i128, times: i128, value: i128) -> u16
    requires by { unsigned_abs by ≤ 2 ^ 56 }
    requires before { unsigned_abs before ≤ 2 ^ 56 }
    requires times { unsigned_abs times ≤ 2 ^ 56 }
    requires value { unsigned_abs value ≤ 2 ^ 56 }
    requires some { (times ≢ pos 0) × (value ≢ pos 0) }
    requires counted { one_if before ≤ count }
    requires few { count < 65535 }
    ensures { result + one_if before ≡ count + one_if (by *ℤ before -ℤ times *ℤ value) }
{
    if is_zero(before) {
        count + 1
    } else if is_zero(difference(by, before, times, value)) {
        count - 1
    } else {
        count
    }
}

// Brings the counts up to date for a row that the new list clears: it has `times` at its pivot.
fn move_row(counts: &mut [u16], free: &[FreeEntry], new: &[FreeEntry], times: i128)
    requires free { AreSmallEntries (length counts.old) free.now }
    requires new { AreSmallEntries (length counts.old) new.now }
    requires at_most { length counts.old ≤ most_columns }
    requires times { times ≡ times_of new.now (entry_at free.now) }
    requires some { times ≢ pos 0 }
    requires counted { (j : ℕ) → one_if (entry_at free.now j) ≤ slice_index_or counts.old j 0 }
    requires few { (j : ℕ) → slice_index_or counts.old j 0 < 65535 }
    ensures length { length counts.new ≡ length counts.old }
    ensures moved { (j : ℕ) → slice_index_or counts.new j 0 + one_if (entry_at free.now j) ≡ slice_index_or counts.old j 0 + one_if (without_new new.now (entry_at free.now) j) }
{
    let by = new[0].number();
    for e in new {
        let place = e.place as usize;
        let before = value_at(free, e.place);
        let count = counts[place];
        counts[place] = moved(count, by, before, times, e.number());
    }
}

// The same for each row: one that is 0 at the new list's pivot stays as it is.
fn move_if_cleared(counts: &mut [u16], free: &[FreeEntry], new: &[FreeEntry])
    requires free { AreSmallEntries (length counts.old) free.now }
    requires new { AreSmallEntries (length counts.old) new.now }
    requires at_most { length counts.old ≤ most_columns }
    requires counted { (j : ℕ) → one_if (entry_at free.now j) ≤ slice_index_or counts.old j 0 }
    requires few { (j : ℕ) → slice_index_or counts.old j 0 < 65535 }
    ensures length { length counts.new ≡ length counts.old }
    ensures moved { (j : ℕ) → slice_index_or counts.new j 0 + one_if (entry_at free.now j) ≡ slice_index_or counts.old j 0 + one_if (without_new new.now (entry_at free.now) j) }
{
    let times = times_at(free, new);
    if !is_zero(times) {
        move_row(counts, free, new, times);
    }
}

// Brings the counts of the form and of the new list itself up to date for the rows of the form.
fn move_rows(form: &Form, counts: &mut [u16], new: &[FreeEntry])
    requires counts { length counts.old ≡ form.now.n }
    requires first { (j : ℕ) → slice_index_or counts.old j 0 ≡ cond (is_pivot form.now.rows j) 0 (met form.now.rows j) + one_if (rest_at new.now j) }
    requires new { IsLeftOverOrNone form.now new.now }
    ensures length { length counts.new ≡ form.now.n }
    ensures counted { (grown : List (List ℤ)) → IsGrownBy form.now new.now grown → AreCounts form.now.n grown counts.new }
{
    // What every form is: its rows are a form.
    let _ = form.columns();
    for k in 0..form.rank() {
        move_if_cleared(counts, form.free(k), new);
    }
}

/// Brings the counts of the form up to those of the form with a new list.
pub(crate) fn count_grown(form: &Form, counts: &mut [u16], new: &[FreeEntry])
    requires before { AreCounts form.now.n form.now.rows counts.old }
    requires new { IsLeftOverOrNone form.now new.now }
    ensures length { length counts.new ≡ form.now.n }
    ensures counted { (grown : List (List ℤ)) → IsGrownBy form.now new.now grown → AreCounts form.now.n grown counts.new }
{
    // What every form is: its rows are a form, no more of them than columns.
    let _ = form.columns();
    let _ = form.rank();
    if !new.is_empty() {
        tally(counts, &new[1..]);
    }
    move_rows(form, counts, new);
}

/// The counts of the form.
pub(crate) fn counts_of(form: &Form, alloc: Global) -> Result<Vec<u16>, NoMemory>
    ensures { IfOk result (λ counts. AreCounts form.now.n form.now.rows counts.items) }
{
    let mut counts = vec![in alloc; 0; form.columns() as usize]?;
    count_rows(form, &mut counts);
    Ok(counts)
}

/// The counts of the form with a new list, if those of the form are kept.
pub(crate) fn counts_with(
    form: &Form,
    kept: Option<Vec<u16>>,
    new: &[FreeEntry],
) -> Option<Vec<u16>>
    requires kept { AreKeptCounts form.now kept }
    requires new { IsLeftOverOrNone form.now new.now }
    ensures { (grown : List (List ℤ)) → IsGrownBy form.now new.now grown → IfSome result (λ counts. AreCounts form.now.n grown counts.items) }
{
    let mut counts = kept?;
    count_grown(form, &mut counts, new);
    Some(counts)
}

// The greatest count. It reads all of them, some at a time.
fn greatest_count(counts: &[u16]) -> u16
    ensures { (j : ℕ) → j < length counts.now → slice_index_or counts.now j 0 ≤ result }
{
    let mut most = 0;
    for count in counts {
        most = (*count).max(most);
    }
    most
}

/// Whether each count is below the reach.
pub(crate) fn are_below(counts: &[u16], reach: u16) -> bool
    ensures { IsTrue result → (j : ℕ) → j < length counts.now → slice_index_or counts.now j 0 < reach }
{
    greatest_count(counts) < reach
}

// Whether the count at each entry, and `more`, is below the reach.
fn are_entries_below(counts: &[u16], reach: u16, more: u16, entries: &[FreeEntry]) -> bool
    requires listed { IsListed 0 (length counts.now) entries.now }
    requires few { (j : ℕ) → slice_index_or counts.now j 0 ≤ most_columns }
    requires more { more ≤ most_columns + 1 }
    ensures { IsTrue result → (j : ℕ) → entry_at entries.now j ≢ pos 0 → slice_index_or counts.now j 0 + more < reach }
{
    for e in entries {
        if counts[e.place as usize] + more >= reach {
            return false;
        }
    }
    true
}

/// Whether bounds show that each count is below the reach once the form has the new list: where the list isn't 0, it counts, and no other
/// row than those that aren't 0 at its pivot may count anew.
pub(crate) fn are_surely_below(counts: &[u16], reach: u16, new: &[FreeEntry]) -> bool
    requires listed { IsListed 0 (length counts.now) new.now }
    requires few { (j : ℕ) → slice_index_or counts.now j 0 ≤ most_columns }
    ensures below { IsTrue result → (j : ℕ) → j < length counts.now → slice_index_or counts.now j 0 < reach }
    ensures with_new { IsTrue result → (j : ℕ) → rest_at new.now j ≢ pos 0 → slice_index_or counts.now j 0 + slice_index_or counts.now (slice_index_or new.now 0 (record { place = 0; value = pos 0 })).place 0 + 1 < reach }
{
    if !are_below(counts, reach) {
        return false;
    }
    if new.is_empty() {
        return true;
    }
    let more = counts[new[0].place as usize] + 1;
    are_entries_below(counts, reach, more, &new[1..])
}
