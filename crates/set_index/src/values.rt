//! Rows by the values of a column: sorted, and searched for a value.
ghost use Rattle.std.specs.Prelude.{◌≡◌, ◌≤◌, pos, true, false, [], length, map, slice_index_or, OnOk};
ghost use Rattle.std.specs.Cmp.Lexicographic.{slice_cmp};
ghost use Rattle.std.specs.List.Sorted.{IsPermutation, IsPartitionPoint, IsSorted};
ghost use Rattle.std.specs.Ordering.{int_cmp, nat_cmp};
ghost use Rattle.table_load.specs.Cells.{numbers, texts};
ghost use Rattle.table_load.specs.Kept.{cells_kept};
ghost use Rattle.set_index.specs.Ends.{is_passed};
ghost use Rattle.set_index.specs.Ordered.{compare_cells, compare_rows};

use audit_types::NoMemory;
use std::alloc::Global;
use std::cmp::Ordering;
use table_load::Column;

// The number of a row, 0 if there is none.
fn number_at(list: &[i64], row: u16) -> i64
    ensures { result ≡ slice_index_or list.now row (pos 0) }
{
    list.get(row as usize).copied().unwrap_or(0)
}

// The text of a row, empty if there is none.
fn text_at(list: &[Vec<u8>], row: u16) -> &[u8]
    ensures { result.now ≡ slice_index_or (map (λ t. t.items) list.now) row [] }
{
    match list.get(row as usize) {
        Some(text) => text.as_slice(),
        None => &[],
    }
}

// How the values of two rows of a column compare. All rows of a hidden one are equal.
fn compare(column: &Column, row: u16, other: u16) -> Ordering
    ensures { result ≡ compare_cells (cells_kept column.now) row other }
{
    match column {
        Column::Hidden => Ordering::Equal,
        Column::Numbers(list) => number_at(list, row).cmp(&number_at(list, other)),
        Column::Texts(list) => text_at(list, row).cmp(text_at(list, other)),
    }
}

/// Sorts ascending rows by the values of a column. Rows of equal values stay in their order, so a column of few values is
/// sorted in few steps.
pub(crate) fn sort_by_value(
    alloc: Global,
    rows: &mut [u16],
    column: &Column,
) -> Result<(), NoMemory>
    requires by_row { IsSorted nat_cmp rows.old }
    ensures permutation { IsPermutation rows.old rows.new }
    ensures ascending { OnOk result (IsSorted (compare_rows (cells_kept column.now)) rows.new) }
{
    rows.sort_by(alloc, |row, other| compare(column, *row, *other))?;
    Ok(())
}

/// An end of the rows with some value: before the first of them, or after the last.
#[derive(Clone, Copy)]
pub(crate) enum End {
    Before,
    Behind,
}

// Whether a row that compares so with a value stands before this end of the rows with that value.
fn is_passed(end: End, order: Ordering) -> bool
    ensures { result ≡ is_passed end order }
{
    match end {
        End::Before => order.is_lt(),
        End::Behind => order.is_le(),
    }
}

/// How many rows stand before this end of those with a number.
pub(crate) fn count_to_number(rows: &[u16], list: &[i64], number: i64, end: End) -> usize
    requires { IsSorted (compare_rows (numbers list.now)) rows.now }
    ensures bound { result ≤ length rows.now }
    ensures point { IsPartitionPoint (λ r. is_passed end (int_cmp (slice_index_or list.now r (pos 0)) number) ≡ true)
        (λ r. is_passed end (int_cmp (slice_index_or list.now r (pos 0)) number) ≡ false) rows.now result }
{
    rows.partition_point(|row| is_passed(end, number_at(list, *row).cmp(&number)))
}

/// How many rows stand before this end of those with a text.
pub(crate) fn count_to_text(rows: &[u16], list: &[Vec<u8>], text: &[u8], end: End) -> usize
    requires { IsSorted (compare_rows (texts (map (λ t. t.items) list.now))) rows.now }
    ensures bound { result ≤ length rows.now }
    ensures point { IsPartitionPoint (λ r. is_passed end (slice_cmp nat_cmp (slice_index_or (map (λ t. t.items) list.now) r []) text.now) ≡ true)
        (λ r. is_passed end (slice_cmp nat_cmp (slice_index_or (map (λ t. t.items) list.now) r []) text.now) ≡ false) rows.now result }
{
    rows.partition_point(|row| is_passed(end, text_at(list, *row).cmp(text)))
}
