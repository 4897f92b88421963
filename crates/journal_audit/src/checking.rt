//! Making the lists that show a secret to be free, and checking them.
ghost use Rattle.std.specs.Prelude.{◌≡◌, ◌↔◌, ◌<◌, IsTrue, ◌==◌, List, [], ◌∷◌, ℕ, ℤ, map, filter, IfOk, OnOk};
ghost use Rattle.std.specs.List.{AllByRecursion, All};
ghost use Rattle.audit_types.specs.Direction.{IsPinned, IsCanonicalDirection};
ghost use Rattle.audit_types.specs.Headcount.{AreFew};
ghost use Rattle.audit_types.specs.Extremes.{IsConsistent, IsLone};
ghost use Rattle.audit_types.specs.Form.{Reduced};
ghost use Rattle.audit_types.specs.History.{answers_of, FitsShape};
ghost use Rattle.max_audit.specs.Witnesses.{highest};
ghost use Rattle.sum_audit.specs.Sets.{sets_of};
ghost use Rattle.witness_check.specs.Directions.{lists_of};
ghost use Rattle.journal_audit.specs.Reports.{RowHasLine};
ghost use Rattle.journal_audit.specs.Texts.{bound_line, direction_line};

use crate::texts::{write_bounds, write_direction};
use audit_types::{Answered, Askers, CountedRows, NoMemory, RowSet};
use max_audit::MaxColumn;
use std::alloc::{AllocError, Global};
use sum_audit::SumColumn;
use sum_audit::laws::directions_of_a_form;
use witness_build::{highest, max_witness, sum_witness};
use witness_check::{check_direction, check_pair};

/// The sets of a column's records, in order.
pub fn column_sets(alloc: Global, column: u8, list: &[Answered]) -> Result<Vec<RowSet>, AllocError>
    ensures { IfOk result (λ sets. sets.items ≡ map (λ r. r.rows) (filter (λ r. r.column == column) list.now)) }
{
    let mut sets = Vec::new(alloc);
    for record in list {
        if record.column == column {
            sets.push(record.rows)?;
        }
    }
    Ok(sets)
}

// Whether every list that gives the sums has the same number at the row.
fn is_pinned(sums: &SumColumn, row: u16) -> bool
    requires { row < sums.now.n }
    ensures { IsTrue result ↔ IsPinned sums.now.n (sets_of sums.now.answers) row }
{
    directions_of_a_form();
    let mut alone = RowSet::new(sums.n());
    alone.add(row);
    sums.basis().contains(&alone)
}

/// Whether there is a line on a row of a column of sums.
pub fn has_line(people: &CountedRows, sums: &SumColumn, row: u16) -> bool
    requires row { row < sums.now.n }
    requires people { people.now.n ≡ sums.now.n }
    ensures { IsTrue result ↔ RowHasLine people.now.people sums.now.n (sets_of sums.now.answers) row }
{
    // Counted rows say of themselves which rows are guarded.
    let _ = people.n();
    let shared = people.shared().has(row);
    match people.askers() {
        Askers::Outside => !shared,
        Askers::Inside => !shared || !is_pinned(sums, row),
    }
}

/// Writes the line on a row of a column of sums: the canonical direction of the row, which was checked.
pub fn write_row(
    alloc: Global,
    line: &mut Vec<u8>,
    name: &str,
    sums: &SumColumn,
    sets: &[RowSet],
    row: u16,
) -> Result<(), NoMemory>
    requires row { row < sums.now.n }
    requires free { ¬ (IsPinned sums.now.n (sets_of sums.now.answers) row) }
    requires same_n { AllByRecursion (λ s. s.n ≡ sums.now.n) sets.now }
    requires sets { lists_of sets.now ≡ sets_of sums.now.answers }
    ensures { OnOk result ((form : List (List ℤ)) × Reduced sums.now.n (sets_of sums.now.answers) form
        × ((d : List ℤ) × IsCanonicalDirection sums.now.n (sets_of sums.now.answers) form row d × (line.new.items ≡ direction_line name.now row d))) }
{
    // The basis of a column is the reduced form of its sets.
    let _form = sums.basis();
    let direction = sum_witness(alloc, sums, row)?;
    if !check_direction(sums.n(), sets, &direction, row) {
        unreachable!();
    }
    write_direction(line, name, row, &direction)?;
    Ok(())
}

// Checks the pair of lists that shows a row to be free.
fn check_row(
    alloc: Global,
    column: u8,
    list: &[Answered],
    maxima: &MaxColumn,
    row: u16,
) -> Result<(), NoMemory>
    requires row { row < maxima.now.n }
    requires consistent { IsConsistent maxima.now.answers }
    requires free { ¬ (IsLone maxima.now.answers row) }
    requires answers { maxima.now.answers ≡ answers_of column list.now }
    requires same_n { AllByRecursion (λ r. r.rows.n ≡ maxima.now.n) list.now }
{
    let n = maxima.bounds().n();
    let pair = max_witness(alloc, maxima, row)?;
    if !check_pair(n, column, list, &pair.lo, &pair.hi, row) {
        unreachable!();
    }
    Ok(())
}

/// Writes the line on a column of maxima, or on one of minima if `least` says so: the list with each row at its upper bound. For
/// each guarded row the pair of it and the list with that row less by 1 was checked. The numbers of a column of minima are
/// kept negated.
pub fn write_column(
    alloc: Global,
    line: &mut Vec<u8>,
    name: &str,
    least: bool,
    column: u8,
    list: &[Answered],
    maxima: &MaxColumn,
    people: &CountedRows,
) -> Result<(), NoMemory>
    requires people { people.now.n ≡ maxima.now.n }
    requires consistent { IsConsistent maxima.now.answers }
    requires free { (row : ℕ) → row < maxima.now.n → AreFew people.now.people [] (row ∷ []) → ¬ (IsLone maxima.now.answers row) }
    requires answers { maxima.now.answers ≡ answers_of column list.now }
    requires same_n { AllByRecursion (λ r. r.rows.n ≡ maxima.now.n) list.now }
    ensures { OnOk result (line.new.items ≡ bound_line least name.now (highest maxima.now.n maxima.now.answers)) }
{
    let bounds = maxima.bounds();
    // Counted rows say of themselves which rows are guarded.
    let _ = people.n();
    for row in 0..bounds.n() {
        if !people.shared().has(row) {
            check_row(alloc, column, list, maxima, row)?;
        }
    }
    let numbers = highest(alloc, bounds)?;
    write_bounds(line, name, least, &numbers)?;
    Ok(())
}
