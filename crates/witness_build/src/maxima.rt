//! A pair of lists for a column of maxima.
ghost use Rattle.std.specs.Prelude.{◌≡◌, ◌≢◌, ◌<◌, ◌++◌, ◌∷◌, [], IfOk, OnOk, length};
ghost use Rattle.std.specs.List.{All};
ghost use Rattle.audit_types.specs.Truth.{number_at};
ghost use Rattle.audit_types.specs.Column.{Agrees};
ghost use Rattle.audit_types.specs.Extremes.{IsConsistent, IsLone};
ghost use Rattle.max_audit.specs.Candidates.{IsNearRange};
ghost use Rattle.max_audit.specs.Witnesses.{bound_or_zero, highest, lowered_at};

use audit_types::NoMemory;
use max_audit::{MaxColumn, laws};
use max_bounds::Bounds;
use std::alloc::Global;

/// Two lists with a number for each row, which give the same answers and differ at one row.
#[derive(Drop)]
pub struct Pair {
    pub lo: Vec<i128>,
    pub hi: Vec<i128>,
}

fn or_zero(bound: Option<i64>) -> i128
    ensures exact { result ≡ bound_or_zero bound }
    ensures near { IsNearRange result }
{
    match bound {
        Some(bound) => bound as i128,
        None => 0,
    }
}

fn push(list: &mut Vec<i128>, number: i128) -> Result<(), NoMemory>
    ensures { OnOk result (list.new.items ≡ list.old.items ++ number ∷ []) }
{
    list.push(number)?;
    Ok(())
}

/// Each row at its upper bound, and at 0 without one.
pub fn highest(alloc: Global, bounds: &Bounds) -> Result<Vec<i128>, NoMemory>
    ensures exact { IfOk result (λ list. list.items ≡ highest bounds.now.n bounds.now.answers) }
    ensures one_each { IfOk result (λ list. length list.items ≡ bounds.now.n) }
    ensures near { IfOk result (λ list. All IsNearRange list.items) }
{
    let mut list = Vec::new(alloc);
    for row in 0..bounds.n() {
        push(&mut list, or_zero(bounds.upper(row)))?;
    }
    Ok(list)
}

// The list with one row less by 1.
fn lowered(alloc: Global, list: &[i128], row: u16) -> Result<Vec<i128>, NoMemory>
    requires within { row < length list.now }
    requires near { All IsNearRange list.now }
    ensures exact { IfOk result (λ lowered. lowered.items ≡ lowered_at list.now row) }
{
    let mut lowered = Vec::from_slice(alloc, list)?;
    lowered[row as usize] -= 1;
    Ok(lowered)
}

/// The list with each row at its upper bound, and at 0 if it has none, and the same list with this row less by 1.
/// Both give every answer of the column.
pub fn max_witness(alloc: Global, column: &MaxColumn, row: u16) -> Result<Pair, NoMemory>
    requires row { row < column.now.n }
    requires consistent { IsConsistent column.now.answers }
    requires free { ¬ (IsLone column.now.answers row) }
    ensures high { IfOk result (λ pair. pair.hi.items ≡ highest column.now.n column.now.answers) }
    ensures low { IfOk result (λ pair. pair.lo.items ≡ lowered_at (highest column.now.n column.now.answers) row) }
    ensures agree { IfOk result (λ pair. Agrees column.now pair.lo.items × Agrees column.now pair.hi.items) }
    ensures differ { IfOk result (λ pair. number_at pair.lo.items row ≢ number_at pair.hi.items row) }
{
    laws::others_are_free();
    let bounds = column.bounds();
    let hi = highest(alloc, bounds)?;
    let lo = lowered(alloc, &hi, row)?;
    Ok(Pair { lo, hi })
}
