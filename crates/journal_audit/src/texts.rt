//! Writing the lines of a report.
ghost use Rattle.std.specs.Prelude.{◌≡◌, ◌++◌, codes, OnOk};
ghost use Rattle.line_wire.specs.CommaLists.{with_commas};
ghost use Rattle.journal_audit.specs.Texts as spec;

use line_wire::{put_at_place, put_bounds, put_number};
use std::alloc::AllocError;

// Appends the numbers that aren't 0, each after its row.
fn put_moved_rows(line: &mut Vec<u8>, direction: &[i128]) -> Result<(), AllocError>
    ensures { OnOk result (line.new.items ≡ line.old.items ++ with_commas (spec.moved_rows 0 direction.now)) }
{
    let mut first = true;
    for (row, number) in direction.iter().enumerate() {
        if *number != 0 {
            put_at_place(line, first, row, *number)?;
            first = false;
        }
    }
    Ok(())
}

// Begins the line on a column, in place of what the buffer held.
fn begin_line(line: &mut Vec<u8>, name: &str) -> Result<(), AllocError>
    ensures { OnOk result (line.new.items ≡ codes "{\"column\":\"" ++ name.now) }
{
    line.clear();
    line.extend_from_slice(b"{\"column\":\"")?;
    line.extend_from_slice(name.as_bytes())
}

/// Writes the line on a row of a column of sums, in place of what the buffer held.
#[tactic(auto, unfolding(crate::specs::Texts::direction_line))]
pub fn write_direction(
    line: &mut Vec<u8>,
    name: &str,
    row: u16,
    direction: &[i128],
) -> Result<(), AllocError>
    ensures { OnOk result (line.new.items ≡ spec.direction_line name.now row direction.now) }
{
    begin_line(line, name)?;
    put_number(line, b"\",\"row\":", row)?;
    line.extend_from_slice(b",\"direction\":[")?;
    put_moved_rows(line, direction)?;
    line.extend_from_slice(b"]}\n")
}

/// Writes the line on a column of maxima, or on one of minima, in place of what the buffer held.
#[tactic(auto, unfolding(crate::specs::Texts::bound_line))]
pub fn write_bounds(
    line: &mut Vec<u8>,
    name: &str,
    least: bool,
    numbers: &[i128],
) -> Result<(), AllocError>
    ensures { OnOk result (line.new.items ≡ spec.bound_line least name.now numbers.now) }
{
    begin_line(line, name)?;
    line.extend_from_slice(b"\",")?;
    put_bounds(line, least, numbers)?;
    line.extend_from_slice(b"}\n")
}

// Appends how many people the rows stand for, if they are counted.
fn put_people(line: &mut Vec<u8>, people: Option<u64>) -> Result<(), AllocError>
    ensures { OnOk result (line.new.items ≡ line.old.items ++ spec.people_part people) }
{
    match people {
        Some(people) => put_number(line, b",\"people\":", people),
        None => Ok(()),
    }
}

/// Writes the last line, in place of what the buffer held.
#[tactic(auto, unfolding(crate::specs::Texts::total_line))]
pub fn write_totals(
    line: &mut Vec<u8>,
    records: usize,
    columns: u8,
    rows: u16,
    people: Option<u64>,
) -> Result<(), AllocError>
    ensures { OnOk result (line.new.items ≡ spec.total_line records columns rows people) }
{
    line.clear();
    put_number(line, b"{\"audited\":", records)?;
    put_number(line, b",\"columns\":", columns)?;
    put_number(line, b",\"rows\":", rows)?;
    put_people(line, people)?;
    line.extend_from_slice(b"}\n")
}
