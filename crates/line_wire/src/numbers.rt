//! Numbers, and lists of them, appended to a line.
ghost use Rattle.std.specs.Prelude.{◌≡◌, ◌++◌, map, codes, neg_ℤ, OnOk};
ghost use Rattle.std.specs.Fmt.{signed_decimal};
ghost use Rattle.line_wire.specs.CommaLists as spec;

use itoa::{Buffer, Integer};
use std::alloc::AllocError;

/// Appends words, and a number in decimal.
pub fn put_number<I: Integer>(line: &mut Vec<u8>, words: &[u8], number: I) -> Result<(), AllocError>
    ensures { OnOk result (line.new.items ≡ line.old.items ++ words.now ++ I.text number) }
{
    let mut buffer = Buffer::new();
    line.extend_from_slice(words)?;
    line.extend_from_slice(buffer.format(number).as_bytes())
}

// A comma, unless it would be the first of a list.
fn comma_unless(first: bool) -> &'static [u8]
    ensures { result.now ≡ spec.comma_unless first }
{
    if first { b"" } else { b"," }
}

// Appends words, and the negation of a number in decimal.
fn put_negated(line: &mut Vec<u8>, words: &[u8], number: i128) -> Result<(), AllocError>
    ensures { OnOk result (line.new.items ≡ line.old.items ++ words.now ++ signed_decimal (neg_ℤ number)) }
{
    line.extend_from_slice(words)?;
    if number > 0 {
        line.extend_from_slice(b"-")?;
    }
    put_number(line, b"", number.unsigned_abs())
}

/// Appends words, and a number that was kept in decimal, as the table has it.
pub fn put_stated(
    line: &mut Vec<u8>,
    words: &[u8],
    least: bool,
    number: i128,
) -> Result<(), AllocError>
    ensures { OnOk result (line.new.items ≡ line.old.items ++ words.now ++ spec.stated least number) }
{
    if least {
        put_negated(line, words, number)
    } else {
        put_number(line, words, number)
    }
}

// Appends numbers that were kept as the table has them, with commas between them.
fn put_numbers(line: &mut Vec<u8>, least: bool, numbers: &[i128]) -> Result<(), AllocError>
    ensures { OnOk result (line.new.items ≡ line.old.items ++ spec.with_commas (map (spec.stated least) numbers.now)) }
{
    let mut first = true;
    for number in numbers {
        put_stated(line, comma_unless(first), least, *number)?;
        first = false;
    }
    Ok(())
}

// What stands before the bounds of a column.
fn bounds_front(least: bool) -> &'static [u8]
    ensures { result.now ≡ spec.bounds_front least }
{
    if least { b"\"low\":[" } else { b"\"high\":[" }
}

/// Appends the bounds of a column: under `high` the numbers that none of a column of maxima is above, and under `low` those that
/// none of a column of minima is below, whose numbers are kept negated.
pub fn put_bounds(line: &mut Vec<u8>, least: bool, numbers: &[i128]) -> Result<(), AllocError>
    ensures { OnOk result (line.new.items ≡ line.old.items ++ spec.bounds least numbers.now) }
{
    line.extend_from_slice(bounds_front(least))?;
    put_numbers(line, least, numbers)?;
    line.extend_from_slice(b"]")
}

// What stands before a place: a bracket, after a comma unless the place would be the first of a list.
fn place_start(first: bool) -> &'static [u8]
    ensures { result.now ≡ spec.comma_unless first ++ codes "[" }
{
    if first { b"[" } else { b",[" }
}

/// Appends a number after the place that it is of, the first of a list or a later one.
pub fn put_at_place(
    line: &mut Vec<u8>,
    first: bool,
    place: usize,
    number: i128,
) -> Result<(), AllocError>
    ensures { OnOk result (line.new.items ≡ line.old.items ++ spec.comma_unless first ++ spec.at_place place number) }
{
    put_number(line, place_start(first), place)?;
    put_number(line, b",", number)?;
    line.extend_from_slice(b"]")
}
