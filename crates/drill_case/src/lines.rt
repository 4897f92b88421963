//! The questions of a drill.
ghost use Rattle.std.specs.Prelude.{◌≡◌, ◌≤◌, ◌+◌, ◌*◌, ◌%◌, ◌++◌, codes, decimal, length, IfOk, OnOk};
ghost use Rattle.drill_case.specs.Draws.{state_after};
ghost use Rattle.drill_case.specs.Tables.{drill_rows};
ghost use Rattle.drill_case.specs.Lines.{drill_count, question_text, ages_text, band_text, line_of_draws, first_lines, drill_text};

use crate::draws::Draws;
use crate::tables::row_count;
use audit_types::NoMemory;
use itoa::Buffer;
use std::alloc::{AllocError, Global};

// How many lines are asked. It is a function so that proofs don't list them.
#[tactic(auto, unfolding(crate::specs::Lines::drill_count))]
fn line_count() -> u16
    ensures lines { result ≡ drill_count }
    ensures at_most { result ≤ 600 }
{
    600
}

// How a line begins: what is asked of which column, by a draw.
fn line_start(draw: u32) -> &'static [u8]
    ensures exact { result.now ≡ codes "{\"ask\":" ++ question_text (draw % 3) ++ codes ",\"where\":\"" }
    ensures short { length result.now ≤ 38 }
{
    match draw % 3 {
        0 => b"{\"ask\":\"sum\",\"column\":\"pay\",\"where\":\"",
        1 => b"{\"ask\":\"avg\",\"column\":\"pay\",\"where\":\"",
        _ => b"{\"ask\":\"max\",\"column\":\"best\",\"where\":\"",
    }
}

// Appends words, and a number in decimal.
fn put_number(lines: &mut Vec<u8>, words: &[u8], number: u8) -> Result<(), AllocError>
    ensures exact { OnOk result (lines.new.items ≡ lines.old.items ++ words.now ++ decimal number) }
    ensures short { OnOk result (length lines.new.items ≤ length lines.old.items + length words.now + 3) }
{
    let mut buffer = Buffer::new();
    lines.extend_from_slice(words)?;
    lines.extend_from_slice(buffer.format(number).as_bytes())
}

// Appends the band whose rows are taken in, if the draw is for one.
fn put_band(lines: &mut Vec<u8>, draw: u32) -> Result<(), AllocError>
    ensures exact { OnOk result (lines.new.items ≡ lines.old.items ++ band_text draw) }
    ensures short { OnOk result (length lines.new.items ≤ length lines.old.items + 14) }
{
    if draw % 4 != 0 {
        return Ok(());
    }
    put_number(lines, b" or band = ", (draw / 4 % 8) as u8)
}

// Appends the condition on the ages from one to another.
#[tactic(auto, unfolding(crate::specs::Lines::ages_text))]
fn put_ages(lines: &mut Vec<u8>, least: u8, most: u8) -> Result<(), AllocError>
    ensures exact { OnOk result (lines.new.items ≡ lines.old.items ++ ages_text least most) }
    ensures short { OnOk result (length lines.new.items ≤ length lines.old.items + 30) }
{
    put_number(lines, b"age >= ", least)?;
    put_number(lines, b" and age <= ", most)
}

// The least and the most age that a line asks for, by two draws.
fn ages_of_draws(from: u32, span: u32) -> (u8, u8)
    ensures least { result.0 ≡ 20 + from % 50 }
    ensures most { result.1 ≡ 20 + from % 50 + span % 30 }
{
    let least = 20 + (from % 50) as u8;
    (least, least + (span % 30) as u8)
}

// Appends the line of four draws.
#[tactic(auto, unfolding(crate::specs::Lines::line_of_draws))]
fn put_line(
    lines: &mut Vec<u8>,
    ask: u32,
    from: u32,
    span: u32,
    band: u32,
) -> Result<(), AllocError>
    ensures exact { OnOk result (lines.new.items ≡ lines.old.items ++ line_of_draws ask from span band) }
    ensures short { OnOk result (length lines.new.items ≤ length lines.old.items + 100) }
{
    let (least, most) = ages_of_draws(from, span);
    lines.extend_from_slice(line_start(ask))?;
    put_ages(lines, least, most)?;
    put_band(lines, band)?;
    lines.extend_from_slice(b"\"}\n")
}

// The lines that the draws after the table's make.
fn write_lines(alloc: Global, number: u32, count: u16) -> Result<Vec<u8>, AllocError>
    ensures exact { IfOk result (λ lines. lines.items ≡ first_lines number count) }
    ensures short { IfOk result (λ lines. length lines.items ≤ 100 * count) }
{
    let mut draws = Draws::new(number);
    draws.skip_fours(row_count());
    let mut lines = Vec::new(alloc);
    for _line in 0..count {
        let [ask, from, span, band] = draws.four();
        put_line(&mut lines, ask, from, span, band)?;
    }
    Ok(lines)
}

/// The questions of a drill, a line each.
pub fn drill_lines(alloc: Global, number: u32) -> Result<Vec<u8>, NoMemory>
    ensures lines { IfOk result (λ lines. lines.items ≡ drill_text number) }
    ensures short { IfOk result (λ lines. length lines.items ≤ 60000) }
{
    Ok(write_lines(alloc, number, line_count())?)
}
