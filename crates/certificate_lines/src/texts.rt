//! Writing the lines that show why a question is denied.
ghost use Rattle.std.specs.Prelude.{◌≡◌, ◌++◌, codes, decimal, map, OnOk};
ghost use Rattle.line_wire.specs.CommaLists.{comma_unless, with_commas};
ghost use Rattle.certificate_lines.specs.Texts as spec;

use audit_types::RowSet;
use denial_proof::{FewRows, OwnShare, Proof, Target, Term};
use line_wire::{Take, put_at_place, put_bounds, put_number, put_stated};
use std::alloc::AllocError;

/// Writes words, in place of what the buffer held.
pub(crate) fn write_words(line: &mut Vec<u8>, words: &[u8]) -> Result<(), AllocError>
    ensures { OnOk result (line.new.items ≡ words.now) }
{
    line.clear();
    line.extend_from_slice(words)
}

// Appends what a sum would give away.
fn put_target(line: &mut Vec<u8>, target: Target) -> Result<(), AllocError>
    ensures { OnOk result (line.new.items ≡ line.old.items ++ spec.target_text target) }
{
    match target {
        Target::Row(row) => put_number(line, b"\"row\":", row),
        Target::Group(place) => put_number(line, b"\"group\":", place),
    }
}

// Appends the row whose number the asker knows, with its share, if there is one.
fn put_share(line: &mut Vec<u8>, share: Option<OwnShare>) -> Result<(), AllocError>
    ensures { OnOk result (line.new.items ≡ line.old.items ++ spec.share_text share) }
{
    match share {
        Some(OwnShare { own, share }) => {
            put_number(line, b",\"own\":", own)?;
            put_number(line, b",\"share\":", share)
        }
        None => Ok(()),
    }
}

// A comma, unless it would be the first of a list.
fn comma_unless(first: bool) -> &'static [u8]
    ensures { result.now ≡ comma_unless first }
{
    if first { b"" } else { b"," }
}

// Appends row numbers, with commas between them.
fn put_rows(line: &mut Vec<u8>, rows: &RowSet) -> Result<(), AllocError>
    ensures { OnOk result (line.new.items ≡ line.old.items ++ with_commas (map decimal rows.now.list)) }
{
    let mut first = true;
    for row in rows.iter() {
        put_number(line, comma_unless(first), row)?;
        first = false;
    }
    Ok(())
}

// Appends the rows that alone can have an answer.
fn put_few(line: &mut Vec<u8>, few: &FewRows) -> Result<(), AllocError>
    ensures { OnOk result (line.new.items ≡ line.old.items ++ spec.few_text few.now) }
{
    match few {
        FewRows::One(row) => put_number(line, b"\"row\":", *row),
        FewRows::Beside { row, own } => {
            put_number(line, b"\"row\":", *row)?;
            put_number(line, b",\"own\":", *own)
        }
        FewRows::Several(rows) => {
            line.extend_from_slice(b"\"rows\":[")?;
            put_rows(line, rows)?;
            line.extend_from_slice(b"]")
        }
    }
}

// Appends the terms, with commas between them.
fn put_terms(line: &mut Vec<u8>, terms: &[Term]) -> Result<(), AllocError>
    ensures { OnOk result (line.new.items ≡ line.old.items ++ with_commas (map spec.term_text terms.now)) }
{
    let mut first = true;
    for term in terms {
        put_at_place(line, first, term.place as usize, term.times)?;
        first = false;
    }
    Ok(())
}

// Appends the answer that the rows alone can have.
fn put_pair(line: &mut Vec<u8>, pair: Option<u32>) -> Result<(), AllocError>
    ensures { OnOk result (line.new.items ≡ line.old.items ++ codes ",\"pair\":" ++ spec.pair_text pair) }
{
    match pair {
        Some(place) => put_number(line, b",\"pair\":", place),
        None => line.extend_from_slice(b",\"pair\":\"asked\""),
    }
}

// Writes the line of a sum, in place of what the buffer held.
fn write_sum(
    line: &mut Vec<u8>,
    target: Target,
    share: Option<OwnShare>,
    times: i128,
    terms: &[Term],
    asked: i128,
) -> Result<(), AllocError>
    ensures { OnOk result (line.new.items ≡ spec.sum_line target share times terms.now asked) }
{
    write_words(line, b"{\"verdict\":\"unsafe\",")?;
    put_target(line, target)?;
    put_share(line, share)?;
    put_number(line, b",\"times\":", times)?;
    line.extend_from_slice(b",\"by\":[")?;
    put_terms(line, terms)?;
    put_number(line, b"],\"asked\":", asked)?;
    line.extend_from_slice(b"}\n")
}

// Whether the numbers are kept negated of which this is taken.
fn is_least(take: Take) -> bool
    ensures { result ≡ spec.is_least take }
{
    matches!(take, Take::Min)
}

// Writes the line of a maximum or of a minimum, in place of what the buffer held.
fn write_bounds(
    line: &mut Vec<u8>,
    least: bool,
    answer: i128,
    few: &FewRows,
    pair: Option<u32>,
    high: &[i128],
) -> Result<(), AllocError>
    ensures { OnOk result (line.new.items ≡ spec.bound_line least answer few.now pair high.now) }
{
    write_words(line, b"{\"verdict\":\"unsafe\",")?;
    put_stated(line, b"\"answer\":", least, answer)?;
    line.extend_from_slice(b",")?;
    put_few(line, few)?;
    put_pair(line, pair)?;
    line.extend_from_slice(b",")?;
    put_bounds(line, least, high)?;
    line.extend_from_slice(b"}\n")
}

/// Writes the line with a proof of a denial of what is taken, in place of what the buffer held.
pub(crate) fn write_proof(line: &mut Vec<u8>, take: Take, proof: &Proof) -> Result<(), AllocError>
    ensures { OnOk result (line.new.items ≡ spec.proof_line take proof.now) }
{
    match proof {
        Proof::Sum {
            target,
            share,
            times,
            terms,
            asked,
        } => write_sum(line, *target, *share, *times, &terms.list, *asked),
        Proof::Max {
            answer,
            few,
            pair,
            high,
        } => write_bounds(line, is_least(take), *answer, few, *pair, &high.list),
    }
}
