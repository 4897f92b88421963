//! Tokens of a text, taken one by one as they are wanted: the longest is taken.
ghost use Rattle.std.specs.Prelude.{◌≡◌, ◌≤◌, ◌<◌, ◌+◌, ℕ, List, true, false, length, drop, Some, IfSome, IfOk, IsTrue, slice_index};
ghost use Rattle.std.specs.List.{take_while};
ghost use Rattle.std.specs.Char.{is_ascii_alphabetic, is_ascii_digit};
ghost use Rattle.schema_json.specs.Columns.{Column, is_name_byte};
ghost use Rattle.schema_json.specs.Decimals.{decimal_after};
ghost use Rattle.predicate_lang.specs.Tokens.{is_blank, lexed_from, within_most, number_of, number_at, number_front, quoted, text_front, mark_front, front_token, word_token, word_front, is_equals_next};
ghost use Rattle.predicate_lang.specs.Lexing.{seen, seen_front, lexeme, Takes, Quotes, Lexes};

use crate::tokens::{Lexeme, Quote, Token};
use crate::trees::{Literal, Op, WhereFault, Word};
use audit_types::MOST_NUMBER;
use schema_json::Schema;
use std::alloc::Global;

// The greatest size of a number, as sizes are counted here.
const MOST: u64 = MOST_NUMBER as u64;

fn is_blank(byte: u8) -> bool
    ensures { result ≡ is_blank byte }
{
    byte == b' ' || byte == b'\t' || byte == b'\r' || byte == b'\n'
}

fn is_name_byte(byte: u8) -> bool
    ensures { result ≡ is_name_byte byte }
{
    byte.is_ascii_alphanumeric() || byte == b'_'
}

// The offset of the first byte from an offset on that isn't a blank.
#[tactic(auto, using(crate::proofs::Lexed::lexed_from_blank))]
fn skip_blanks(bytes: &[u8], from: usize) -> usize
    requires { from ≤ length bytes.now }
    ensures behind { from ≤ result }
    ensures within { result ≤ length bytes.now }
    ensures same { lexed_from bytes.now result ≡ lexed_from bytes.now from }
    ensures stopped { result < length bytes.now → is_blank (slice_index bytes.now result) ≡ false }
{
    let mut at = from;
    'blanks: while at < bytes.len() && is_blank(bytes[at]) {
        at += 1;
    }
    at
}

// How many bytes of a name there are at the front.
fn name_length(bytes: &[u8]) -> usize
    ensures exact { result ≡ length (take_while is_name_byte bytes.now) }
    ensures within { result ≤ length bytes.now }
{
    bytes.iter().take_while(|byte| is_name_byte(**byte)).count()
}

// How many digits there are at the front.
fn digits_length(bytes: &[u8]) -> usize
    ensures exact { result ≡ length (take_while is_ascii_digit bytes.now) }
    ensures within { result ≤ length bytes.now }
{
    bytes
        .iter()
        .take_while(|byte| byte.is_ascii_digit())
        .count()
}

// The number that digits mean, if it isn't too large.
#[tactic(auto, using(crate::proofs::Numbers::decimal_after_grows))]
fn magnitude(digits: &[u8]) -> Option<u64>
    ensures { result ≡ within_most (decimal_after 0 digits.now) }
{
    let mut value = 0u64;
    for digit in digits {
        value = 10 * value + u64::from(digit.saturating_sub(b'0'));
        if value > MOST {
            return None;
        }
    }
    Some(value)
}

// The number of digits after a minus sign or none.
fn number_of(minus: bool, digits: &[u8]) -> Option<i64>
    ensures { result ≡ number_of minus digits.now }
{
    if digits.is_empty() {
        return None;
    }
    let size = magnitude(digits)?;
    if minus {
        Some(-(size as i64))
    } else {
        Some(size as i64)
    }
}

// What stands after an opening quote, if it is closed. A doubled quote is one.
fn quoted(alloc: Global, rest: &[u8]) -> Result<Option<Quote>, WhereFault>
    requires { length rest.now ≤ 16384 }
    ensures exact { Quotes (quoted false rest.now) result }
    ensures within { IfOk result (λ o. IfSome o (λ q. q.bytes ≤ length rest.now)) }
{
    let mut list = Vec::new(alloc);
    let mut at = 0usize;
    'bytes: while at < rest.len() {
        let byte = rest[at];
        if byte != b'\'' {
            list.push(byte)?;
            at += 1;
        } else if at + 1 < rest.len() && rest[at + 1] == b'\'' {
            list.push(byte)?;
            at += 2;
        } else {
            return Ok(Some(Quote {
                word: Word { bytes: list },
                bytes: at + 1,
            }));
        }
    }
    Ok(None)
}

fn word_token(schema: &Schema, word: &str) -> Token
    ensures { result ≡ seen schema.now.columns (word_token word.now) }
{
    match word {
        "and" => Token::And,
        "or" => Token::Or,
        "not" => Token::Not,
        "all" => Token::All,
        "in" => Token::In,
        _ => Token::Column(schema.find(word)),
    }
}

// A keyword or a name, whose first letter stands at an offset.
fn word(schema: &Schema, text: &str, at: usize) -> Lexeme
    requires short { length text.now ≤ 16384 }
    requires inside { at < length text.now }
    requires letter { is_ascii_alphabetic (slice_index text.now at) ≡ true }
    ensures exact { lexeme schema.now.columns at (word_front (slice_index text.now at) (drop (at + 1) text.now)) ≡ Some result }
    ensures within { result.end ≤ length text.now }
{
    let bytes = text.as_bytes();
    let end = at + 1 + name_length(&bytes[at + 1..]);
    Lexeme {
        token: word_token(schema, &text[at..end]),
        at: at as u32,
        end,
    }
}

// The number whose minus sign or first digit stands at an offset, and after whose digits another one is.
#[tactic(auto, using(crate::proofs::Fronts::take_front, crate::proofs::Fronts::take_behind))]
fn number_between(bytes: &[u8], at: usize, end: usize) -> Option<i64>
    requires inside { at < length bytes.now }
    requires within { end ≤ length bytes.now }
    requires digits { end ≡ at + 1 + length (take_while is_ascii_digit (drop (at + 1) bytes.now)) }
    ensures { result ≡ number_at (slice_index bytes.now at) (drop (at + 1) bytes.now) }
{
    if bytes[at] == b'-' {
        number_of(true, &bytes[at + 1..end])
    } else {
        number_of(false, &bytes[at..end])
    }
}

// A number, whose minus sign or first digit stands at an offset.
fn number(bytes: &[u8], at: usize) -> Result<Lexeme, WhereFault>
    requires short { length bytes.now ≤ 16384 }
    requires inside { at < length bytes.now }
    ensures exact { (columns : List Column) → Takes (lexeme columns at (number_front (slice_index bytes.now at) (drop (at + 1) bytes.now))) at result }
    ensures within { IfOk result (λ l. l.end ≤ length bytes.now) }
{
    let end = at + 1 + digits_length(&bytes[at + 1..]);
    match number_between(bytes, at, end) {
        Some(n) => Ok(Lexeme {
            token: Token::Value(Literal::Number(n)),
            at: at as u32,
            end,
        }),
        None => Err(WhereFault::Bad { at: at as u32 }),
    }
}

// A text, whose opening quote stands at an offset.
fn text_literal(alloc: Global, bytes: &[u8], at: usize) -> Result<Lexeme, WhereFault>
    requires short { length bytes.now ≤ 16384 }
    requires inside { at < length bytes.now }
    ensures exact { (columns : List Column) → Takes (lexeme columns at (text_front (quoted false (drop (at + 1) bytes.now)))) at result }
    ensures within { IfOk result (λ l. l.end ≤ length bytes.now) }
{
    match quoted(alloc, &bytes[at + 1..])? {
        Some(Quote { word, bytes }) => Ok(Lexeme {
            token: Token::Value(Literal::Text(word)),
            at: at as u32,
            end: at + 1 + bytes,
        }),
        None => Err(WhereFault::Bad { at: at as u32 }),
    }
}

fn is_equals_next(bytes: &[u8]) -> bool
    ensures exact { result ≡ is_equals_next bytes.now }
    ensures some { IsTrue result → 0 < length bytes.now }
{
    match bytes {
        [] => false,
        [next, ..] => *next == b'=',
    }
}

// The token of a mark, with how many bytes follow its first one.
fn mark(byte: u8, rest: &[u8]) -> Option<(Token, usize)>
    ensures exact { (columns : List Column) → seen_front columns (mark_front byte rest.now) ≡ result }
    ensures within { IfSome result (λ m. m.1 ≤ length rest.now) }
{
    let equals = is_equals_next(rest);
    match byte {
        b'=' => Some((Token::Operator(Op::Eq), 0)),
        b'!' if equals => Some((Token::Operator(Op::Ne), 1)),
        b'<' if equals => Some((Token::Operator(Op::Le), 1)),
        b'<' => Some((Token::Operator(Op::Lt), 0)),
        b'>' if equals => Some((Token::Operator(Op::Ge), 1)),
        b'>' => Some((Token::Operator(Op::Gt), 0)),
        b'(' => Some((Token::OpenBracket, 0)),
        b')' => Some((Token::CloseBracket, 0)),
        b',' => Some((Token::Comma, 0)),
        _ => None,
    }
}

// The token whose first byte stands at an offset.
fn token_at(alloc: Global, schema: &Schema, text: &str, at: usize) -> Result<Lexeme, WhereFault>
    requires short { length text.now ≤ 16384 }
    requires inside { at < length text.now }
    ensures exact { Takes (lexeme schema.now.columns at (front_token (slice_index text.now at) (drop (at + 1) text.now))) at result }
    ensures within { IfOk result (λ l. l.end ≤ length text.now) }
{
    let bytes = text.as_bytes();
    let first = bytes[at];
    if first.is_ascii_alphabetic() {
        return Ok(word(schema, text, at));
    }
    if first.is_ascii_digit() || first == b'-' {
        return number(bytes, at);
    }
    if first == b'\'' {
        return text_literal(alloc, bytes, at);
    }
    match mark(first, &bytes[at + 1..]) {
        Some((token, more)) => Ok(Lexeme {
            token,
            at: at as u32,
            end: at + 1 + more,
        }),
        None => Err(WhereFault::Bad { at: at as u32 }),
    }
}

/// The first token from an offset on, or the offset where none begins.
pub(crate) fn next_token(
    alloc: Global,
    schema: &Schema,
    text: &str,
    from: usize,
) -> Result<Option<Lexeme>, WhereFault>
    requires short { length text.now ≤ 16384 }
    requires inside { from ≤ length text.now }
    ensures { Lexes schema.now.columns text.now from result }
{
    let at = skip_blanks(text.as_bytes(), from);
    if at == text.len() {
        return Ok(None);
    }
    Ok(Some(token_at(alloc, schema, text, at)?))
}
