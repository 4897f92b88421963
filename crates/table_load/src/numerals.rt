//! Numbers in fields.
ghost use Rattle.std.specs.Prelude.{◌≡◌, ◌<◌, ℕ, ℤ, List, Option, Some, None, option_map};
ghost use Rattle.std.specs.List.{list_all};
ghost use Rattle.table_load.specs.Numerals.{after_spaces, digits_number, is_space, number_in, option_sign, signed_number};
ghost use Rattle.table_load.specs.Numbers.{IsNumeralOf, capped};

use audit_types::MOST_NUMBER;

// The greatest size of a number, as sizes are counted here.
const MOST: u64 = MOST_NUMBER as u64;

/// What a field is read as.
#[derive(Clone, Copy, Drop)]
pub(crate) enum Numeral {
    Number(i64),
    TooLarge,
    NoNumber,
}

#[tactic(auto, unfolding(crate::specs::Numerals::number_in))]
/// The number that a field spells, if it spells one and its size is at most 10^12.
pub(crate) fn numeral_in(field: &[u8]) -> Numeral
    ensures { IsNumeralOf result (number_in field.now) }
{
    let (minus, digits) = split_sign(after_spaces(field));
    signed(minus, size_in(digits))
}

// Whether there is a minus, and the bytes after the sign, if there is one.
#[tactic(auto, using(crate::proofs::Digits::behind_minus, crate::proofs::Digits::behind_plus, crate::proofs::Digits::no_sign))]
fn split_sign(bytes: &[u8]) -> (bool, &[u8])
    ensures { signed_number bytes.now ≡ option_sign result.0 (digits_number result.1.now) }
{
    match bytes {
        [b'-', digits @ ..] => (true, digits),
        [b'+', digits @ ..] => (false, digits),
        _ => (false, bytes),
    }
}

// A size with its sign, if it is small enough.
fn signed(minus: bool, size: Option<u64>) -> Numeral
    ensures { (n : Option ℕ) → size ≡ option_map capped n → IsNumeralOf result (option_sign minus n) }
{
    match size {
        None => Numeral::NoNumber,
        Some(size) if size > MOST => Numeral::TooLarge,
        Some(size) if minus => Numeral::Number(-(size as i64)),
        Some(size) => Numeral::Number(size as i64),
    }
}

// The bytes after the spaces at the front.
fn after_spaces(field: &[u8]) -> &[u8]
    ensures { result.now ≡ after_spaces field.now }
{
    let mut start = 0usize;
    while start < field.len() && field[start] == b' ' {
        start += 1;
    }
    &field[start..]
}

// The number of digits with nothing but spaces after them. Every size above the limit counts as one above it.
fn size_in(bytes: &[u8]) -> Option<u64>
    ensures { result ≡ option_map capped (digits_number bytes.now) }
{
    if bytes.is_empty() || !bytes[0].is_ascii_digit() {
        return None;
    }
    let mut size = 0u64;
    for (place, byte) in bytes.iter().enumerate() {
        if !byte.is_ascii_digit() {
            return if is_all_spaces(&bytes[place..]) {
                Some(size)
            } else {
                None
            };
        }
        size = (size * 10 + (*byte - b'0') as u64).min(MOST + 1);
    }
    Some(size)
}

fn is_all_spaces(bytes: &[u8]) -> bool
    ensures { result ≡ list_all is_space bytes.now }
{
    bytes.iter().all(|byte| *byte == b' ')
}
