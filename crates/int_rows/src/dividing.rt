//! A divisor of many numbers: each quotient is guessed, and the guess is tested.
ghost use Rattle.std.specs.Prelude.{◌≡◌, ◌≢◌, ◌↔◌, ℕ, pos, ◌*◌, ◌<◌, ◌≤◌, ◌^◌, ◌≤ℤ◌, ◌*ℤ◌, unsigned_abs, IsTrue, IfSome};
ghost use Rattle.std.specs.Int.{IsGcd, ◌∣◌};

use crate::divisors::{WORD, common_divisor, quotient};
use std::marker::Model;

/// The size of a number, with what helps to divide by it.
#[derive(Drop)]
pub struct Divisor {
    size: u128,
    // The size, if it fits 64 bits, and else 0.
    word: u64,
    // How often 2 divides the size, and the inverse of the rest modulo 2^64. Nothing rests on these two.
    shift: u32,
    inverse: u64,
}

impl Model for Divisor {
    ghost Value = { ℕ };

    ghost view = { λ d. d.size };

    ghost invariant = { λ d. (d.size ≤ 2 ^ 126) × (d.word ≢ 0 → d.word ≡ d.size) };
}

// The inverse of an odd number modulo 2^64. The first guess is right in 5 bits, as trying the 16 odd numbers below 32 shows,
// and each turn doubles them.
fn inverse_of(odd: u64) -> u64 {
    let mut inverse = odd.wrapping_mul(3) ^ 2;
    for _ in 0..4 {
        let over = odd.wrapping_mul(inverse);
        inverse = inverse.wrapping_mul(2_u64.wrapping_sub(over));
    }
    inverse
}

fn low_word(x: u128) -> u64 {
    (x & WORD) as u64
}

// The size, if it fits 64 bits, and else 0.
fn word_of(size: u128) -> u64
    ensures { result ≢ 0 → result ≡ size }
{
    if size <= WORD { size as u64 } else { 0 }
}

// The size without the lower bits.
fn shifted(size: u128, bits: u32) -> u64 {
    low_word(size >> (bits & 63))
}

// A size as a divisor.
fn prepare(size: u128) -> Divisor
    requires { size ≤ 2 ^ 126 }
    ensures { result ≡ size }
{
    let word = word_of(size);
    let shift = word.trailing_zeros();
    Divisor {
        size,
        word,
        shift,
        inverse: inverse_of(shifted(size, shift)),
    }
}

impl Divisor {
    /// The size of a number as a divisor.
    pub fn new(number: i128) -> Divisor
        requires { unsigned_abs number ≤ 2 ^ 126 }
        ensures { result ≡ unsigned_abs number }
    {
        prepare(number.unsigned_abs())
    }

    /// The number that it divides by.
    pub fn size(&self) -> i128
        ensures size { result ≡ pos self.now }
        ensures small { self.now ≤ 2 ^ 126 }
    {
        self.size as i128
    }

    /// Whether it is 1.
    pub fn is_one(&self) -> bool
        ensures { IsTrue result ↔ (self.now ≡ 1) }
    {
        self.size == 1
    }

    // What the size is a multiple by, if the guess is right.
    fn guess(&self, size: u128) -> Option<u64>
        ensures { IfSome result (λ q. size ≡ self.now * q) }
    {
        if self.word == 0 {
            return None;
        }
        let q = shifted(size, self.shift).wrapping_mul(self.inverse);
        if self.word as u128 * q as u128 == size {
            Some(q)
        } else {
            None
        }
    }

    /// The greatest common divisor of it and a number.
    pub fn with(self, number: i128) -> Divisor
        requires { unsigned_abs number ≤ 2 ^ 126 }
        ensures { IsGcd self (unsigned_abs number) result }
    {
        let size = number.unsigned_abs();
        match self.guess(size) {
            Some(_) => self,
            None => prepare(common_divisor(self.size, size)),
        }
    }

    /// What the number is a multiple by. None if it isn't one, or if that isn't found at once.
    pub fn exact(&self, number: i128) -> Option<i128>
        requires { unsigned_abs number ≤ 2 ^ 126 }
        ensures { IfSome result (λ q. number ≡ pos self.now *ℤ q) }
    {
        let q = self.guess(number.unsigned_abs())?;
        Some(signed(q, number < 0))
    }

    /// What a multiple of it is a multiple by.
    pub fn quotient(&self, multiple: i128) -> i128
        requires divides { self.now ∣ unsigned_abs multiple }
        requires not_zero { 0 < self.now }
        requires size { unsigned_abs multiple ≤ 2 ^ 126 }
        ensures { multiple ≡ pos self.now *ℤ result }
    {
        match self.guess(multiple.unsigned_abs()) {
            Some(q) => signed(q, multiple < 0),
            None => quotient(multiple, self.size as i128),
        }
    }
}

fn signed(size: u64, negative: bool) -> i128
    ensures size { unsigned_abs result ≡ size }
    ensures sign { IsTrue negative → result ≤ℤ pos 0 }
    ensures positive { ¬ (IsTrue negative) → pos 0 ≤ℤ result }
{
    if negative {
        -(size as i128)
    } else {
        size as i128
    }
}
