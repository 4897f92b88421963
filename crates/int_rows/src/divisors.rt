//! Divisors and multiples of two numbers, and of all entries of a row.
ghost use Rattle.std.specs.Prelude.{◌≡◌, ◌≢◌, ◌↔◌, ◌*ℤ◌, ◌%◌, ℕ, [], ◌∷◌, pos, ◌<◌, ◌≤◌, ◌^◌, ◌<ℤ◌, ◌≤ℤ◌, unsigned_abs, IsTrue, MatchOption};
ghost use Rattle.std.specs.Int.{IsGcd, ◌∣◌};
ghost use Rattle.std.specs.List.{AllByRecursion};
ghost use Rattle.audit_types.specs.Form.{IsContent, IsLeastCommonMultiple};

/// The greatest number of 64 bits: numbers up to it are divided as such, which costs a fraction of the time.
pub const WORD: u128 = u64::MAX as u128;

fn remainder(x: u128, y: u128) -> u128
    requires { 0 < y }
    ensures { result ≡ x % y }
{
    if x <= WORD && y <= WORD {
        (x as u64 % y as u64) as u128
    } else {
        x % y
    }
}

/// The greatest common divisor of two sizes, by Euclid's algorithm.
pub fn common_divisor(a: u128, b: u128) -> u128
    requires a { a ≤ 2 ^ 126 }
    requires b { b ≤ 2 ^ 126 }
    ensures divisor { IsGcd a b result }
    ensures small { result ≤ 2 ^ 126 }
{
    let mut x = a;
    let mut y = b;
    while y != 0 {
        let rest = remainder(x, y);
        x = y;
        y = rest;
    }
    x
}

/// The greatest common divisor, never negative. `gcd(0, 0)` is 0.
pub fn gcd(a: i128, b: i128) -> i128
    requires a { unsigned_abs a ≤ 2 ^ 126 }
    requires b { unsigned_abs b ≤ 2 ^ 126 }
    ensures { (g : ℕ) × (result ≡ pos g) × IsGcd (unsigned_abs a) (unsigned_abs b) g × (g ≤ 2 ^ 126) }
{
    common_divisor(a.unsigned_abs(), b.unsigned_abs()) as i128
}

fn common_multiple(a: u128, b: u128) -> u128
    requires a { (0 < a) × (a ≤ 2 ^ 56) }
    requires b { (0 < b) × (b ≤ 2 ^ 56) }
    ensures multiple { IsLeastCommonMultiple (a ∷ b ∷ []) result }
    ensures small { result ≤ 2 ^ 112 }
{
    if a == 1 || a == b {
        return b;
    }
    if b == 1 {
        return a;
    }
    let divisor = common_divisor(a, b);
    (a as u64 / divisor as u64) as u128 * b
}

// Whether the size is less than 2^62.
fn is_short(x: i128) -> bool
    ensures { IsTrue result ↔ (unsigned_abs x < 2 ^ 62) }
{
    x.unsigned_abs() < 1 << 62
}

// A quotient of numbers of 64 bits, which takes less time. It is a function so that a clause says what it is.
fn short_quotient(multiple: i64, of: i64) -> i64
    requires divides { unsigned_abs of ∣ unsigned_abs multiple }
    requires not_zero { of ≢ pos 0 }
    requires size { unsigned_abs multiple < 2 ^ 62 }
    ensures { multiple ≡ of *ℤ result }
{
    multiple / of
}

/// What a multiple of a number is a multiple by.
pub fn quotient(multiple: i128, of: i128) -> i128
    requires divides { unsigned_abs of ∣ unsigned_abs multiple }
    requires not_zero { of ≢ pos 0 }
    requires size { unsigned_abs multiple ≤ 2 ^ 126 }
    ensures { multiple ≡ of *ℤ result }
{
    if of == 1 || multiple == 0 {
        return multiple;
    }
    if is_short(multiple) && is_short(of) {
        short_quotient(multiple as i64, of as i64) as i128
    } else {
        multiple / of
    }
}

/// The least common multiple of two numbers, both at least 1. `None` exactly if it passes the limit.
pub fn lcm_within(a: i128, b: i128, limit: i128) -> Option<i128>
    requires a { (pos 0 <ℤ a) × (a ≤ℤ pos (2 ^ 56)) }
    requires b { (pos 0 <ℤ b) × (b ≤ℤ pos (2 ^ 56)) }
    requires limit { (pos 0 <ℤ limit) × (limit ≤ℤ pos (2 ^ 56)) }
    ensures { (m : ℕ) × IsLeastCommonMultiple (unsigned_abs a ∷ unsigned_abs b ∷ []) m × MatchOption result (limit <ℤ pos m) (λ x. (x ≡ pos m) × (pos m ≤ℤ limit)) }
{
    let multiple = common_multiple(a.unsigned_abs(), b.unsigned_abs());
    if multiple <= limit.unsigned_abs() {
        Some(multiple as i128)
    } else {
        None
    }
}

fn size_of_content(row: &[i128]) -> u128
    requires { AllByRecursion (λ x. unsigned_abs x ≤ 2 ^ 126) row.now }
    ensures content { IsContent row.now result }
    ensures small { result ≤ 2 ^ 126 }
{
    let mut divisor = 0;
    for x in row {
        if divisor == 1 {
            return 1;
        }
        divisor = common_divisor(divisor, x.unsigned_abs());
    }
    divisor
}

/// The greatest common divisor of all entries, 0 if all are 0.
pub fn content(row: &[i128]) -> i128
    requires { AllByRecursion (λ x. unsigned_abs x ≤ 2 ^ 126) row.now }
    ensures { (g : ℕ) × (result ≡ pos g) × IsContent row.now g × (g ≤ 2 ^ 126) }
{
    size_of_content(row) as i128
}
