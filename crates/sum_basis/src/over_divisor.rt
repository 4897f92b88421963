//! Two lists of entries combined over a divisor, place by place, if it divides each value.
ghost use Rattle.std.specs.Prelude.{◌≡◌, ◌≢◌, ℕ, ◌<◌, ◌≤◌, ◌+◌, ◌++◌, ◌^◌, cond, ℤ, pos, ◌<ℤ◌, ◌-ℤ◌, ◌*ℤ◌, [], ◌∷◌, length, map, unsigned_abs, IsTrue, IfSome};
ghost use Rattle.std.specs.Int.{◌∣◌};
ghost use Rattle.std.specs.List.{AllByRecursion};
ghost use Rattle.std.specs.Vec.{vec_len, vec_capacity};
ghost use Rattle.audit_types.specs.Truth.{is_zero};
ghost use Rattle.sum_basis.specs.Sparse.{entry_at, IsListed, scaled};

use crate::cleared_list::{product, value_at};
use crate::merging::difference;
use crate::sparse::FreeEntry;
use int_rows::Divisor;

/// How many entries a list has at least for which a divisor is tried.
pub const LONG: usize = 64;

// How many entries are tried for a divisor.
const FEW: usize = 12;

// An entry to be tried. They are spread over the list, since neighbours often have the same value.
fn entry_to_try(entries: &[FreeEntry], k: usize) -> Option<FreeEntry>
    requires { IsListed 0 65536 entries.now }
    ensures { IfSome result (λ e. e.value ≡ entry_at entries.now e.place) }
{
    let at = k.wrapping_mul(entries.len() / FEW);
    if at < entries.len() {
        Some(entries[at])
    } else {
        None
    }
}

/// A divisor of the pivot entry that each divisor of it and of all values divides: that of the pivot entry and a few values.
pub fn first_divisor(
    head: i128,
    by: i128,
    first: &[FreeEntry],
    times: i128,
    second: &[FreeEntry],
) -> Divisor
    requires head { (pos 0 <ℤ head) × (unsigned_abs head ≤ 2 ^ 126) }
    requires by { unsigned_abs by ≤ 2 ^ 56 }
    requires times { unsigned_abs times ≤ 2 ^ 56 }
    requires first { IsListed 0 65536 first.now }
    requires first_small { (j : ℕ) → unsigned_abs (entry_at first.now j) ≤ 2 ^ 56 }
    requires second { IsListed 0 65536 second.now }
    requires second_small { (j : ℕ) → unsigned_abs (entry_at second.now j) ≤ 2 ^ 56 }
    ensures divides { result ∣ unsigned_abs head }
    ensures positive { 0 < result }
    ensures greatest { (d : ℕ) → d ∣ unsigned_abs head → ((j : ℕ) → d ∣ unsigned_abs (by *ℤ entry_at first.now j -ℤ times *ℤ entry_at second.now j)) → d ∣ result }
{
    let mut divisor = Divisor::new(head);
    for k in 0..FEW {
        if divisor.is_one() {
            return divisor;
        }
        let Some(entry) = entry_to_try(first, k) else {
            return divisor;
        };
        let other = value_at(second, entry.place);
        let number = difference(by, entry.number(), times, other);
        divisor = divisor.with(number);
    }
    divisor
}

// The number in 64 bits, if it fits them.
fn short_of(value: i128) -> Option<i64>
    ensures { IfSome result (λ short. short ≡ value) }
{
    if value < i64::MIN as i128 || value > i64::MAX as i128 {
        return None;
    }
    Some(value as i64)
}

// The quotient of a value, if there is one that fits 64 bits.
fn quotient_of(value: i128, divisor: &Divisor) -> Option<i64>
    requires { unsigned_abs value ≤ 2 ^ 126 }
    ensures { IfSome result (λ q. value ≡ pos divisor.now *ℤ q) }
{
    if divisor.is_one() {
        return short_of(value);
    }
    short_of(divisor.exact(value)?)
}

// Appends an entry, if it is not 0. There is room for it.
fn put_short(out: &mut Vec<FreeEntry>, place: u16, value: i64)
    requires { vec_len out.old < vec_capacity out.old }
    ensures items { out.new.items ≡ cond (is_zero value) out.old.items (out.old.items ++ record { place = place; value = value } ∷ []) }
    ensures capacity { vec_capacity out.new ≡ vec_capacity out.old }
{
    if value != 0 {
        out.push_reserved(FreeEntry { place, value });
    }
}

// Appends an entry with the quotient of the value, if that isn't 0, and tells whether there is one. There is room for it.
fn put_over(out: &mut Vec<FreeEntry>, place: u16, value: i128, divisor: &Divisor) -> bool
    requires room { vec_len out.old < vec_capacity out.old }
    requires positive { 0 < divisor.now }
    requires size { unsigned_abs value ≤ 2 ^ 126 }
    ensures items { IsTrue result → map (scaled (pos divisor.now)) out.new.items ≡ cond (is_zero value) (map (scaled (pos divisor.now)) out.old.items) (map (scaled (pos divisor.now)) out.old.items ++ record { place = place; value = value } ∷ []) }
    ensures capacity { vec_capacity out.new ≡ vec_capacity out.old }
{
    let Some(quotient) = quotient_of(value, divisor) else {
        return false;
    };
    put_short(out, place, quotient);
    true
}

// Appends the entries, each as often as `by` says, over the divisor, if it divides them. There is room for them.
fn append_over(out: &mut Vec<FreeEntry>, by: i128, rest: &[FreeEntry], divisor: &Divisor) -> bool
    requires room { vec_len out.old + length rest.now ≤ vec_capacity out.old }
    requires by { unsigned_abs by ≤ 2 ^ 56 }
    requires small { AllByRecursion (λ e. unsigned_abs e.value ≤ 2 ^ 56) rest.now }
    ensures items { IsTrue result → map (scaled (pos divisor.now)) out.new.items ≡ map (scaled (pos divisor.now)) out.old.items ++ map (scaled by) rest.now }
    ensures capacity { vec_capacity out.new ≡ vec_capacity out.old }
{
    for e in rest {
        let Some(value) = quotient_of(product(by, e.number()), divisor) else {
            return false;
        };
        out.push_reserved(FreeEntry {
            place: e.place,
            value,
        });
    }
    true
}

/// Writes into an empty list `by` times the one list less `times` times the other, over the divisor, and tells whether it
/// divides each value.
#[inline(never)]
pub fn combine_over(
    out: &mut Vec<FreeEntry>,
    columns: u16,
    by: &i128,
    first: &[FreeEntry],
    times: &i128,
    second: &[FreeEntry],
    divisor: &Divisor,
) -> bool
    requires empty { out.old.items ≡ [] }
    requires room { columns ≤ vec_capacity out.old }
    requires by { unsigned_abs by.now ≤ 2 ^ 56 }
    requires by_some { by.now ≢ pos 0 }
    requires first { IsListed 0 columns first.now }
    requires first_small { AllByRecursion (λ e. unsigned_abs e.value ≤ 2 ^ 56) first.now }
    requires times { unsigned_abs times.now ≤ 2 ^ 56 }
    requires times_some { times.now ≢ pos 0 }
    requires second { IsListed 0 columns second.now }
    requires second_small { AllByRecursion (λ e. unsigned_abs e.value ≤ 2 ^ 56) second.now }
    requires positive { 0 < divisor.now }
    ensures listed { IsTrue result → IsListed 0 columns out.new.items }
    ensures combined { IsTrue result → (j : ℕ) → pos divisor.now *ℤ entry_at out.new.items j ≡ by.now *ℤ entry_at first.now j -ℤ times.now *ℤ entry_at second.now j }
    ensures capacity { vec_capacity out.new ≡ vec_capacity out.old }
{
    let mut i = 0;
    let mut j = 0;
    while i < first.len() && j < second.len() {
        let one = first[i];
        let other = second[j];
        if one.place < other.place {
            if !put_over(out, one.place, product(*by, one.number()), divisor) {
                return false;
            }
            i += 1;
        } else if other.place < one.place {
            if !put_over(out, other.place, product(-*times, other.number()), divisor) {
                return false;
            }
            j += 1;
        } else {
            let value = difference(*by, one.number(), *times, other.number());
            if !put_over(out, one.place, value, divisor) {
                return false;
            }
            i += 1;
            j += 1;
        }
    }
    if !append_over(out, *by, &first[i..], divisor) {
        return false;
    }
    append_over(out, -*times, &second[j..], divisor)
}
