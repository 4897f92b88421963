//! A list changed in place, if few of its entries change.
ghost use Rattle.std.specs.Prelude.{◌≡◌, ◌≢◌, ℕ, ◌<◌, ◌≤◌, ◌^◌, cond, nat_eq, pos, ◌+ℤ◌, ◌-ℤ◌, ◌*ℤ◌, unsigned_abs, slice_index_or, remove, set};
ghost use Rattle.std.specs.List.{AllByRecursion};
ghost use Rattle.std.specs.Vec.{vec_len, vec_capacity};
ghost use Rattle.audit_types.specs.Truth.{is_zero};
ghost use Rattle.sum_basis.specs.Sparse.{entry_at, IsListed};

use crate::cleared_list::{greater, places_before, product};
use crate::merging::value_from;
use crate::primitive_list::negative;
use crate::sparse::FreeEntry;

fn sum(x: i128, y: i128) -> i128
    requires x { unsigned_abs x ≤ 2 ^ 113 }
    requires y { unsigned_abs y ≤ 2 ^ 113 }
    ensures { result ≡ x +ℤ y }
{
    x + y
}

// Gives entry k another value. 0 takes the entry out.
fn replace(entries: &mut Vec<FreeEntry>, k: usize, place: u16, value: i128)
    requires k { k < vec_len entries.old }
    requires small { unsigned_abs value ≤ 2 ^ 56 }
    ensures items { entries.new.items ≡ cond (is_zero value) (remove entries.old.items k) (set entries.old.items k (record { place = place; value = value })) }
    ensures capacity { vec_capacity entries.new ≡ vec_capacity entries.old }
{
    if value == 0 {
        entries.remove(k);
    } else {
        entries[k] = FreeEntry::new(place, value);
    }
}

// Adds a number to what the list has at a column, and answers what it has there then.
fn add_at(entries: &mut Vec<FreeEntry>, columns: u16, place: u16, number: i128) -> i128
    requires listed { IsListed 0 columns entries.old.items }
    requires inside { place < columns }
    requires small { unsigned_abs (entry_at entries.old.items place) ≤ 2 ^ 113 }
    requires number { unsigned_abs number ≤ 2 ^ 113 }
    requires some { number ≢ pos 0 }
    requires narrow { unsigned_abs (entry_at entries.old.items place +ℤ number) ≤ 2 ^ 56 }
    requires room { columns ≤ vec_capacity entries.old }
    ensures listed { IsListed 0 columns entries.new.items }
    ensures added { (j : ℕ) → entry_at entries.new.items j ≡ entry_at entries.old.items j +ℤ cond (nat_eq place j) number (pos 0) }
    ensures is { result ≡ entry_at entries.old.items place +ℤ number }
    ensures room { columns ≤ vec_capacity entries.new }
{
    let k = places_before(entries, place);
    let before = value_from(entries, k, place);
    if before == 0 {
        let entry = FreeEntry::new(place, number);
        entries.insert(k, entry).unwrap();
        return number;
    }
    let after = sum(before, number);
    replace(entries, k, place, after);
    after
}

/// Takes a multiple of other entries from the list, one after the other. Answers a bound of the values, as `most` was before.
pub fn take_entries(
    entries: &mut Vec<FreeEntry>,
    columns: u16,
    most: u128,
    times: i128,
    taken: &[FreeEntry],
) -> u128
    requires listed { IsListed 0 columns entries.old.items }
    requires small { AllByRecursion (λ e. unsigned_abs e.value ≤ 2 ^ 56) entries.old.items }
    requires bounded { AllByRecursion (λ e. unsigned_abs e.value ≤ most) entries.old.items }
    requires times { unsigned_abs times ≤ 2 ^ 56 }
    requires some { times ≢ pos 0 }
    requires taken { IsListed 0 columns taken.now }
    requires taken_small { AllByRecursion (λ e. unsigned_abs e.value ≤ 2 ^ 56) taken.now }
    requires narrow { (j : ℕ) → unsigned_abs (entry_at entries.old.items j -ℤ times *ℤ entry_at taken.now j) ≤ 2 ^ 56 }
    requires room { columns ≤ vec_capacity entries.old }
    ensures listed { IsListed 0 columns entries.new.items }
    ensures taken { (j : ℕ) → entry_at entries.new.items j ≡ entry_at entries.old.items j -ℤ times *ℤ entry_at taken.now j }
    ensures bounded { AllByRecursion (λ e. unsigned_abs e.value ≤ result) entries.new.items }
    ensures most { most ≤ result }
    ensures room { columns ≤ vec_capacity entries.new }
{
    let mut bound = most;
    for e in taken {
        let number = negative(product(times, e.number()));
        let after = add_at(entries, columns, e.place, number);
        bound = greater(bound, after.unsigned_abs());
    }
    bound
}
