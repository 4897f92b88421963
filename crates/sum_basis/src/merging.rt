//! Two lists of entries combined, place by place.
ghost use Rattle.std.specs.Prelude.{◌≡◌, ◌≢◌, ◌⊎◌, ℕ, ◌<◌, ◌≤◌, ◌+◌, ◌++◌, ◌^◌, cond, ℤ, pos, ◌-ℤ◌, ◌*ℤ◌, [], ◌∷◌, length, map, drop, unsigned_abs, IfOk};
ghost use Rattle.std.specs.List.{AllByRecursion};
ghost use Rattle.std.specs.Vec.{vec_len, vec_capacity};
ghost use Rattle.audit_types.specs.Truth.{is_zero};
ghost use Rattle.sum_basis.specs.Merging.{first_value};
ghost use Rattle.sum_basis.specs.Sparse.{entry_at, IsListed, scaled};

use crate::cleared_list::product;
use crate::sparse::FreeEntry;
use crate::wide_entry::WideEntry;
use audit_types::NoMemory;
use std::alloc::Global;

/// The value of entry k, if that stands at the place, and else 0.
pub fn value_from(entries: &[FreeEntry], k: usize, place: u16) -> i128
    ensures { result ≡ first_value (drop k entries.now) place }
{
    if k < entries.len() && entries[k].place == place {
        entries[k].number()
    } else {
        0
    }
}

/// `by * x - times * y`.
pub fn difference(by: i128, x: i128, times: i128, y: i128) -> i128
    requires by { unsigned_abs by ≤ 2 ^ 56 }
    requires x { unsigned_abs x ≤ 2 ^ 56 }
    requires times { unsigned_abs times ≤ 2 ^ 56 }
    requires y { unsigned_abs y ≤ 2 ^ 56 }
    ensures exact { result ≡ by *ℤ x -ℤ times *ℤ y }
    ensures small { unsigned_abs result ≤ 2 ^ 113 }
{
    product(by, x) - product(times, y)
}

/// Appends an entry, if it is not 0. There is room for it.
pub fn put(out: &mut Vec<WideEntry>, place: u16, value: i128)
    requires { vec_len out.old < vec_capacity out.old }
    ensures items { out.new.items ≡ cond (is_zero value) out.old.items (out.old.items ++ record { place = place; value = value } ∷ []) }
    ensures capacity { vec_capacity out.new ≡ vec_capacity out.old }
{
    if value != 0 {
        out.push_reserved(WideEntry::new(place, value));
    }
}

// Appends the entries, each as often as `by` says. There is room for them.
fn append(out: &mut Vec<WideEntry>, by: i128, rest: &[FreeEntry])
    requires room { vec_len out.old + length rest.now ≤ vec_capacity out.old }
    requires by { unsigned_abs by ≤ 2 ^ 56 }
    requires small { AllByRecursion (λ e. unsigned_abs e.value ≤ 2 ^ 56) rest.now }
    ensures items { out.new.items ≡ out.old.items ++ map (scaled by) rest.now }
    ensures capacity { vec_capacity out.new ≡ vec_capacity out.old }
{
    for e in rest {
        let value = product(by, e.number());
        out.push_reserved(WideEntry::new(e.place, value));
    }
}

/// An equal list of wide entries, with room for one entry a column.
pub fn wide_list(
    alloc: Global,
    entries: &[FreeEntry],
    columns: u16,
) -> Result<Vec<WideEntry>, NoMemory>
    requires length { length entries.now ≤ columns }
    requires small { AllByRecursion (λ e. unsigned_abs e.value ≤ 2 ^ 56) entries.now }
    ensures { IfOk result (λ list. list.items ≡ entries.now) }
{
    let mut list = Vec::with_capacity(alloc, columns as usize)?;
    append(&mut list, 1, entries);
    Ok(list)
}

/// Writes into an empty list `by` times the one list less `times` times the other.
// The two numbers are lent, and read for each entry: a number that stays in a register is widened to 128 bits before the loop, and then
// each product takes three multiplications in place of one.
#[inline(never)]
pub fn combine_into(
    out: &mut Vec<WideEntry>,
    columns: u16,
    by: &i128,
    first: &[FreeEntry],
    times: &i128,
    second: &[FreeEntry],
)
    requires empty { out.old.items ≡ [] }
    requires room { columns ≤ vec_capacity out.old }
    requires by { unsigned_abs by.now ≤ 2 ^ 56 }
    requires by_some { by.now ≢ pos 0 }
    requires first { IsListed 0 columns first.now }
    requires first_small { AllByRecursion (λ e. unsigned_abs e.value ≤ 2 ^ 56) first.now }
    requires times { unsigned_abs times.now ≤ 2 ^ 56 }
    requires times_some { times.now ≢ pos 0 }
    requires second { IsListed 0 columns second.now }
    requires second_small { AllByRecursion (λ e. unsigned_abs e.value ≤ 2 ^ 56) second.now }
    ensures listed { IsListed 0 columns out.new.items }
    ensures combined { (j : ℕ) → entry_at out.new.items j ≡ by.now *ℤ entry_at first.now j -ℤ times.now *ℤ entry_at second.now j }
    ensures capacity { vec_capacity out.new ≡ vec_capacity out.old }
{
    let mut i = 0;
    let mut j = 0;
    while i < first.len() && j < second.len() {
        let one = first[i];
        let other = second[j];
        if one.place < other.place {
            put(out, one.place, product(*by, one.number()));
            i += 1;
        } else if other.place < one.place {
            put(out, other.place, product(-*times, other.number()));
            j += 1;
        } else {
            put(
                out,
                one.place,
                difference(*by, one.number(), *times, other.number()),
            );
            i += 1;
            j += 1;
        }
    }
    append(out, *by, &first[i..]);
    append(out, -*times, &second[j..]);
}
