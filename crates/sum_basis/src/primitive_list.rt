//! A list over its content.
ghost use Rattle.std.specs.Prelude.{◌≡◌, ◌≢◌, ◌↔◌, ◌<◌, ◌≤◌, ◌^◌, pos, neg_ℤ, map, unsigned_abs, slice_index_or, IsTrue};
ghost use Rattle.std.specs.List.{AllByRecursion};
ghost use Rattle.std.specs.Vec.{vec_len, vec_capacity};
ghost use Rattle.sum_basis.specs.Sparse.{scaled, IsMadeList};

use crate::cleared_list::over_content;
use crate::wide_entry::WideEntry;

/// Whether no value is above the limit.
pub fn are_within(entries: &[WideEntry], limit: u64) -> bool
    ensures { IsTrue result ↔ AllByRecursion (λ e. unsigned_abs e.value ≤ limit) entries.now }
{
    entries
        .iter()
        .all(|e| e.value().unsigned_abs() <= limit as u128)
}

/// A number with the other sign.
pub fn negative(x: i128) -> i128
    requires { unsigned_abs x ≤ 2 ^ 126 }
    ensures { result ≡ neg_ℤ x }
{
    -x
}

// The size of a number.
fn size_of(x: i128) -> i128
    requires { unsigned_abs x ≤ 2 ^ 126 }
    ensures { result ≡ pos (unsigned_abs x) }
{
    x.unsigned_abs() as i128
}

// Turns the signs of all values.
fn turn(entries: &mut Vec<WideEntry>)
    requires { AllByRecursion (λ e. unsigned_abs e.value ≤ 2 ^ 126) entries.old.items }
    ensures scaled { entries.old.items ≡ map (scaled (neg_ℤ (pos 1))) entries.new.items }
    ensures capacity { vec_capacity entries.new ≡ vec_capacity entries.old }
{
    for k in 0..entries.len() {
        let e = entries[k];
        let value = negative(e.value());
        entries[k] = WideEntry::new(e.place(), value);
    }
}

/// Divides the values by their content, and turns all signs if the first is negative.
pub fn make_primitive(entries: &mut Vec<WideEntry>)
    requires some { 0 < vec_len entries.old }
    requires first { (slice_index_or entries.old.items 0 (record { place = 0; value = pos 0 })).value ≢ pos 0 }
    requires size { AllByRecursion (λ e. unsigned_abs e.value ≤ 2 ^ 126) entries.old.items }
    ensures made { IsMadeList entries.old.items entries.new.items }
    ensures capacity { vec_capacity entries.new ≡ vec_capacity entries.old }
{
    let first = entries[0].value();
    let _ = over_content(size_of(first), entries);
    if first < 0 {
        turn(entries);
    }
}
