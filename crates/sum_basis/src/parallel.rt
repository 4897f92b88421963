//! Lists that are multiples of one another.
ghost use Rattle.std.specs.Prelude.{◌≡◌, ◌↔◌, ◌≤◌, ◌^◌, map, unsigned_abs, IsTrue};
ghost use Rattle.std.specs.List.{AllByRecursion};
ghost use Rattle.sum_basis.specs.Sparse.{scaled};

use crate::cleared_list::product;
use crate::sparse::FreeEntry;

// Whether the two entries are the same, each with its multiple of the value.
fn are_alike(by: i128, first: FreeEntry, times: i128, second: FreeEntry) -> bool
    requires by { unsigned_abs by ≤ 2 ^ 56 }
    requires first { unsigned_abs first.value ≤ 2 ^ 56 }
    requires times { unsigned_abs times ≤ 2 ^ 56 }
    requires second { unsigned_abs second.value ≤ 2 ^ 56 }
    ensures { IsTrue result ↔ (scaled by first ≡ scaled times second) }
{
    first.place == second.place && product(by, first.number()) == product(times, second.number())
}

/// Whether `by` times the one list is `times` times the other.
pub fn are_parallel(by: i128, first: &[FreeEntry], times: i128, second: &[FreeEntry]) -> bool
    requires by { unsigned_abs by ≤ 2 ^ 56 }
    requires first { AllByRecursion (λ e. unsigned_abs e.value ≤ 2 ^ 56) first.now }
    requires times { unsigned_abs times ≤ 2 ^ 56 }
    requires second { AllByRecursion (λ e. unsigned_abs e.value ≤ 2 ^ 56) second.now }
    ensures { IsTrue result ↔ (map (scaled by) first.now ≡ map (scaled times) second.now) }
{
    if first.len() != second.len() {
        return false;
    }
    for (one, other) in first.iter().zip(second) {
        if !are_alike(by, *one, times, *other) {
            return false;
        }
    }
    true
}
