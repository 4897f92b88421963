//! The terms of a proof, from a number for each kept record.
ghost use Rattle.std.specs.Prelude.{◌≡◌, ◌≤◌, IfOk, length};
ghost use Rattle.denial_proof.specs.Numbers.{terms_of};

use crate::proof_parts::Term;
use audit_types::NoMemory;
use std::alloc::Global;

/// A term for each place whose number isn't 0.
pub(crate) fn terms_of(
    alloc: Global,
    places: &[u32],
    numbers: &[i128],
) -> Result<Vec<Term>, NoMemory>
    requires one_each { length places.now ≤ length numbers.now }
    ensures { IfOk result (λ terms. terms.items ≡ terms_of places.now numbers.now) }
{
    let mut terms = Vec::new(alloc);
    for (k, place) in places.iter().enumerate() {
        if numbers[k] != 0 {
            terms.push(Term {
                place: *place,
                times: numbers[k],
            })?;
        }
    }
    Ok(terms)
}
