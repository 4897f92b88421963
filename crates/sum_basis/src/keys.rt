//! Keys of points: of each the first sum over the second, modulo the modulus, all by one inverse.
ghost use Rattle.std.specs.Prelude.{◌≡◌, ℕ, ◌*◌, ◌<◌, pos, length, IfSome, IsTrue, slice_index_or};
ghost use Rattle.sum_basis.specs.Points.{IsLeftModulo, IsKey};
ghost use Rattle.sum_basis.specs.Keys.{product_before};

use crate::points::{MODULUS, Point, times};

/// The inverse of a number: its power by the modulus less 2, if that is one.
pub(crate) fn inverse_of(number: u32) -> Option<u32>
    ensures { IfSome result (λ inverse. IsLeftModulo (pos (number * inverse)) 1) }
{
    let mut inverse = 1;
    let mut square = number;
    for k in 0..32_u32 {
        if ((MODULUS - 2) >> k) & 1 == 1 {
            inverse = times(inverse, square);
        }
        square = times(square, square);
    }
    if times(number, inverse) == 1 {
        Some(inverse)
    } else {
        None
    }
}

/// Whether a number has an inverse.
pub(crate) fn has_inverse(number: u32) -> bool
    ensures { IsTrue result → (inverse : ℕ) × IsLeftModulo (pos (number * inverse)) 1 }
{
    number == 1 || inverse_of(number).is_some()
}

// Writes the product of the second sums before each point, and answers that of all.
fn multiply_seconds(points: &[Point], products: &mut [u32]) -> u32
    requires { length products.old ≡ length points.now }
    ensures before { (j : ℕ) → j < length points.now → IsLeftModulo (pos (product_before points.now j)) (slice_index_or products.new j 0) }
    ensures all { IsLeftModulo (pos (product_before points.now (length points.now))) result }
{
    let mut product = 1;
    for (j, point) in points.iter().enumerate() {
        products[j] = product;
        product = times(product, point.second);
    }
    product
}

/// Writes the keys of the points, if all have one. The inverse of a product, times all but one of its factors, is that of the factor.
pub(crate) fn keys_of(points: &[Point], keys: &mut [u32]) -> bool
    requires { length keys.old ≡ length points.now }
    ensures { IsTrue result → (j : ℕ) → j < length points.now → IsKey (slice_index_or points.now j (record { first = 0; second = 0 })) (slice_index_or keys.new j 0) }
{
    let product = multiply_seconds(points, keys);
    let Some(found) = inverse_of(product) else {
        return false;
    };
    let mut inverse = found;
    for j in (0..points.len()).rev() {
        let own = times(keys[j], inverse);
        keys[j] = times(points[j].first, own);
        inverse = times(inverse, points[j].second);
    }
    true
}
