//! A row divided by its content.
ghost use Rattle.std.specs.Prelude.{◌≡◌, ◌≢◌, ◌↔◌, pos, ◌≤◌, ◌^◌, ◌*ℤ◌, ◌<ℤ◌, unsigned_abs, map, IsTrue};
ghost use Rattle.std.specs.Int.{◌∣◌};
ghost use Rattle.std.specs.List.{AllByRecursion};
ghost use Rattle.audit_types.specs.Form.{pivot_entry};
ghost use Rattle.int_rows.specs.Primitive.{IsMadePrimitive, IsSignedContent};

use crate::divisors::{content, quotient};

fn divide(row: &mut [i128], by: i128)
    requires divides { AllByRecursion (λ x. unsigned_abs by ∣ unsigned_abs x) row.old }
    requires not_zero { by ≢ pos 0 }
    requires size { AllByRecursion (λ x. unsigned_abs x ≤ 2 ^ 126) row.old }
    ensures { row.old ≡ map (λ x. by *ℤ x) row.new }
{
    if by == 1 {
        return;
    }
    for x in row.iter_mut() {
        *x = quotient(*x, by);
    }
}

// Whether the first entry that is not 0 is negative.
fn is_led_by_negative(row: &[i128]) -> bool
    ensures { IsTrue result ↔ (pivot_entry row.now <ℤ pos 0) }
{
    for x in row {
        if *x != 0 {
            return *x < 0;
        }
    }
    false
}

// The content, with the sign of the first entry that is not 0.
fn signed_content(row: &[i128]) -> i128
    requires { AllByRecursion (λ x. unsigned_abs x ≤ 2 ^ 126) row.now }
    ensures { IsSignedContent row.now result }
{
    let size = content(row);
    if is_led_by_negative(row) { -size } else { size }
}

/// Divides a row by its content, and turns all signs if the first entry that isn't 0 is negative. A row of zeros stays.
pub fn make_primitive(row: &mut [i128])
    requires { AllByRecursion (λ x. unsigned_abs x ≤ 2 ^ 126) row.old }
    ensures { IsMadePrimitive row.old row.new }
{
    let by = signed_content(row);
    if by != 0 {
        divide(row, by);
    }
}
