//! Sets of six people.
ghost use Rattle.std.specs.Prelude.{◌≡◌};

use audit_types::RowSet;

/// A set of the six, by the bits of a number: bit 0 is that of the first one.
pub(crate) fn people(bits: u8) -> RowSet
    ensures { result.n ≡ 6 }
{
    let mut rows = RowSet::new(6);
    for row in 0..6 {
        if bits >> row & 1 == 1 {
            rows.add(row);
        }
    }
    rows
}
