//! The marked form of sets.
ghost use Rattle.std.specs.Prelude.{◌≡◌, ℕ, ◌+◌, ◌≤◌, ◌<◌, pos, cond, ◌==◌, ◌&&◌, List, [], ◌∷◌, map, take, length, IfOk, OnOk, slice_index_or};
ghost use Rattle.std.specs.List.{AllByRecursion};
ghost use Rattle.audit_types.specs.Rows.{has_row};
ghost use Rattle.audit_types.specs.Form.{IsReducedForm};
ghost use Rattle.denial_proof.specs.Weights.{rows_at};
ghost use Rattle.denial_proof.specs.Kept.{marked_row};

use audit_types::RowSet;

// Writes the marked row of a set: 1 at its rows and at its mark, 0 at all other columns.
pub(crate) fn write_marked(bits: &mut [u8], rows: &RowSet, mark: u16)
    requires mark { rows.now.n + mark < length bits.old }
    ensures marked { (m : ℕ) → length bits.old ≡ rows.now.n + m → map pos bits.new ≡ marked_row rows.now.n m mark rows.now.list }
    ensures bits { AllByRecursion (λ b. b ≤ 1) bits.new }
{
    let n = rows.n() as usize;
    for column in 0..bits.len() {
        bits[column] = if column < n {
            rows.has(column as u16) as u8
        } else {
            0
        };
    }
    bits[n + mark as usize] = 1;
}
