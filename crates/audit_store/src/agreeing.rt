//! Where two histories part.
ghost use Rattle.std.specs.Prelude.{◌≡◌, ◌≢◌, ◌<◌, ◌≤◌, Some, length, take, slice_get};
ghost use Rattle.audit_types.specs.declared.records.Answered.{Answered};

use audit_types::Answered;

/// How many records both begin with.
pub fn agreement(first: &[Answered], second: &[Answered]) -> usize
    ensures within { (result ≤ length first.now) × (result ≤ length second.now) }
    ensures same { take result first.now ≡ take result second.now }
    ensures differ { (a b : Answered) → slice_get first.now result ≡ Some a → slice_get second.now result ≡ Some b → a ≢ b }
{
    let end = first.len().min(second.len());
    for place in 0..end {
        if first[place] != second[place] {
            return place;
        }
    }
    end
}
