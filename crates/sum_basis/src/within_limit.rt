//! Whether a row over its content is within a limit. Only its pivot entry is divided.
ghost use Rattle.std.specs.Prelude.{◌≡◌, ◌↔◌, ℕ, ◌*◌, ◌<◌, ◌≤◌, ◌+◌, ◌^◌, ℤ, pos, ◌<ℤ◌, List, ◌∷◌, map, unsigned_abs, IsTrue, MatchOption};
ghost use Rattle.std.specs.List.{AllByRecursion};
ghost use Rattle.audit_types.specs.Form.{IsContent};
ghost use Rattle.sum_basis.specs.declared.sparse.FreeEntry.{FreeEntry};
ghost use Rattle.sum_basis.specs.Sparse.{IsOverContent};

use crate::cleared_list::greater;
use crate::wide_entry::WideEntry;
use int_rows::Divisor;

// The least content that brings a size, other than 0, within the limit.
fn least_content(size: u128, limit: u64) -> u128
    requires size { (0 < size) × (size ≤ 2 ^ 126) }
    requires limit { 0 < limit }
    ensures enough { size ≤ result * limit }
    ensures least { result * limit < size + limit }
{
    let limit = limit as u128;
    if size <= limit {
        return 1;
    }
    (size + (limit - 1)) / limit
}

fn is_below(divisor: &Divisor, least: u128) -> bool
    ensures { IsTrue result ↔ (divisor.now < least) }
{
    (divisor.size() as u128) < least
}

// The greatest common divisor of the pivot entry and of all values, unless it is below the least: the first of them may show that.
fn content_from(head: i128, entries: &[WideEntry], least: u128) -> Option<Divisor>
    requires head { (pos 0 <ℤ head) × (unsigned_abs head ≤ 2 ^ 126) }
    requires entries { AllByRecursion (λ e. unsigned_abs e.value ≤ 2 ^ 126) entries.now }
    ensures content { (content : ℕ) × IsContent (head ∷ map (λ e. e.value) entries.now) content × (0 < content) × MatchOption result (content < least) (λ divisor. (divisor ≡ content) × (least ≤ content)) }
{
    let mut divisor = Divisor::new(head);
    for e in entries {
        if is_below(&divisor, least) {
            return None;
        }
        if divisor.is_one() {
            return Some(divisor);
        }
        divisor = divisor.with(e.value());
    }
    if is_below(&divisor, least) {
        return None;
    }
    Some(divisor)
}

// The greatest size of a value, 0 for no entries.
fn greatest(entries: &[WideEntry]) -> u128
    ensures values { AllByRecursion (λ e. unsigned_abs e.value ≤ result) entries.now }
    ensures least { (m : ℕ) → AllByRecursion (λ e. unsigned_abs e.value ≤ m) entries.now → result ≤ m }
{
    let mut most = 0;
    for e in entries {
        most = greater(most, e.value().unsigned_abs());
    }
    most
}

// The greatest size of the pivot entry and of the values.
fn size_of(head: i128, entries: &[WideEntry]) -> u128
    ensures head { unsigned_abs head ≤ result }
    ensures values { AllByRecursion (λ e. unsigned_abs e.value ≤ result) entries.now }
    ensures least { (m : ℕ) → unsigned_abs head ≤ m → AllByRecursion (λ e. unsigned_abs e.value ≤ m) entries.now → result ≤ m }
{
    greater(greatest(entries), head.unsigned_abs())
}

/// The pivot entry over the content of it and the values. None if it or a value, over the content, is above the limit.
pub fn head_within(head: i128, entries: &[WideEntry], limit: u64) -> Option<i128>
    requires limit { 0 < limit }
    requires head { (pos 0 <ℤ head) × (unsigned_abs head ≤ 2 ^ 126) }
    requires entries { AllByRecursion (λ e. unsigned_abs e.value ≤ 2 ^ 126) entries.now }
    ensures within { (over : ℤ) × (made : List FreeEntry) × IsOverContent head entries.now over made × MatchOption result (¬ ((unsigned_abs over ≤ limit) × AllByRecursion (λ e. unsigned_abs e.value ≤ limit) made)) (λ h. (h ≡ over) × (unsigned_abs over ≤ limit) × AllByRecursion (λ e. unsigned_abs e.value ≤ limit) made) }
{
    let most = size_of(head, entries);
    let divisor = content_from(head, entries, least_content(most, limit))?;
    Some(divisor.quotient(head))
}
