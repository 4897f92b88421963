//! Points of rows: two sums of what a form leaves of them, modulo a number.
ghost use Rattle.std.specs.Prelude.{◌≡◌, ℕ, ◌+◌, ◌*◌, ◌<◌, ◌≤◌, ◌^◌, ℤ, pos, ◌-ℤ◌, ◌*ℤ◌, List, [], length, unsigned_abs};
ghost use Rattle.sum_basis.specs.Points.{modulus, IsLeftModulo, IsPointAfter};
ghost use Rattle.sum_basis.specs.Reach.{AreSmallEntries, times_of};
ghost use Rattle.sum_basis.specs.Sparse.{entry_at};
ghost use Rattle.sum_basis.specs.Keys.{IsNewPoint};

use crate::sparse::FreeEntry;

/// By what sums are divided to keep what is left. It is a prime, so that all but few numbers have an inverse; no proof needs that.
pub(crate) const MODULUS: u32 = 4294967291;

// A multiple of the modulus that makes each number within the limit positive.
const LIFT: i64 = 33554432 * 4294967291;

/// Two sums of a list's values, each with weights of its own, modulo the modulus.
#[derive(Clone, Copy)]
pub(crate) struct Point {
    pub first: u32,
    pub second: u32,
}

/// What is known of a new list: where its first entry stands, that entry's value modulo the modulus, and the list's point.
#[derive(Clone, Copy)]
pub(crate) struct NewPoint {
    pub place: u16,
    pub value: u32,
    pub point: Point,
}

/// What is left of a number, modulo the modulus.
pub(crate) fn residue(value: i128) -> u32
    requires { unsigned_abs value ≤ 2 ^ 56 }
    ensures { IsLeftModulo value result }
{
    ((value as i64 + LIFT) as u64 % MODULUS as u64) as u32
}

/// A product and one number more, modulo the modulus.
pub(crate) fn times_plus(x: u32, y: u32, more: u32) -> u32
    ensures { IsLeftModulo (pos (x * y + more)) result }
{
    ((x as u64 * y as u64 + more as u64) % MODULUS as u64) as u32
}

/// A product modulo the modulus.
pub(crate) fn times(x: u32, y: u32) -> u32
    ensures { IsLeftModulo (pos (x * y)) result }
{
    times_plus(x, y, 0)
}

// A product less another one, modulo the modulus.
fn between_products(x: u32, y: u32, less: u32, by: u32) -> u32
    requires { less < modulus }
    ensures { IsLeftModulo (pos (x * y) -ℤ pos (less * by)) result }
{
    if less == 0 {
        return times(x, y);
    }
    times_plus(x, y, times(MODULUS - less, by))
}

// The point with a value more, of a column with these weights.
fn with_value(point: Point, weights: Point, value: u32) -> Point
    ensures first { IsLeftModulo (pos (weights.first * value + point.first)) result.first }
    ensures second { IsLeftModulo (pos (weights.second * value + point.second)) result.second }
{
    Point {
        first: times_plus(weights.first, value, point.first),
        second: times_plus(weights.second, value, point.second),
    }
}

/// The two sums of the entries.
pub(crate) fn point_of(weights: &[Point], entries: &[FreeEntry]) -> Point
    requires { AreSmallEntries (length weights.now) entries.now }
    ensures { IsPointAfter weights.now [] entries.now result }
{
    let mut point = Point {
        first: 0,
        second: 0,
    };
    for e in entries {
        point = with_value(point, weights[e.place as usize], residue(e.number()));
    }
    point
}

/// What is known of a new list, if there is one.
pub(crate) fn new_point(weights: &[Point], new: &[FreeEntry]) -> Option<NewPoint>
    requires { AreSmallEntries (length weights.now) new.now }
    ensures { IsNewPoint weights.now new.now result }
{
    if new.is_empty() {
        return None;
    }
    Some(NewPoint {
        place: new[0].place,
        value: residue(new[0].number()),
        point: point_of(weights, new),
    })
}

// The point of a list that is made 0 at the first place of a new one, where it has a value.
fn cleared(new: NewPoint, point: Point, value: u32) -> Point
    requires { value < modulus }
    ensures first { IsLeftModulo (pos (new.value * point.first) -ℤ pos (value * new.point.first)) result.first }
    ensures second { IsLeftModulo (pos (new.value * point.second) -ℤ pos (value * new.point.second)) result.second }
{
    Point {
        first: between_products(new.value, point.first, value, new.point.first),
        second: between_products(new.value, point.second, value, new.point.second),
    }
}

/// The point of entries once the form has a new list, at whose first place they have a value.
pub(crate) fn point_after(new: &Option<NewPoint>, point: Point, value: i128) -> Point
    requires { unsigned_abs value ≤ 2 ^ 56 }
    ensures { (weights : List Point) (list entries : List FreeEntry) → IsNewPoint weights list new.now → IsPointAfter weights [] entries point → value ≡ times_of list (entry_at entries) → IsPointAfter weights list entries result }
{
    match new {
        Some(new) => cleared(*new, point, residue(value)),
        None => point,
    }
}
