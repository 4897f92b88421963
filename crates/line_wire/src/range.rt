//! Which replies may be written.
ghost use Rattle.std.specs.Prelude.{◌↔◌, IsTrue};
ghost use Rattle.std.specs.Int.{IsGcd};
ghost use Rattle.line_wire.specs.Reply.{IsAverage, IsInRange};

use crate::reply::Reply;
use audit_types::{MOST_NUMBER, MOST_ROWS};

// The greatest size of a secret.
const MOST_SIZE: u64 = MOST_NUMBER as u64;

// The greatest size of a sum over a table, and the most people that its rows stand for.
const MOST_SUM: u64 = MOST_ROWS as u64 * MOST_SIZE;

// How long a condition may be.
const MOST_BYTES: u32 = 8192;

// Euclid's algorithm.
fn common_divisor(a: u64, b: u64) -> u64
    ensures { IsGcd a b result }
{
    let mut x = a;
    let mut y = b;
    while y != 0 {
        let rest = x % y;
        x = y;
        y = rest;
    }
    x
}

fn is_average(num: i64, den: u64) -> bool
    ensures { IsTrue result ↔ IsAverage num den }
{
    let size = num.unsigned_abs();
    if size > MOST_SUM || den == 0 || den > MOST_SUM {
        return false;
    }
    common_divisor(size, den) == 1
}

/// Whether a reply may be written.
pub(crate) fn is_in_range(reply: &Reply) -> bool
    ensures { IsTrue result ↔ IsInRange reply.now }
{
    match reply {
        Reply::Count(count) => *count <= MOST_SUM,
        Reply::Sum(sum) => sum.unsigned_abs() <= MOST_SUM,
        Reply::Avg { num, den } => is_average(*num, *den),
        Reply::Max(max) => max.unsigned_abs() <= MOST_SIZE,
        Reply::Min(min) => min.unsigned_abs() <= MOST_SIZE,
        Reply::Condition { at } => *at <= MOST_BYTES,
        Reply::Unsafe => true,
        Reply::Wide => true,
        Reply::Line => true,
        Reply::Long => true,
        Reply::Column => true,
        Reply::Kind => true,
        Reply::Empty => true,
        Reply::Full => true,
    }
}
