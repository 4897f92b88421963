//! Greatest common divisors, least common multiples and primitive rows of whole numbers of 128 bits.
//!
//! Start with `make_primitive`, whose clause says what becomes of a row. No call takes memory.
#![tactic(auto)]

mod dividing;
mod divisors;
mod primitive;

pub use dividing::Divisor;
pub use divisors::{content, gcd, lcm_within, quotient};
pub use primitive::make_primitive;
