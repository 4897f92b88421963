//! Lists of numbers that show a secret to be free: another list gives the same answers and differs there.
//!
//! `max_witness` makes a pair of lists for a column of maxima, `sum_witness` a direction for one of sums: what may be added
//! to its numbers without a change of an answer. What they give passes `check_pair` and `check_direction` of `witness_check`.
#![tactic(auto)]

mod maxima;
mod sums;

pub use maxima::{Pair, highest, max_witness};
pub use sums::sum_witness;
