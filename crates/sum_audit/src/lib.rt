//! The audit of a column of sums.
//!
//! Start with `SumColumn`: its `probe` denies a question exactly if some answer that is still possible would fix a
//! number. That the sets alone show it is the law of `laws::dangerous_sums`.
#![tactic(auto)]

mod answered;
mod column;
pub mod laws;
mod told;

pub use answered::AnsweredSum;
pub use column::SumColumn;
