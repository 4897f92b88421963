//! The audit of a column of maxima.
//!
//! Start with `MaxColumn`: its `probe` denies a question exactly if some answer that is still possible would fix a number.
#![tactic(auto)]

mod candidates;
mod column;
pub mod laws;

pub use column::MaxColumn;
