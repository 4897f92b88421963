//! The report of an audit: each secret number is shown to be free by a list that passes a plain check.
//!
//! `audit` is the one call. What its lines say is `Reports` of the specs; docs/FORMATS.md describes their form.
#![tactic(auto)]

mod checking;
mod reporting;
mod texts;

pub use reporting::audit;
