//! The verdict on each line of an input after one history, and the certificate of each denial.
//!
//! `explain` is the one call. The certificate of a denial as unsafe is the line with its canonical proof, or the one that says
//! that the proof is too wide for a line. `AreExplained` of the specs says what is sent, and `laws` that it is one text;
//! docs/FORMATS.md describes the lines.
#![tactic(auto)]

mod deciding;
mod explaining;
pub mod laws;
mod provers;
mod texts;

pub use explaining::explain;
