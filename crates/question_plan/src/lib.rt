//! What is planned of a line before any history is known, and the reply that is due to it after one.
//!
//! `plan_line` gives a reply that is due after every history, or the question that has to be decided first, and `Planner` does
//! so for one line of a source after another; `tell` gives the reply to the outcome of a question, and `Due` is the verdict
//! that a line is due. `IsDue` is the definition
//! that all serve; `laws` says that one reply is due to a line, that tables that differ in their secrets alone are decided
//! alike, and that answered lines keep a history legal.
#![tactic(auto)]

mod averages;
mod due;
mod full;
pub mod laws;
mod planner;
mod planning;
mod telling;

pub use due::{Due, due_of_reply, verdict_line};
pub use full::is_full;
pub use planner::Planner;
pub use planning::{Plan, plan_line};
pub use telling::tell;
