//! The drill: a table and questions that are drawn from a number, and what became of the questions, in one line.
//!
//! `drill` is the one call: it takes what is drawn through a journal, a store and a session in memory, and sends the line
//! (`SendsSummary`). `drill_schema`, `drill_table` and `drill_lines` make what is drawn; docs/FORMATS.md says how.
#![tactic(auto)]

mod counting;
mod draws;
mod drilling;
mod kinds;
mod laws;
mod lines;
mod summaries;
mod tables;
mod tallies;

pub use drilling::drill;
pub use lines::drill_lines;
pub use tables::{drill_schema, drill_table};
