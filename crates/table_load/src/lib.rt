//! Tables as CSV: what everybody may see of them, and what the auditor guards.
//!
//! Start with `load`: its clause says that it answers the table that the bytes mean, or their first fault. `Secret::truth`
//! gives the true answer to a question. docs/FORMATS.md describes the format.
#![tactic(auto)]

mod blocks;
mod columns;
mod faults;
pub mod laws;
mod layout;
mod loading;
mod numerals;
mod publics;
mod reading;
mod records;
mod secrets;
mod truth;

pub use faults::TableFault;
pub use laws::{lists_of_secrets, sizes_of_answers, spells};
pub use loading::{Table, load, load_public};
pub use publics::{Column, Public};
pub use reading::MOST_TABLE;
pub use secrets::Secret;
