//! All that the program does: the commands over a schema, a table, an input and a bench.
//!
//! `run` is the one call, and the theorem of the product stands on its contract.
#![tactic(auto)]

mod ends;
mod faults;
mod files;
pub mod laws;
mod opening;
mod reading;
mod ready;
mod running;
mod starting;
mod status;
mod words;

pub use running::run;
pub use status::{Object, Refusal, Status, status_code, status_text};
pub use words::Command;
