//! The schema of a table: which columns it has, which of them are secret, and what is guarded of it.
//!
//! Start with `read_schema`: its clause says that it answers what the bytes mean, or their first fault. docs/FORMATS.md
//! describes the format.
#![tactic(auto)]

mod faults;
pub mod laws;
mod names;
mod reading;
mod roles;
mod schemas;

pub use faults::SchemaFault;
pub use reading::{MOST_SCHEMA, read_schema};
pub use roles::Role;
pub use schemas::Schema;
