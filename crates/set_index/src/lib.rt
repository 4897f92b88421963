//! Which rows of a table satisfy a condition.
//!
//! Start with `Index::rows_of`: its clause says that it answers the rows that the condition means, by the public columns
//! alone. `reads_what_fits` says that a condition which fits a table's schema can be asked of the table. `Index::new` finds the
//! rows that may be asked of and those of the groups that the schema protects, and refuses the first part that has a fault.
#![tactic(auto)]

mod asking;
mod index;
mod laws;
mod people;
mod sorted;
mod values;

pub use index::{GuardPart, Index, IndexFault};
pub use laws::{groups_of_a_schema, lines_of_a_table, reads_what_fits};
