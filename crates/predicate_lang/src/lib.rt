//! Conditions over the public columns of a table: `age >= 41 and not dept = 'DEV'`.
//!
//! Start with `read_where`: its clauses say that it reads what a text means, and else names the byte at which the text
//! goes wrong. `print_where` writes a predicate; its clause `again` says that what is printed of a predicate that was
//! read means it again. `grammar_runs` ties the grammar to the machine that reads it; docs/FORMATS.md gives the
//! grammar in words.
#![tactic(auto)]

mod building;
mod laws;
mod lexing;
mod printing;
mod reading;
mod tokens;
mod trees;

pub use laws::{grammar_runs, one_meaning, words_at_work};
pub use printing::print_where;
pub use reading::read_where;
pub use trees::{Literal, Literals, Op, Pred, WhereFault, Word};
