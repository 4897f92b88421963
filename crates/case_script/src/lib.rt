//! Scripts of cases, read: what each run of a script is over, and what is due of it.
//!
//! `read_script` reads a script whole, into plain values. crates/cases/README.md has the format.
#![tactic(auto)]

mod breach;
mod contents;
mod due;
mod exchange;
mod failures;
mod fault;
mod history;
mod keys;
mod law;
mod once;
mod over;
mod pieces;
mod run;
mod script;
mod terminal;
mod value_kind;
mod whole_spare;

pub use breach::Breach;
pub use due::Due;
pub use exchange::Exchange;
pub use failures::Failures;
pub use fault::Fault;
pub use law::Law;
pub use once::{Left, Once};
pub use over::Over;
pub use pieces::{Piece, Pieces};
pub use run::{Run, Start};
pub use script::{ScriptFault, read_script};
