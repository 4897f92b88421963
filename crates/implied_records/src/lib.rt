//! Which records of a history those before them imply.
//!
//! `kept` gives the others (`IsKeptOf`). That every question is decided after them as after all is a law: see `laws::kept_of_legal`.
//! `follows` says of a question what `kept` goes by: whether its answer follows from those before it.
#![tactic(auto)]

mod following;
mod forcing;
mod keeping;
pub mod laws;

pub use following::follows;
pub use keeping::kept;
