//! Two journals of one table's answers: each group is kept on a spare, and then on the bench.
//!
//! `TwinStore::start` opens both, and brings the shorter one up to the longer; `serve_twin` answers lines over them, and keeps each group on
//! both before it sends a reply; `restore` writes a lost journal anew from the other.
#![tactic(auto)]

mod catching;
mod copying;
pub mod laws;
mod restoring;
mod serving;
mod starting;

pub use restoring::{RestoreRefusal, restore};
pub use serving::serve_twin;
pub use starting::{TwinRefusal, TwinStore};
