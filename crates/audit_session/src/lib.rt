//! The serving loop: the counted lines of an input are gathered in groups and decided against one history that all users
//! share, and the replies of a group are sent once its records are in the journal.
//!
//! `serve` is the call for one journal. Its clauses say what was sent and what the journal's file stands for, at each end and at every
//! moment before it; `serve_with` says the same of any keeper, and of the spare of one that has it. `laws` says what stands after a stop: it is what a crash leaves of a session of events, and lives over
//! tables that differ in their secrets alone are decided alike.
#![tactic(auto)]

mod answering;
mod gathering;
pub mod laws;
mod serving;
mod session;

pub use serving::serve;
pub use session::serve_with;
