//! The store: the secrets of a table, its protected groups, what was released, and the journal behind it.
//!
//! `Guarded` are the secrets with what is guarded of them. `Store::start` opens a journal and tests that it is that of their table;
//! `Store::ask_all` decides questions and keeps what it answers. A store's history is legal, so it discloses no secret, and no total of a
//! protected group. Its secrets are read of a released question alone. `Store::grow` takes the journal of a table to the rows that came at
//! its end. `Store::open_other` and `bring_up` do for a second journal of a table what the others do for the first, and `Ahead` is what
//! `ask_all` keeps a group in before that.
#![tactic(auto)]

mod agreeing;
mod ahead;
mod asking;
mod bringing;
mod growing;
mod guarded;
mod keeper;
mod sealed;
mod starting;
mod store;

pub use agreeing::agreement;
pub use ahead::{Ahead, NoJournal};
pub use audit_core::Outcome;
pub use bringing::bring_up;
pub use growing::GrowRefusal;
pub use guarded::Guarded;
pub use keeper::Keeper;
pub use store::Store;
