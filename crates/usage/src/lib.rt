//! What the program says of itself: its commands, one of them, and its version.
//!
//! Start with `shown_of`, which reads the arguments; a `Shown` is printed by `Display`.
#![tactic(auto)]

mod shown;
mod topics;

pub use shown::{Shown, shown_of};
pub use topics::Topic;
