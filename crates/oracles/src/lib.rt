//! Plain programs beside the definitions, for small inputs. No shipped crate stands on them.
//!
//! Each is proved to compute the definition of its name, so a test that runs it on a case worked out by hand tries the
//! definition itself.
#![tactic(auto)]

mod agreement;
mod bounds;
mod truths;

pub use agreement::agrees;
pub use bounds::{extremes, upper_bound};
pub use truths::truth;
