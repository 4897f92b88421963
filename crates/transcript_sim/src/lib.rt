//! The verdicts on a transcript, computed again without any secret.
//!
//! A transcript is questions and the replies that were shown to them, in turn. `simulate` is the one call: what a question
//! calls for is settled by the public part of the table, its protected groups, the history that it begins with and the answers that were
//! shown before it, and the first reply that doesn't agree is named. `AreVerdicts` of the specs says what is sent; `laws` says that there is one
//! list of it.
#![tactic(auto)]

mod beginning;
mod expecting;
mod judging;
pub mod laws;
mod questions;
mod shown;
mod simulating;

pub use simulating::{SimulationRefusal, simulate};
