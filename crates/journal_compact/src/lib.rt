//! A fresh journal beside the one there is, without the records that those before them imply.
//!
//! `compact` is the one call. What the spare then holds, and what was sent, is `Compacts` of the specs. Which records are implied, and that
//! every question is decided after the others as after all, is said by `implied_records`.
#![tactic(auto)]

mod compacting;

pub use compacting::compact;
