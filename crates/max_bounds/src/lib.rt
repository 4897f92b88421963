//! Upper bounds and extreme rows of answered maxima.
//!
//! Start with `Bounds`: it keeps the answers of a column of maxima. `Bounds::leaves_few` says whether a question is
//! dangerous after them.
#![tactic(auto)]

mod answered;
mod answered_maxima;
mod bounds;
mod counts;
mod few;
mod groups;
mod high_rows;
mod highest;
mod kept;
pub mod laws;
mod lone_rows;
mod marks;
mod people;
mod reach;
mod sets;
mod unshown;
mod upper_bounds;
mod within;

pub use answered::AnsweredMax;
pub use answered_maxima::AnsweredMaxima;
pub use bounds::Bounds;
pub use people::are_few;
