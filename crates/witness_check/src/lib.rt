//! Plain checks of the lists that show a secret to be free.
//!
//! A check reads sets, records and lists, and knows nothing of how they were made. `check_pair` is for a column of maxima,
//! `check_direction` for one of sums.
#![tactic(auto)]

mod directions;
mod pairs;

pub use directions::check_direction;
pub use pairs::check_pair;
