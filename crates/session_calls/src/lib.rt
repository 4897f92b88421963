//! What `audit` and `drill` print, taken by hand: the lists of a report are checked as they are printed, and a drill's lines are
//! served by calls one by one. It has tests alone, so that no other library is proved a second time with its tests.
#![tactic(auto)]

#[cfg(test)]
mod drills;
#[cfg(test)]
mod people;
#[cfg(test)]
mod reports;
#[cfg(test)]
mod staff;
