//! Calls of libraries that may run out of memory and that no command of the program makes, adapters over real files, and
//! definitions tried on cases worked out by hand. It has tests alone, so that no other library is proved a second time with its tests.
#![tactic(auto)]

#[cfg(test)]
mod adapters;
#[cfg(test)]
mod certificates;
#[cfg(test)]
mod conditions;
#[cfg(test)]
mod counted_files;
#[cfg(test)]
mod definitions;
#[cfg(test)]
mod equality;
#[cfg(test)]
mod journal_calls;
#[cfg(test)]
mod journal_names;
#[cfg(test)]
mod journals;
#[cfg(test)]
mod sets;
#[cfg(test)]
mod spare_links;
#[cfg(test)]
mod sums;
