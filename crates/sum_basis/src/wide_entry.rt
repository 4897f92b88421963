//! Entries of a list that isn't divided by its content yet, and so may have greater values than those that are kept.
ghost use Rattle.std.specs.Prelude.{◌≡◌, ◌≤◌, ◌^◌, unsigned_abs};

use crate::sparse::FreeEntry;
use std::marker::Model;

/// An entry of such a list. To contracts it is what a kept one is: a place and a value.
#[derive(Clone, Copy)]
pub struct WideEntry {
    place: u16,
    value: i128,
}

impl Model for WideEntry {
    ghost use Rattle.sum_basis.specs.declared.sparse.FreeEntry.{FreeEntry};

    ghost Value = { FreeEntry };

    ghost view = { λ e. record { place = e.place; value = e.value } };

    ghost inverse = { λ e. record { place = e.place; value = e.value } };
}

impl WideEntry {
    pub fn new(place: u16, value: i128) -> WideEntry
        ensures { result ≡ record { place = place; value = value } }
    {
        WideEntry { place, value }
    }

    pub fn place(&self) -> u16
        ensures { result ≡ self.now.place }
    {
        self.place
    }

    pub fn value(&self) -> i128
        ensures { result ≡ self.now.value }
    {
        self.value
    }

    /// The entry, as it is kept.
    pub fn short(&self) -> FreeEntry
        requires { unsigned_abs self.now.value ≤ 2 ^ 56 }
        ensures { result ≡ self.now }
    {
        FreeEntry::new(self.place, self.value)
    }
}
