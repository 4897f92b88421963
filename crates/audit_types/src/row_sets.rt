//! Lists of sets of rows, kept in as few words as the rows of their table take.
ghost use Rattle.std.specs.Prelude.{◌≡◌, ◌↔◌, ℕ, ◌<◌, ◌≤◌, [], length, set, IsTrue, OnOk};
ghost use Rattle.std.specs.List.{AllByRecursion, insert};
ghost use Rattle.audit_types.specs.Limits.{most_rows};
ghost use Rattle.audit_types.specs.Rows.{AreRows, has_row, intersection};
ghost use Rattle.audit_types.specs.RowSets.{rows_at, HasRoom};

use crate::NoMemory;
use crate::packed::{and_packed, are_apart, bring_back, unpack, words_at};
use crate::rows::RowSet;
use crate::words::words_over;
use std::alloc::Global;
use std::marker::Model;

/// Sets of rows of one table, in order.
#[derive(Drop)]
pub struct RowSets {
    n: u16,
    len: usize,
    // Those of each set, one set after the other.
    words: Vec<u64>,
}

impl Model for RowSets {
    ghost use Rattle.audit_types.specs.RowSets.{ListOfRows};

    ghost Value = { ListOfRows };

    ghost use Rattle.audit_types.specs.PackedWords.{sets_of, ArePacked};

    ghost view = { sets_of };

    ghost invariant = { ArePacked };
}

impl RowSets {
    /// No sets yet, of a table of n rows.
    pub fn new(alloc: Global, n: u16) -> RowSets
        requires some { 0 < n }
        requires at_most { n ≤ most_rows }
        ensures n { result.n ≡ n }
        ensures none { result.list ≡ [] }
    {
        RowSets {
            n,
            len: 0,
            words: Vec::new(alloc),
        }
    }

    /// The number of rows of the table.
    pub fn n(&self) -> u16
        ensures n { result ≡ self.now.n }

        // What is true of every list.
        ensures some { 0 < self.now.n }
        ensures at_most { self.now.n ≤ most_rows }
        ensures same_n { AllByRecursion (λ s. s.n ≡ self.now.n) self.now.list }
        ensures are_rows { AllByRecursion (λ s. AreRows self.now.n s.list) self.now.list }
    {
        self.n
    }

    /// How many sets there are.
    pub fn len(&self) -> usize
        ensures { result ≡ length self.now.list }
    {
        self.len
    }

    /// Makes room for one set more.
    pub fn reserve(&mut self) -> Result<(), NoMemory>
        ensures n { self.new.n ≡ self.old.n }
        ensures same { self.new.list ≡ self.old.list }
        ensures room { OnOk result (HasRoom self.new) }
    {
        self.words.reserve(words_over(self.n))?;
        Ok(())
    }

    /// The set at a place.
    pub fn get(&self, k: usize) -> RowSet
        requires { k < length self.now.list }
        ensures n { result.n ≡ self.now.n }
        ensures rows { result.list ≡ rows_at self.now.list k }
    {
        let words = words_at(&self.words, words_over(self.n), k);
        RowSet::with_words(unpack(words), self.n)
    }

    /// Whether a row is in the set at a place.
    pub fn has(&self, k: usize, row: u16) -> bool
        requires place { k < length self.now.list }
        requires row { row < self.now.n }
        ensures { result ≡ has_row (rows_at self.now.list k) row }
    {
        let word = words_at(&self.words, words_over(self.n), k)[(row / 64) as usize];
        (word >> (row % 64)) & 1 == 1
    }

    /// Whether the set at a place has no row of another.
    pub fn is_apart(&self, k: usize, other: &RowSet) -> bool
        requires place { k < length self.now.list }
        requires same_n { other.now.n ≡ self.now.n }
        ensures { IsTrue result ↔ (intersection self.now.n (rows_at self.now.list k) other.now.list ≡ []) }
    {
        are_apart(words_at(&self.words, words_over(self.n), k), other.words())
    }

    /// A set becomes the intersection of the set at a place with another, whatever rows it had.
    pub fn put_shared(&self, k: usize, other: &RowSet, shared: &mut RowSet)
        requires place { k < length self.now.list }
        requires same_n { other.now.n ≡ self.now.n }
        requires same_n_shared { shared.old.n ≡ self.now.n }
        ensures n { shared.new.n ≡ self.now.n }
        ensures both { shared.new.list ≡ intersection self.now.n (rows_at self.now.list k) other.now.list }
    {
        shared.put_shared(words_at(&self.words, words_over(self.n), k), other);
    }

    /// The set at a place becomes its intersection with another.
    pub fn and_with(&mut self, k: usize, other: &RowSet)
        requires place { k < length self.old.list }
        requires same_n { other.now.n ≡ self.old.n }
        ensures n { self.new.n ≡ self.old.n }
        ensures both { self.new.list ≡ set self.old.list k (record { n = self.old.n; list = intersection self.old.n (rows_at self.old.list k) other.now.list }) }
        ensures capacity { self.new.capacity ≡ self.old.capacity }
    {
        let width = words_over(self.n);
        and_packed(&mut self.words, k * width, width, other.words());
    }

    /// Puts a set at a place, before those that were from there on.
    pub fn insert_reserved(&mut self, place: usize, rows: &RowSet)
        requires room { HasRoom self.old }
        requires place { place ≤ length self.old.list }
        requires same_n { rows.now.n ≡ self.old.n }
        ensures n { self.new.n ≡ self.old.n }
        ensures inserted { self.new.list ≡ insert self.old.list place rows.now }
    {
        let width = words_over(self.n);
        let words = &rows.words()[..width];
        // There is room for them.
        self.words.extend_from_slice(words).unwrap();
        bring_back(&mut self.words, place * width, width);
        self.len += 1;
    }
}
