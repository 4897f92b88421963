//! Lists of answered maxima, kept in as few words as the rows of their table take.
ghost use Rattle.std.specs.Prelude.{◌≡◌, ◌↔◌, ◌<◌, ◌≤◌, [], map, length, set, IsTrue, OnOk};
ghost use Rattle.std.specs.List.{AllByRecursion, insert};
ghost use Rattle.audit_types.specs.Limits.{most_rows};
ghost use Rattle.audit_types.specs.Rows.{AreRows, has_row, intersection};
ghost use Rattle.max_bounds.specs.Maxima.{pair_at, HasSpace};

use crate::answered::AnsweredMax;
use audit_types::{NoMemory, RowSet, RowSets};
use std::alloc::Global;
use std::marker::Model;

/// Answered maxima of one table, in order.
#[derive(Drop)]
pub struct AnsweredMaxima {
    sets: RowSets,
    // They stand apart from the sets, so that a walk that asks for answers reads nothing else.
    answers: Vec<i64>,
}

impl Model for AnsweredMaxima {
    ghost use Rattle.max_bounds.specs.Maxima.{ListOfMaxima};

    ghost Value = { ListOfMaxima };

    ghost use Rattle.max_bounds.specs.Paired.{maxima_of, ArePaired};

    ghost view = { maxima_of };

    ghost invariant = { ArePaired };
}

impl AnsweredMaxima {
    /// None yet, of a table of n rows.
    pub(crate) fn new(alloc: Global, n: u16) -> AnsweredMaxima
        requires some { 0 < n }
        requires at_most { n ≤ most_rows }
        ensures n { result.n ≡ n }
        ensures none { result.items ≡ [] }
    {
        AnsweredMaxima {
            sets: RowSets::new(alloc, n),
            answers: Vec::new(alloc),
        }
    }

    /// The number of rows of the table.
    pub fn n(&self) -> u16
        ensures n { result ≡ self.now.n }

        // What is true of every list.
        ensures same_n { AllByRecursion (λ p. p.rows.n ≡ self.now.n) self.now.items }
        ensures are_rows { AllByRecursion (λ p. AreRows self.now.n p.rows.list) self.now.items }
    {
        self.sets.n()
    }

    /// How many there are.
    pub fn len(&self) -> usize
        ensures { result ≡ length self.now.items }
    {
        self.sets.len()
    }

    /// The answers.
    pub fn answers(&self) -> &[i64]
        ensures { result.now ≡ map (λ p. p.answer) self.now.items }
    {
        &self.answers
    }

    /// The answer at a place.
    pub fn answer(&self, k: usize) -> i64
        requires { k < length self.now.items }
        ensures { result ≡ (pair_at self.now.items k).answer }
    {
        self.answers[k]
    }

    /// The answered maximum at a place.
    pub fn get(&self, k: usize) -> AnsweredMax
        requires { k < length self.now.items }
        ensures { result ≡ pair_at self.now.items k }
    {
        // A list says of its n that each set has it.
        let _ = self.sets.n();
        AnsweredMax {
            answer: self.answers[k],
            rows: self.sets.get(k),
        }
    }

    /// Whether the set at a place has a row.
    pub(crate) fn has(&self, k: usize, row: u16) -> bool
        requires place { k < length self.now.items }
        requires row { row < self.now.n }
        ensures { result ≡ has_row (pair_at self.now.items k).rows.list row }
    {
        self.sets.has(k, row)
    }

    /// Whether the set at a place has no row of another.
    pub(crate) fn is_apart(&self, k: usize, other: &RowSet) -> bool
        requires place { k < length self.now.items }
        requires same_n { other.now.n ≡ self.now.n }
        ensures { IsTrue result ↔ (intersection self.now.n (pair_at self.now.items k).rows.list other.now.list ≡ []) }
    {
        self.sets.is_apart(k, other)
    }

    /// A set becomes the intersection of the set at a place with another, whatever rows it had.
    pub(crate) fn put_shared(&self, k: usize, other: &RowSet, shared: &mut RowSet)
        requires place { k < length self.now.items }
        requires same_n { other.now.n ≡ self.now.n }
        requires same_n_shared { shared.old.n ≡ self.now.n }
        ensures n { shared.new.n ≡ self.now.n }
        ensures both { shared.new.list ≡ intersection self.now.n (pair_at self.now.items k).rows.list other.now.list }
    {
        self.sets.put_shared(k, other, shared);
    }

    /// Makes room for one more.
    pub(crate) fn reserve(&mut self) -> Result<(), NoMemory>
        ensures n { self.new.n ≡ self.old.n }
        ensures same { self.new.items ≡ self.old.items }
        ensures room { OnOk result (HasSpace self.new) }
    {
        self.sets.reserve()?;
        self.answers.reserve(1)?;
        Ok(())
    }

    /// The set at a place becomes its intersection with another.
    pub(crate) fn and_with(&mut self, k: usize, other: &RowSet)
        requires place { k < length self.old.items }
        requires same_n { other.now.n ≡ self.old.n }
        ensures n { self.new.n ≡ self.old.n }
        ensures both { self.new.items ≡ set self.old.items k (record { answer = (pair_at self.old.items k).answer; rows = record { n = self.old.n; list = intersection self.old.n (pair_at self.old.items k).rows.list other.now.list } }) }
        ensures capacity { self.new.capacity ≡ self.old.capacity }
    {
        self.sets.and_with(k, other);
    }

    /// Puts one at a place, before those that were from there on.
    pub(crate) fn insert_reserved(&mut self, place: usize, rows: &RowSet, answer: i64)
        requires room { HasSpace self.old }
        requires place { place ≤ length self.old.items }
        requires same_n { rows.now.n ≡ self.old.n }
        ensures n { self.new.n ≡ self.old.n }
        ensures inserted { self.new.items ≡ insert self.old.items place (record { answer = answer; rows = rows.now }) }
    {
        self.sets.insert_reserved(place, rows);
        // There is room for it.
        self.answers.insert(place, answer).unwrap();
    }
}
