//! The rows of a table, and how many people stand behind each.
ghost use Rattle.std.specs.Prelude.{◌≡◌, ℕ, ◌+◌, ◌<◌, ◌≤◌, nat_le, length, IfOk};
ghost use Rattle.std.specs.List.{AllByRecursion};
ghost use Rattle.audit_types.specs.Limits.{most_rows};
ghost use Rattle.audit_types.specs.Rows.{AreRows};
ghost use Rattle.audit_types.specs.Headcount.{CountPeople, headcount, own_of, crowded, shared_in, beside_in, several_in};

use crate::NoMemory;
use crate::rows::RowSet;
use std::alloc::Global;
use std::marker::Model;

/// Who asks: nobody of the table, or the people behind its rows too, each of whom knows her own number.
#[derive(Clone, Copy, Debug, PartialEq, Eq)]
pub enum Askers {
    Outside,
    Inside,
}

/// The rows of a table of n rows: how many people stand behind each, fewer than how many are guarded in what they have, and who asks.
#[derive(Drop)]
pub struct CountedRows {
    n: u16,
    // How many people stand behind each row. A row beyond them stands for one person.
    counts: Vec<u64>,
    fewest: u16,
    askers: Askers,
    // The rows whose number is guarded against nobody.
    shared: RowSet,
    // The rows whose number isn't guarded against one who knows that of another row.
    beside: RowSet,
    // The rows of several people.
    several: RowSet,
}

impl Model for CountedRows {
    ghost use Rattle.audit_types.specs.Headcount.{Counted, AreCounted, headcount, own_of};

    ghost Value = { Counted };

    ghost view = { λ c. record { n = c.n; people = headcount c.counts.items c.fewest (own_of c.askers) } };

    ghost invariant = { λ c. AreCounted c.n (headcount c.counts.items c.fewest (own_of c.askers)) c.shared c.beside c.several };
}

// The rows that so many people stand behind, or more.
fn crowded(n: u16, counts: &[u64], least: u64) -> RowSet
    requires some { 0 < n }
    requires at_most { n ≤ most_rows }
    requires within { length counts.now ≤ n }
    ensures n { result.n ≡ n }
    ensures crowded { result.list ≡ crowded least counts.now }
{
    let mut rows = RowSet::new(n);
    for row in 0..counts.len() {
        if least <= counts[row] {
            rows.add(row as u16);
        }
    }
    rows
}

impl CountedRows {
    /// The rows of a table of n rows with so many people behind them, one behind each that has no count.
    pub fn new(n: u16, counts: Vec<u64>, fewest: u16, askers: Askers) -> CountedRows
        requires some { 0 < n }
        requires at_most { n ≤ most_rows }
        requires within { length counts.items ≤ n }
        requires somebody { AllByRecursion (λ count. 0 < count) counts.items }
        requires fewest { 1 < fewest }
        ensures n { result.n ≡ n }
        ensures people { result.people ≡ headcount counts.items fewest (own_of askers) }
    {
        let least = fewest as u64;
        let known = match askers {
            Askers::Outside => 0,
            Askers::Inside => 1,
        };
        let shared = crowded(n, &counts, least + known);
        let beside = crowded(n, &counts, least);
        let several = crowded(n, &counts, 2);
        CountedRows {
            n,
            counts,
            fewest,
            askers,
            shared,
            beside,
            several,
        }
    }

    /// The number of rows.
    pub fn n(&self) -> u16
        ensures n { result ≡ self.now.n }

        // What is true of all counted rows.
        ensures some { 0 < self.now.n }
        ensures at_most { self.now.n ≤ most_rows }
        ensures counted { CountPeople self.now.n self.now.people }
    {
        self.n
    }

    /// How many people stand behind each row. A row beyond them stands for one person.
    pub fn counts(&self) -> &[u64]
        ensures { result.now ≡ self.now.people.counts }
    {
        &self.counts
    }

    /// What fewer people than so many have is guarded. With askers inside one more is few, against those who know no number.
    pub fn fewest(&self) -> u16
        ensures { result ≡ self.now.people.fewest }
    {
        self.fewest
    }

    /// Who asks.
    pub fn askers(&self) -> Askers
        ensures { own_of result ≡ self.now.people.own }
    {
        self.askers
    }

    /// The rows whose number is guarded against nobody.
    pub fn shared(&self) -> &RowSet
        ensures n { result.now.n ≡ self.now.n }
        ensures rows { result.now.list ≡ shared_in self.now.people }
    {
        &self.shared
    }

    /// The rows whose number isn't guarded against one who knows that of another row.
    pub fn beside(&self) -> &RowSet
        ensures n { result.now.n ≡ self.now.n }
        ensures rows { result.now.list ≡ beside_in self.now.people }
    {
        &self.beside
    }

    /// The rows of several people, whose number is no asker's own.
    pub fn several(&self) -> &RowSet
        ensures n { result.now.n ≡ self.now.n }
        ensures rows { result.now.list ≡ several_in self.now.people }
    {
        &self.several
    }

    /// The same people, behind rows of a table of n rows.
    pub fn over(&self, alloc: Global, n: u16) -> Result<CountedRows, NoMemory>
        requires some { 0 < n }
        requires at_most { n ≤ most_rows }
        requires within { length self.now.people.counts ≤ n }
        ensures { IfOk result (λ rows. rows ≡ record { n = n; people = self.now.people }) }
    {
        Ok(CountedRows {
            n,
            counts: self.counts.to_vec(alloc)?,
            fewest: self.fewest,
            askers: self.askers,
            shared: self.shared.over(n),
            beside: self.beside.over(n),
            several: self.several.over(n),
        })
    }
}
