//! The rows of a column in ascending order of value, with the sets of the first of them.
ghost use Rattle.std.specs.Prelude.{◌≡◌, ℕ, ◌<◌, ◌≤◌, Bool, true, [], length, IfOk};
ghost use Rattle.std.specs.List.{All};
ghost use Rattle.std.specs.List.Sorted.{IsPermutation};
ghost use Rattle.audit_types.specs.Limits.{most_rows};
ghost use Rattle.audit_types.specs.Rows.{AreRows, intersection, rows_that, union};
ghost use Rattle.set_index.specs.Marks.{first_rows};
ghost use Rattle.set_index.specs.Ranges.{IsRange};

use audit_types::{NoMemory, RowSet};
use std::alloc::Global;
use std::marker::Model;

// How many rows of the order lie between two of the sets that are kept.
const STEP: usize = 16;

/// The rows of a table in some order. The set of the first `16 k` rows is kept for each `k`, so that a range costs a few
/// words and at most 15 rows at each end, however long it is.
#[derive(Drop)]
pub(crate) struct Sorted {
    rows: u16,
    order: Vec<u16>,
    marks: Vec<RowSet>,
}

impl Model for Sorted {
    ghost use Rattle.set_index.specs.Marks.{SortedView};
    ghost use Rattle.set_index.specs.KeptSorted.{sorted_view, IsKeptSorted};

    ghost Value = { SortedView };

    ghost view = { sorted_view };

    ghost invariant = { IsKeptSorted };
}

// Adds the rows of a list.
fn add_rows(rows: &mut RowSet, list: &[u16])
    requires are_rows { AreRows rows.old.n rows.old.list }
    requires below { All (λ r. r < rows.old.n) list.now }
    ensures n { rows.new.n ≡ rows.old.n }
    ensures added { rows.new.list ≡ union rows.old.n rows.old.list list.now }
{
    for row in list {
        rows.add(*row);
    }
}

impl Sorted {
    /// Keeps rows in this order.
    pub(crate) fn new(alloc: Global, rows: u16, order: Vec<u16>) -> Result<Sorted, NoMemory>
        requires some { 0 < rows }
        requires at_most { rows ≤ most_rows }
        requires each_once { IsPermutation (rows_that (λ r. true) rows) order.items }
        ensures rows { IfOk result (λ s. s.rows ≡ rows) }
        ensures order { IfOk result (λ s. s.order ≡ order.items) }
    {
        let mut marks = Vec::new(alloc);
        let mut first = RowSet::new(rows);
        marks.push(first)?;
        for k in 0..order.len() / STEP {
            add_rows(&mut first, &order[STEP * k..STEP * (k + 1)]);
            marks.push(first)?;
        }
        Ok(Sorted { rows, order, marks })
    }

    /// The rows in order.
    pub(crate) fn order(&self) -> &[u16]
        ensures order { result.now ≡ self.now.order }
        ensures each_once { IsPermutation (rows_that (λ r. true) self.now.rows) self.now.order }
    {
        self.order.as_slice()
    }

    // Fills an empty set with the first rows.
    fn fill_first(&self, count: usize, rows: &mut RowSet)
        requires within { count ≤ length self.now.order }
        requires n { rows.old.n ≡ self.now.rows }
        requires empty { rows.old.list ≡ [] }
        ensures n { rows.new.n ≡ self.now.rows }
        ensures rows { rows.new.list ≡ first_rows self.now.rows self.now.order count }
    {
        let mark = count / STEP;
        rows.or_with(&self.marks[mark]);
        add_rows(rows, &self.order[STEP * mark..count]);
    }

    // Takes the rows from a place of the order on out.
    fn cut_after(&self, count: usize, rows: &mut RowSet)
        requires within { count ≤ length self.now.order }
        requires n { rows.old.n ≡ self.now.rows }
        ensures n { rows.new.n ≡ self.now.rows }
        ensures both { rows.new.list ≡ intersection self.now.rows rows.old.list (first_rows self.now.rows self.now.order count) }
    {
        let mut first = RowSet::new(self.rows);
        self.fill_first(count, &mut first);
        rows.and_with(&first);
    }

    /// Fills an empty set with the rows from one place of the order up to another, if these are the rows that pass a test.
    pub(crate) fn fill_range(&self, from: usize, to: usize, rows: &mut RowSet)
        requires ascends { from ≤ to }
        requires within { to ≤ length self.now.order }
        requires n { rows.old.n ≡ self.now.rows }
        requires empty { rows.old.list ≡ [] }
        ensures n { rows.new.n ≡ self.now.rows }
        ensures rows { (test : ℕ → Bool) → IsRange test self.now.order from to → rows.new.list ≡ rows_that test self.now.rows }
    {
        let end = self.order.len();
        if from == 0 {
            self.fill_first(to, rows);
            return;
        }
        if to - from < STEP {
            add_rows(rows, &self.order[from..to]);
            return;
        }
        self.fill_first(from, rows);
        rows.flip();
        if to == end {
            return;
        }
        self.cut_after(to, rows);
    }
}
