//! Rows that alone can have a number, of few people, and how a proof names them.
ghost use Rattle.std.specs.Prelude.{◌≡◌, ◌↔◌, ◌<◌, ◌≤◌, [], ◌∷◌, IsTrue, IfSome, IfNone};
ghost use Rattle.audit_types.specs.Limits.{most_rows};
ghost use Rattle.denial_proof.specs.FewRows.{named_rows, in_order, AreRowsNamed, IsBeside, name_of, name_of_two, is_beside, IsBefore, ComesBefore};

use crate::lone_rows::holds;
use audit_types::{Askers, CountedRows, RowSet};

/// Rows that alone can have a number, as a proof names them.
#[derive(Clone, Copy)]
pub enum FewRows {
    /// This row alone.
    One(u16),
    /// This row, and that of an asker, who knows her own number.
    Beside { row: u16, own: u16 },
    /// These rows.
    Several(RowSet),
}

// Whether the other row may be an asker's own, and the number of this one is guarded against her.
fn is_beside(people: &CountedRows, row: u16, own: u16) -> bool
    ensures { result ≡ is_beside people.now.people row own }
{
    match people.askers() {
        Askers::Outside => false,
        Askers::Inside => !holds(people.several(), own) && !holds(people.beside(), row),
    }
}

// The name of two rows, in ascending order.
fn name_of_two(people: &CountedRows, rows: &RowSet, a: u16, b: u16) -> FewRows
    requires rows { rows.now.list ≡ a ∷ b ∷ [] }
    ensures { result ≡ name_of_two rows.now.n people.now.people a b }
{
    if is_beside(people, a, b) {
        return FewRows::Beside { row: a, own: b };
    }
    if is_beside(people, b, a) {
        return FewRows::Beside { row: b, own: a };
    }
    FewRows::Several(*rows)
}

// Whether the rows of one set come before those of another: the first that differs is less, or the other set has more.
fn is_before(rows: &RowSet, others: &RowSet) -> bool
    ensures { IsTrue result ↔ IsBefore rows.now.list others.now.list }
{
    let mut left = others.iter();
    for row in rows.iter() {
        match left.next() {
            None => return false,
            Some(other) if other != row => return row < other,
            Some(_) => {}
        }
    }
    left.next().is_some()
}

// A row, if it is one of a table of n rows.
fn one_row(n: u16, row: u16) -> Option<RowSet>
    requires some { 0 < n }
    requires at_most { n ≤ most_rows }
    ensures some { IfSome result (λ rows. (row < n) × (rows.n ≡ n) × (rows.list ≡ row ∷ [])) }
    ensures none { IfNone result (¬ (row < n)) }
{
    if row >= n {
        return None;
    }
    let mut rows = RowSet::new(n);
    rows.add(row);
    Some(rows)
}

// Two rows, if they are two of a table of n rows.
fn two_rows(n: u16, row: u16, own: u16) -> Option<RowSet>
    requires some { 0 < n }
    requires at_most { n ≤ most_rows }
    ensures some { IfSome result (λ rows. AreRowsNamed n (FewRows.Beside row own) × (rows.n ≡ n) × (rows.list ≡ in_order row own)) }
    ensures none { IfNone result (¬ (AreRowsNamed n (FewRows.Beside row own))) }
{
    if row == own || own >= n {
        return None;
    }
    let mut rows = one_row(n, row)?;
    rows.add(own);
    Some(rows)
}

impl FewRows {
    /// How a proof names these rows.
    pub(crate) fn of(people: &CountedRows, rows: &RowSet) -> FewRows
        ensures { result ≡ name_of rows.now.n people.now.people rows.now.list }
    {
        let mut left = rows.iter();
        match (left.next(), left.next(), left.next()) {
            (Some(row), None, _) => FewRows::One(row),
            (Some(a), Some(b), None) => name_of_two(people, rows, a, b),
            _ => FewRows::Several(*rows),
        }
    }

    /// Whether a row that is named as an asker's own is one of one person, and the number of the other row is guarded against her.
    pub(crate) fn is_beside(&self, people: &CountedRows) -> bool
        ensures { IsTrue result ↔ IsBeside people.now.people self.now }
    {
        // Counted rows say of themselves that these are people behind so many rows.
        let _ = people.n();
        match self {
            FewRows::Beside { row, own } => is_beside(people, *row, *own),
            _ => true,
        }
    }

    /// Whether it comes before another: a row first, then a row beside an asker's own, then other rows; of one kind by their numbers.
    pub(crate) fn comes_before(&self, other: &FewRows) -> bool
        ensures { IsTrue result ↔ ComesBefore self.now other.now }
    {
        match (self, other) {
            (FewRows::One(row), FewRows::One(other)) => row < other,
            (FewRows::One(_), _) => true,
            (FewRows::Beside { row, own }, FewRows::Beside { row: r, own: q }) => {
                row < r || (row == r && own < q)
            }
            (FewRows::Beside { .. }, FewRows::Several(_)) => true,
            (FewRows::Several(rows), FewRows::Several(others)) => is_before(rows, others),
            _ => false,
        }
    }

    /// The rows that are named, if they are some of a table of n rows.
    pub(crate) fn rows(&self, n: u16) -> Option<RowSet>
        requires some { 0 < n }
        requires at_most { n ≤ most_rows }
        ensures some { IfSome result (λ rows. AreRowsNamed n self.now × (rows.n ≡ n) × (rows.list ≡ named_rows self.now)) }
        ensures none { IfNone result (¬ (AreRowsNamed n self.now)) }
    {
        match self {
            FewRows::One(row) => one_row(n, *row),
            FewRows::Beside { row, own } => two_rows(n, *row, *own),
            FewRows::Several(rows) => {
                if rows.n() == n && !rows.is_empty() {
                    Some(*rows)
                } else {
                    None
                }
            }
        }
    }
}
